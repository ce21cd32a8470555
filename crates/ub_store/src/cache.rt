ghost use Rattle.std.specs.Prelude.{◌≡◌, ℕ, [], Some, None, IfOk, OnOk, OnErr, option_map};
ghost use Rattle.std.specs.Option.{is_some, option_copied};
ghost use Rattle.ub_store.specs.Cache.{page_at, passing_page, SameBut, NoneMoreBut};

use crate::kept::Kept;
use crate::page::Page;
use std::alloc::{AllocError, Global};
use std::marker::Model;
use std::num::NonZeroUsize;

/// A page that passes, and its number.
#[derive(Drop)]
pub struct Passing {
    pub number: u32,
    pub page: Box<Page>,
}

/// The pages that are held: those last used, and beside them one that passes. The pages of a long run, each of which is looked at once,
/// pass one after the other: none of those that are kept is let go for them, and two boxes hold them in turn.
#[derive(Drop)]
pub struct Cache {
    kept: Kept,
    passing: Option<Passing>,
}

impl Model for Cache {
    ghost use Rattle.std.specs.Prelude.{List, ℕ};
    ghost use Rattle.ub_store.specs.Cache.{with_passing, IsApart};

    ghost Value = { List (ℕ × List ℕ) };

    ghost view = { λ c. with_passing c.passing c.kept };

    ghost invariant = { λ c. IsApart c.passing c.kept };
}

// The page that passes, where it has this number.
fn page_passing(passing: &Option<Passing>, n: u32) -> Option<&Page>
    ensures { option_copied result ≡ passing_page passing.now n }
{
    match passing {
        Some(passing) if passing.number == n => Some(&passing.page),
        _ => None,
    }
}

impl Cache {
    /// A cache that holds no page yet, and keeps this many at most.
    pub fn new(alloc: Global, capacity: NonZeroUsize) -> Result<Cache, AllocError>
        ensures { IfOk result (λ cache. cache ≡ []) }
    {
        let kept = Kept::new(alloc, capacity)?;
        Ok(Cache {
            kept,
            passing: None,
        })
    }

    /// Whether a page of this number is held. One that is kept is then the one used last.
    pub fn touch(&mut self, n: u32) -> bool
        ensures found { result ≡ is_some (page_at self.old n) }
        ensures same { (m : ℕ) → page_at self.new m ≡ page_at self.old m }
    {
        page_passing(&self.passing, n).is_some() || self.kept.touch(n)
    }

    /// The page that is held under this number.
    pub fn get(&self, n: u32) -> Option<&Page>
        ensures { option_copied result ≡ page_at self.now n }
    {
        match page_passing(&self.passing, n) {
            Some(page) => Some(page),
            None => self.kept.get(n),
        }
    }

    /// A page to be read into, in which any bytes may stand: the one that was let go last, or a new one.
    pub fn take_spare(&mut self) -> Result<Box<Page>, AllocError>
        ensures { self.new ≡ self.old }
    {
        self.kept.take_spare()
    }

    /// Keeps a page that isn't held, to be read into next.
    pub fn keep_spare(&mut self, page: Box<Page>)
        ensures { self.new ≡ self.old }
    {
        self.kept.keep_spare(page);
    }

    /// Holds this page, which isn't held, and keeps it, in the place of the one used first where there are too many.
    pub fn hold(&mut self, n: u32, page: Box<Page>) -> Result<(), AllocError>
        requires { page_at self.old n ≡ None }
        ensures held { OnOk result (page_at self.new n ≡ Some page.value) }
        ensures others { NoneMoreBut n self.old self.new }
        ensures refused { OnErr result (self.new ≡ self.old) }
    {
        self.kept.hold(n, page)
    }

    /// Holds this page, which isn't held, until the next one passes.
    pub fn pass(&mut self, n: u32, page: Box<Page>)
        requires { page_at self.old n ≡ None }
        ensures held { page_at self.new n ≡ Some page.value }
        ensures others { NoneMoreBut n self.old self.new }
    {
        if let Some(before) = self.passing.take() {
            self.kept.keep_spare(before.page);
        }
        self.passing = Some(Passing { number: n, page });
    }

    /// Puts a page in the place of the one that is held under this number, if one is. One that is kept is the first that is let go then.
    pub fn renew(&mut self, n: u32, page: &Page)
        ensures renewed { page_at self.new n ≡ option_map (λ _. page.now) (page_at self.old n) }
        ensures others { SameBut n self.old self.new }
    {
        match &mut self.passing {
            Some(passing) if passing.number == n => *passing.page = *page,
            _ => self.kept.renew(n, page),
        }
    }

    /// Forgets the page of this number.
    pub fn forget(&mut self, n: u32)
        ensures gone { page_at self.new n ≡ None }
        ensures others { SameBut n self.old self.new }
    {
        if page_passing(&self.passing, n).is_some() {
            self.passing = None;
        } else {
            self.kept.forget(n);
        }
    }
}
