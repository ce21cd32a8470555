ghost use Rattle.std.specs.Prelude.{◌≡◌, ℕ, [], Some, None, IfOk, IfSome, OnOk, OnErr, option_map};
ghost use Rattle.std.specs.Option.{is_some, option_copied};
ghost use Rattle.ub_store.specs.Cache.{page_at, SameBut, NoneMoreBut};

use crate::page::{Page, new_page};
use lru::LruCache;
use std::alloc::{AllocError, Global};
use std::marker::Model;
use std::num::NonZeroUsize;

/// The pages last used, under their numbers. Each stands in a box of its own, so that no page moves where the order changes.
/// The box of a page that is let go is the one that the next page is read into.
#[derive(Drop)]
pub struct Kept {
    alloc: Global,
    pages: LruCache<u32, Box<Page>>,
    spare: Option<Box<Page>>,
}

impl Model for Kept {
    ghost use Rattle.std.specs.Prelude.{List, ℕ};
    ghost use Rattle.ub_store.specs.Cache.{pages_of};

    ghost Value = { List (ℕ × List ℕ) };

    ghost view = { λ c. pages_of c.pages.entries };
}

impl Kept {
    /// None yet, and this many at most.
    pub fn new(alloc: Global, capacity: NonZeroUsize) -> Result<Kept, AllocError>
        ensures { IfOk result (λ kept. kept ≡ []) }
    {
        let pages = LruCache::new(alloc, capacity)?;
        Ok(Kept {
            alloc,
            pages,
            spare: None,
        })
    }

    /// Whether a page of this number is held, which is then the one used last.
    pub fn touch(&mut self, n: u32) -> bool
        ensures found { result ≡ is_some (page_at self.old n) }
        ensures same { (m : ℕ) → page_at self.new m ≡ page_at self.old m }
    {
        self.pages.promote(&n)
    }

    // The page used last, where it has this number: no search is needed for it.
    fn latest(&self, n: u32) -> Option<&Page>
        ensures { IfSome result (λ page. page_at self.now n ≡ Some page.now) }
    {
        match self.pages.peek_mru() {
            Some((number, page)) if *number == n => Some(page),
            _ => None,
        }
    }

    /// The page that is held under this number. The one used last is given without a search.
    pub fn get(&self, n: u32) -> Option<&Page>
        ensures { option_copied result ≡ page_at self.now n }
    {
        if let Some(page) = self.latest(n) {
            return Some(page);
        }
        match self.pages.peek(&n) {
            Some(page) => Some(page),
            None => None,
        }
    }

    /// A page to be read into, in which any bytes may stand: the one that was let go last, or a new one.
    pub fn take_spare(&mut self) -> Result<Box<Page>, AllocError>
        ensures { self.new ≡ self.old }
    {
        match self.spare.take() {
            Some(page) => Ok(page),
            None => new_page(self.alloc),
        }
    }

    /// Keeps a page that isn't held, to be read into next.
    pub fn keep_spare(&mut self, page: Box<Page>)
        ensures { self.new ≡ self.old }
    {
        self.spare = Some(page);
    }

    /// Holds this page, in the place of the one used first where there are too many, which is then spare.
    pub fn hold(&mut self, n: u32, page: Box<Page>) -> Result<(), AllocError>
        ensures held { OnOk result (page_at self.new n ≡ Some page.value) }
        ensures others { NoneMoreBut n self.old self.new }
        ensures refused { OnErr result (self.new ≡ self.old) }
    {
        self.spare = self.pages.push(n, page)?.map(|(_, let_go)| let_go);
        Ok(())
    }

    /// Puts a page in the place of the one that is held under this number, if one is. It is the first that is let go then: who
    /// puts a page has read it, and in a large table comes to it again later than to the pages on the way there.
    pub fn renew(&mut self, n: u32, page: &Page)
        ensures renewed { page_at self.new n ≡ option_map (λ _. page.now) (page_at self.old n) }
        ensures others { SameBut n self.old self.new }
    {
        self.write(n, page);
        self.demote(n);
    }

    // Writes over the page that is held under this number, if one is.
    fn write(&mut self, n: u32, page: &Page)
        ensures renewed { page_at self.new n ≡ option_map (λ _. page.now) (page_at self.old n) }
        ensures others { SameBut n self.old self.new }
    {
        if let Some(held) = self.pages.peek_mut(&n) {
            **held = *page;
        }
    }

    // Has the page of this number be the one used first, if it is held.
    fn demote(&mut self, n: u32)
        ensures { (m : ℕ) → page_at self.new m ≡ page_at self.old m }
    {
        // Its contract tells the proof that no number stands twice in the cache.
        let _len = self.pages.len();
        self.pages.demote(&n);
    }

    /// Forgets the page of this number.
    pub fn forget(&mut self, n: u32)
        ensures gone { page_at self.new n ≡ None }
        ensures others { SameBut n self.old self.new }
    {
        // Its contract tells the proof that no number stands twice in the cache.
        let _len = self.pages.len();
        let _ = self.pages.pop(&n);
    }
}
