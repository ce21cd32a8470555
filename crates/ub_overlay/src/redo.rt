ghost use Rattle.std.specs.Prelude.{◌≡◌, ◌<◌, Some, IfOk, length, slice_get};
ghost use Rattle.std.specs.Option.{unwrap_or};
ghost use Rattle.ub_overlay.specs.inner.Split.{IsSplitOf};

use crate::changes::Changes;
use std::alloc::AllocError;
use std::marker::Model;
use ub_journal::Tells;
use ub_store::Page;

/// The changed pages of an overlay that was taken apart, and how many pages there are to be. The pages stand in their boxes.
#[derive(Drop)]
pub struct Changed {
    first: Option<Box<Page>>,
    count: u32,
    others: Vec<(u32, Box<Page>)>,
}

impl Model for Changed {
    ghost use Rattle.std.specs.Prelude.{option_map};
    ghost use Rattle.ub_overlay.specs.Changes.{changes_of};
    ghost use Rattle.ub_overlay.specs.Journal.{ChangedView, changed_view};

    ghost Value = { ChangedView };

    ghost view = { λ c. changed_view (option_map (λ b. b.value) c.first) c.count (changes_of c.others.items) };
}

/// The journal that puts them into the table of the pages below, told page by page.
#[derive(Drop)]
pub struct Redo {
    /// The first page below.
    pub before: Page,
    /// The changed pages.
    pub changed: Changed,
}

impl Changed {
    // These changes, of a table that is to have so many pages.
    pub(crate) fn of(mut changes: Changes, count: u32) -> Result<Changed, AllocError>
        ensures { IfOk result (λ changed. IsSplitOf changes count changed) }
    {
        let first = changes.take_first();
        let others = changes.into_list()?;
        Ok(Changed {
            first,
            count,
            others,
        })
    }

    // The first page that is to be, where this is the one that there was.
    fn head(&self, before: &Page) -> Page
        ensures { result ≡ unwrap_or self.now.first before.now }
    {
        match &self.first {
            Some(page) => **page,
            None => *before,
        }
    }

    // How many pages there are to be.
    fn count(&self) -> u32
        ensures { result ≡ self.now.count }
    {
        self.count
    }

    // How many other pages were changed.
    fn len(&self) -> usize
        ensures { result ≡ length self.now.others }
    {
        self.others.len()
    }

    // Puts one of these, by its place among them, into the page that is lent, and tells its number.
    fn put_change(&self, at: usize, page: &mut Page) -> u32
        requires { at < length self.now.others }
        ensures { slice_get self.now.others at
            ≡ Some (record { number = result; page = page.new }) }
    {
        let (number, changed) = &self.others[at];
        *page = **changed;
        *number
    }
}

impl Tells for Redo {
    ghost use Rattle.ub_overlay.specs.Journal.{journal_from};

    ghost told = { λ r. journal_from r.before r.changed };

    fn before(&self) -> Page {
        self.before
    }

    fn head(&self) -> Page {
        self.changed.head(&self.before)
    }

    fn count(&self) -> u32 {
        self.changed.count()
    }

    fn changes(&self) -> usize {
        self.changed.len()
    }

    fn put_change(&self, at: usize, page: &mut Page) -> u32 {
        self.changed.put_change(at, page)
    }
}
