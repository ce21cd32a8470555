// The journal that makes a table anew.
ghost use Rattle.ub_keeping.specs.Kept.{replacing};

use ub_journal::Tells;
use ub_store::{Page, Pages};

/// The journal that makes these pages of any table with this first page. The pages are lent, and asked for one by one.
#[derive(Drop)]
pub struct Replacing<'a, Q> {
    /// The first page of the table.
    pub before: Page,
    /// The pages that are to be.
    pub pages: &'a Q,
}

impl<'a, Q: Pages> Tells for Replacing<'a, Q> {
    ghost use Rattle.ub_keeping.specs.Kept.{replacing};

    ghost told = { λ r. replacing r.before (Q.pages r.pages.now) };

    fn before(&self) -> Page {
        self.before
    }

    fn head(&self) -> Page {
        let mut page = [0; 4096];
        if self.pages.count() == 0 {
            return page;
        }
        self.pages.put_page(0, &mut page);
        page
    }

    fn count(&self) -> u32 {
        self.pages.count()
    }

    fn changes(&self) -> usize {
        self.pages.count().saturating_sub(1) as usize
    }

    fn put_change(&self, at: usize, page: &mut Page) -> u32 {
        let _count = self.pages.count();
        let number = at as u32 + 1;
        self.pages.put_page(number, page);
        number
    }
}
