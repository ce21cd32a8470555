// A store over regions that are lent.
ghost use Rattle.std.specs.Prelude.{◌≡◌, []};
ghost use Rattle.std.specs.List.{AllByRecursion};
ghost use Rattle.ub_laying.specs.Spelled.{grown_view};
ghost use Rattle.ub_table.specs.Region.{IsRegion};

use crate::spelled::Spelled;
use std::alloc::Global;
use std::marker::Model;
use ub_growing::Grown;
use ub_store::{MAX_PAGES, Page, PageStore, Pages, StoreFault};
use ub_table::Schema;

/// A store in memory for a table whose regions are lent. Where a region's page is written as the region is spelled it isn't held, but
/// spelled when it is asked for; all other pages are held. So pages of regions take no memory beside the rows. It is honest, and fails
/// where memory is refused for a page that is written: Device then, as no other fault can come.
#[derive(Drop)]
pub struct GrownStore<'a> {
    pages: Spelled<'a>,
    failed: u64,
}

impl<'a> Model for GrownStore<'a> {
    ghost use Rattle.ub_laying.specs.Spelled.{GrownView, grown_view};

    ghost Value = { GrownView };

    ghost view = { λ s. grown_view s.pages s.failed };
}

impl<'a> GrownStore<'a> {
    /// A store with no pages, for a table of this schema with these regions. It takes no memory.
    pub fn over(alloc: Global, schema: &'a Schema, grown: &'a Grown) -> GrownStore<'a>
        requires { AllByRecursion (IsRegion schema.now) grown.now }
        ensures { result ≡ grown_view [] 0 }
    {
        GrownStore {
            pages: Spelled::over(alloc, schema, grown),
            failed: 0,
        }
    }
}

impl<'a> Pages for GrownStore<'a> {
    ghost pages = { λ store. store.pages };

    fn count(&self) -> u32 {
        self.pages.len()
    }

    fn put_page(&self, n: u32, page: &mut Page) {
        self.pages.put(n, page);
    }
}

impl<'a> PageStore for GrownStore<'a> {
    ghost use Rattle.std.specs.Prelude.{false};
    ghost use Rattle.ub_laying.specs.Spelled.{grown_facts};

    ghost facts = { grown_facts };

    ghost reads_need_memory = { false };

    fn pages(&self) -> u32 {
        self.pages.len()
    }

    fn read_into(&mut self, n: u32, page: &mut Page) -> Result<(), StoreFault> {
        if n >= self.pages.len() {
            return Err(StoreFault::NoPage);
        }
        self.pages.put(n, page);
        Ok(())
    }

    fn read_page(&mut self, n: u32) -> Result<Page, StoreFault> {
        let mut page = [0; 4096];
        self.read_into(n, &mut page)?;
        Ok(page)
    }

    fn write_page(&mut self, n: u32, page: &Page) -> Result<(), StoreFault> {
        if n >= self.pages.len() {
            return Err(StoreFault::NoPage);
        }
        if self.pages.set(n, page).is_err() {
            self.failed = self.failed.saturating_add(1);
            return Err(StoreFault::Device);
        }
        Ok(())
    }

    fn extend(&mut self) -> Result<u32, StoreFault> {
        let count = self.pages.len();
        if count == MAX_PAGES {
            return Err(StoreFault::BadSize);
        }
        match self.pages.add() {
            Ok(()) => Ok(count),
            Err(_) => Err(StoreFault::Memory),
        }
    }

    // What was written to memory lasts as long as memory does.
    fn sync(&mut self) -> Result<(), StoreFault> {
        Ok(())
    }
}
