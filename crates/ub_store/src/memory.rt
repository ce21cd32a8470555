ghost use Rattle.std.specs.Prelude.{◌≡◌, ◌<◌, ◌≤◌, ◌++◌, ◌∷◌, ◌↔◌, ◌⊎◌, [], Ok, Err, Some, None, length, slice_get, slice_set, IfOk, IfErr, OnOk, OnErr, IsOk, IsErrOf};
ghost use Rattle.std.specs.Option.{ok_or};
ghost use Rattle.ub_store.specs.Facts.{memory_facts, zero_page};

use crate::Page;
use crate::fault::StoreFault;
use crate::pages::Pages;
use crate::store::{MAX_PAGES, PageStore};
use std::alloc::Global;
use std::marker::Model;

/// A store whose pages lie in memory. It is honest and never fails.
#[derive(Drop)]
pub struct MemStore {
    pages: Vec<Page>,
}

impl Model for MemStore {
    ghost use Rattle.std.specs.Prelude.{List, ℕ, ◌≤◌, length};

    ghost Value = { List (List ℕ) };

    ghost view = { λ s. s.pages.items };

    ghost invariant = { λ s. length s.pages.items ≤ 4294967295 };
}

impl MemStore {
    /// A store with no pages. It takes no memory.
    pub fn new(alloc: Global) -> MemStore
        ensures pages { result ≡ [] }
        ensures facts { ⟦<MemStore as PageStore>⟧.facts result ≡ memory_facts [] }
    {
        MemStore {
            pages: Vec::new(alloc),
        }
    }

    /// The store of these pages, of which there are at most as many as a store has.
    pub fn of(pages: Vec<Page>) -> MemStore
        requires few { length pages.items ≤ MAX_PAGES }
        ensures { result ≡ pages.items }
    {
        MemStore { pages }
    }

    /// The pages, as they are.
    pub fn into_pages(self) -> Vec<Page>
        ensures { result.items ≡ self }
    {
        self.pages
    }
}

impl Pages for MemStore {
    ghost pages = { λ store. store };

    fn count(&self) -> u32 {
        self.pages()
    }

    fn put_page(&self, n: u32, page: &mut Page) {
        *page = self.pages[n as usize];
    }
}

impl PageStore for MemStore {
    ghost use Rattle.std.specs.Prelude.{false};
    ghost use Rattle.ub_store.specs.Facts.{memory_facts};

    ghost facts = { memory_facts };

    ghost reads_need_memory = { false };

    fn pages(&self) -> u32
        ensures { result ≡ length self.now }
    {
        self.pages.len() as u32
    }

    /// Reads the page of this number into the one that is lent. NoPage comes where there is none, and no other fault does.
    fn read_into(&mut self, n: u32, page: &mut Page) -> Result<(), StoreFault>
        ensures page { OnOk result (slice_get self.old n ≡ Some page.new) }
        ensures missing { IfErr result (λ fault.
            (fault ≡ StoreFault.NoPage) × (slice_get self.old n ≡ None)) }
        ensures kept { self.new ≡ self.old }
    {
        match self.pages.get(n as usize) {
            Some(held) => {
                *page = *held;
                Ok(())
            }
            None => Err(StoreFault::NoPage),
        }
    }

    /// The page of this number. NoPage comes where there is none, and no other fault does.
    fn read_page(&mut self, n: u32) -> Result<Page, StoreFault>
        ensures page { result ≡ ok_or (slice_get self.old n) StoreFault.NoPage }
        ensures kept { self.new ≡ self.old }
    {
        let mut page = [0; 4096];
        self.read_into(n, &mut page)?;
        Ok(page)
    }

    /// Puts a page in the place of that of this number. NoPage comes where there is none, and no other fault does.
    fn write_page(&mut self, n: u32, page: &Page) -> Result<(), StoreFault>
        ensures there { n < length self.old → IsOk result }
        ensures missing { length self.old ≤ n → IsErrOf result StoreFault.NoPage }
        ensures written { self.new ≡ slice_set self.old n page.now }
    {
        let n = n as usize;
        if n < self.pages.len() {
            self.pages[n] = *page;
            Ok(())
        } else {
            Err(StoreFault::NoPage)
        }
    }

    /// Adds a page of zeros and gives its number. BadSize comes exactly where there are 4294967295 pages, Memory where memory
    /// was refused. After a fault the store is as it was.
    fn extend(&mut self) -> Result<u32, StoreFault>
        ensures number { IfOk result (λ n. n ≡ length self.old) }
        ensures room { OnOk result (length self.old < MAX_PAGES) }
        ensures full { IsErrOf result StoreFault.BadSize ↔ (length self.old ≡ MAX_PAGES) }
        ensures faults { IfErr result (λ fault.
            (fault ≡ StoreFault.Memory) ⊎ (fault ≡ StoreFault.BadSize)) }
        ensures added { OnOk result (self.new ≡ self.old ++ zero_page ∷ []) }
        ensures failed { OnErr result (self.new ≡ self.old) }
    {
        let count = self.pages();
        if count == MAX_PAGES {
            return Err(StoreFault::BadSize);
        }
        match self.pages.push([0; 4096]) {
            Ok(()) => Ok(count),
            Err(_) => Err(StoreFault::Memory),
        }
    }

    /// Does nothing, and no fault comes.
    fn sync(&mut self) -> Result<(), StoreFault>
        ensures done { IsOk result }
        ensures kept { self.new ≡ self.old }
    {
        // What was written to memory lasts as long as memory does.
        Ok(())
    }
}
