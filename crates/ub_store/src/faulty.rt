ghost use Rattle.std.specs.Prelude.{◌≡◌, ◌<◌, ◌≤◌, ◌-◌, ◌⊎◌, ◌↔◌, IfOk, IfErr, OnOk, OnErr, IsTrue, IsErrOf};
ghost use Rattle.ub_store.specs.Facts.{page_count, raised, IsPage, Reads, WritesAt, Extends, Syncs};
ghost use Rattle.ub_store.specs.Faulty.{faulty_view, faulty_facts, read_failed, with_failures, write_failed, Passes};

use crate::Page;
use crate::fault::StoreFault;
use crate::store::{MAX_PAGES, PageStore};
use std::marker::Model;

/// A store that fails at one call, for tests: of its reads, writes, extensions and syncs, counted from 1, the k-th answers
/// Device and doesn't reach the store within. The others are those of the store within.
#[derive(Drop)]
pub struct FaultyStore<S> {
    inner: S,
    due: u64,
    reads: u64,
    writes: u64,
}

impl<S> Model for FaultyStore<S> {
    ghost use Rattle.ub_store.specs.Faulty.{FaultyView, faulty_view, faulty_code};

    ghost Value = { FaultyView S };

    ghost coded = { faulty_code S.code };

    ghost view = { λ f. faulty_view f.inner f.due f.reads f.writes };
}

impl<S: PageStore> FaultyStore<S> {
    /// A store that fails at its k-th call, or never where k is 0.
    pub fn new(inner: S, k: u64) -> FaultyStore<S>
        ensures view { result ≡ faulty_view inner k 0 0 }
        ensures facts { ⟦<FaultyStore<S> as PageStore>⟧.facts result
            ≡ with_failures (S.facts inner) 0 0 }
    {
        FaultyStore {
            inner,
            due: k,
            reads: 0,
            writes: 0,
        }
    }

    // Counts a call, and tells whether it is the one to fail.
    fn is_due(&mut self) -> bool
        ensures due { IsTrue result ↔ (self.old.due ≡ 1) }
        ensures counted { self.new ≡ record self.old { due = self.old.due - 1 } }
    {
        let is_due = self.due == 1;
        self.due = self.due.saturating_sub(1);
        is_due
    }

    // Counts a read that failed here.
    fn count_failed_read(&mut self)
        ensures { self.new ≡ record self.old { reads = raised self.old.reads 1 } }
    {
        self.reads = self.reads.saturating_add(1);
    }

    // Counts another call that failed here.
    fn count_failed_write(&mut self)
        ensures { self.new ≡ record self.old { writes = raised self.old.writes 1 } }
    {
        self.writes = self.writes.saturating_add(1);
    }
}

impl<S: PageStore> PageStore for FaultyStore<S> {
    ghost use Rattle.ub_store.specs.Faulty.{faulty_facts};

    ghost facts = { faulty_facts S.facts };

    ghost reads_need_memory = { S.reads_need_memory };

    fn pages(&self) -> u32 {
        self.inner.pages()
    }

    /// Reads the page of this number, as the store within does, or answers Device where the failure is due.
    fn read_into(&mut self, n: u32, page: &mut Page) -> Result<(), StoreFault>
        ensures within { Passes S.facts Reads (read_failed self.old) self.old self.new result }
        ensures page { OnOk result (IsPage (faulty_facts S.facts self.old) n page.new) }
        ensures there { OnOk result (n < page_count (faulty_facts S.facts self.old)) }
        ensures missing { IsErrOf result StoreFault.NoPage
            → page_count (faulty_facts S.facts self.old) ≤ n }
        ensures memory { IsErrOf result StoreFault.Memory → IsTrue S.reads_need_memory }
        ensures no_size { ¬ (IsErrOf result StoreFault.BadSize) }
        ensures effect { Reads (faulty_facts S.facts self.old)
            (faulty_facts S.facts self.new) result }
    {
        if self.is_due() {
            self.count_failed_read();
            return Err(StoreFault::Device);
        }
        self.inner.read_into(n, page)
    }

    /// The page of this number, as the store within gives it, or Device where the failure is due.
    fn read_page(&mut self, n: u32) -> Result<Page, StoreFault>
        ensures within { Passes S.facts Reads (read_failed self.old) self.old self.new result }
        ensures page { IfOk result (λ page. IsPage (faulty_facts S.facts self.old) n page) }
        ensures there { OnOk result (n < page_count (faulty_facts S.facts self.old)) }
        ensures missing { IsErrOf result StoreFault.NoPage
            → page_count (faulty_facts S.facts self.old) ≤ n }
        ensures memory { IsErrOf result StoreFault.Memory → IsTrue S.reads_need_memory }
        ensures no_size { ¬ (IsErrOf result StoreFault.BadSize) }
        ensures effect { Reads (faulty_facts S.facts self.old)
            (faulty_facts S.facts self.new) result }
    {
        let mut page = [0; 4096];
        self.read_into(n, &mut page)?;
        Ok(page)
    }

    /// Writes the page, as the store within does, or answers Device where the failure is due.
    fn write_page(&mut self, n: u32, page: &Page) -> Result<(), StoreFault>
        ensures within { Passes S.facts (WritesAt n page.now) (write_failed self.old)
            self.old self.new result }
        ensures there { OnOk result (n < page_count (faulty_facts S.facts self.old)) }
        ensures missing { IsErrOf result StoreFault.NoPage
            → page_count (faulty_facts S.facts self.old) ≤ n }
        ensures faults { IfErr result (λ fault.
            (fault ≡ StoreFault.Device) ⊎ (fault ≡ StoreFault.NoPage)) }
        ensures effect { WritesAt n page.now (faulty_facts S.facts self.old)
            (faulty_facts S.facts self.new) result }
    {
        if self.is_due() {
            self.count_failed_write();
            return Err(StoreFault::Device);
        }
        self.inner.write_page(n, page)
    }

    /// Adds a page of zeros, as the store within does, or answers Device where the failure is due.
    fn extend(&mut self) -> Result<u32, StoreFault>
        ensures within { Passes S.facts Extends (write_failed self.old) self.old self.new result }
        ensures number { IfOk result (λ n. n ≡ page_count (faulty_facts S.facts self.old)) }
        ensures room { OnOk result (page_count (faulty_facts S.facts self.old) < MAX_PAGES) }
        ensures full { IsErrOf result StoreFault.BadSize
            → page_count (faulty_facts S.facts self.old) ≡ MAX_PAGES }
        ensures no_page { ¬ (IsErrOf result StoreFault.NoPage) }
        ensures effect { Extends (faulty_facts S.facts self.old)
            (faulty_facts S.facts self.new) result }
    {
        if self.is_due() {
            self.count_failed_write();
            return Err(StoreFault::Device);
        }
        self.inner.extend()
    }

    /// Syncs the store within, or answers Device where the failure is due.
    fn sync(&mut self) -> Result<(), StoreFault>
        ensures within { Passes S.facts Syncs (write_failed self.old) self.old self.new result }
        ensures faults { IfErr result (λ fault. fault ≡ StoreFault.Device) }
        ensures effect { Syncs (faulty_facts S.facts self.old)
            (faulty_facts S.facts self.new) result }
    {
        if self.is_due() {
            self.count_failed_write();
            return Err(StoreFault::Device);
        }
        self.inner.sync()
    }
}
