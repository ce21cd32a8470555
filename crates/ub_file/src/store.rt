ghost use Rattle.std.specs.Prelude.{◌≡◌, ◌<◌, ◌≤◌, ◌/◌, ◌⊎◌, ◌↔◌, [], Ok, Err, IfOk, IfErr, OnOk, IsOk, IsErrOf, IsTrue};
ghost use Rattle.ub_store.specs.Facts.{page_count, IsPage, Reads, WritesAt, Extends, Syncs};
ghost use Rattle.ub_file.specs.Medium.{bytes, Empties, IsStoreSize};

use crate::medium::{Medium, PAGE_BYTES};
use std::marker::Model;
use ub_store::{MAX_PAGES, Page, PageStore, Rejected, StoreFault};

/// A store whose pages are those of a medium. Contracts see it as that medium.
#[derive(Drop)]
pub struct FileStore<M: Medium> {
    medium: M,
    count: u32,
}

impl<M: Medium> Model for FileStore<M> {
    ghost use Rattle.std.specs.Prelude.{◌≡◌};
    ghost use Rattle.ub_store.specs.Facts.{page_count};

    ghost Value = { M };

    ghost view = { λ s. s.medium };

    ghost invariant = { λ s. s.count ≡ page_count (M.facts s.medium) };
}

// Whether so many bytes are the pages of a store.
fn is_store_size(length: u64) -> bool
    ensures size { IsTrue result ↔ IsStoreSize length }
{
    length % PAGE_BYTES == 0 && length / PAGE_BYTES <= u64::from(MAX_PAGES)
}

// The whole pages of a medium.
fn count_pages<M: Medium>(medium: &M) -> u32
    requires { page_count (M.facts medium.now) ≤ MAX_PAGES }
    ensures { result ≡ page_count (M.facts medium.now) }
{
    (medium.length() / PAGE_BYTES) as u32
}

impl<M: Medium> FileStore<M> {
    /// The store of the pages that a medium has. BadSize comes exactly where its length is no whole number of pages, or more
    /// than 4294967295 of them; the medium is then handed back as it was.
    pub fn open(medium: M) -> Result<FileStore<M>, Rejected<M, StoreFault>>
        ensures size { IsOk result ↔ IsStoreSize (bytes (M.facts medium) (M.rest medium)) }
        ensures opened { IfOk result (λ store. store ≡ medium) }
        ensures facts { IfOk result (λ store.
            ⟦<FileStore<M> as PageStore>⟧.facts store ≡ M.facts medium) }
        ensures refused { IfErr result (λ refused.
            (refused.store ≡ medium) × (refused.fault ≡ StoreFault.BadSize)) }
    {
        if !is_store_size(medium.length()) {
            return Err(Rejected {
                store: medium,
                fault: StoreFault::BadSize,
            });
        }
        let count = count_pages(&medium);
        Ok(FileStore { medium, count })
    }

    /// A store with no pages on a medium, which is emptied. Device comes where the medium failed in this call: it is handed
    /// back, and any bytes may then stand there.
    pub fn create(mut medium: M) -> Result<FileStore<M>, Rejected<M, StoreFault>>
        ensures emptied { IfOk result (λ store.
            Empties (M.facts medium) (M.facts store) (Ok store) × (M.rest store ≡ 0)) }
        ensures facts { IfOk result (λ store.
            ⟦<FileStore<M> as PageStore>⟧.facts store ≡ M.facts store) }
        ensures refused { IfErr result (λ refused. (refused.fault ≡ StoreFault.Device)
            × Empties {A = M} (M.facts medium) (M.facts refused.store) (Err refused.fault)) }
    {
        match medium.empty() {
            Ok(()) => Ok(FileStore { medium, count: 0 }),
            Err(fault) => Err(Rejected {
                store: medium,
                fault,
            }),
        }
    }

    /// The medium, as it is.
    pub fn into_medium(self) -> M
        ensures { result ≡ self }
    {
        self.medium
    }
}

impl<M: Medium> PageStore for FileStore<M> {
    ghost use Rattle.std.specs.Prelude.{false};

    ghost facts = { M.facts };

    ghost reads_need_memory = { false };

    fn pages(&self) -> u32 {
        self.count
    }

    /// Reads the page of this number into the one that is lent. NoPage comes exactly where there is none, and nothing of the
    /// store changes then.
    fn read_into(&mut self, n: u32, page: &mut Page) -> Result<(), StoreFault>
        ensures page { OnOk result (IsPage (M.facts self.old) n page.new) }
        ensures missing { IsErrOf result StoreFault.NoPage ↔ (page_count (M.facts self.old) ≤ n) }
        ensures faults { IfErr result (λ fault.
            (fault ≡ StoreFault.Device) ⊎ (fault ≡ StoreFault.NoPage)) }
        ensures kept { page_count (M.facts self.old) ≤ n → self.new ≡ self.old }
        ensures effect { Reads (M.facts self.old) (M.facts self.new) result }
    {
        if n >= self.count {
            return Err(StoreFault::NoPage);
        }
        self.medium.read_into(n, page)
    }

    /// The page of this number. NoPage comes exactly where there is none, and nothing changes then.
    fn read_page(&mut self, n: u32) -> Result<Page, StoreFault>
        ensures page { IfOk result (λ page. IsPage (M.facts self.old) n page) }
        ensures missing { IsErrOf result StoreFault.NoPage ↔ (page_count (M.facts self.old) ≤ n) }
        ensures faults { IfErr result (λ fault.
            (fault ≡ StoreFault.Device) ⊎ (fault ≡ StoreFault.NoPage)) }
        ensures kept { page_count (M.facts self.old) ≤ n → self.new ≡ self.old }
        ensures effect { Reads (M.facts self.old) (M.facts self.new) result }
    {
        let mut page = [0; 4096];
        self.read_into(n, &mut page)?;
        Ok(page)
    }

    /// Puts a page in the place of that of this number. NoPage comes exactly where there is none, and nothing changes then.
    fn write_page(&mut self, n: u32, page: &Page) -> Result<(), StoreFault>
        ensures missing { IsErrOf result StoreFault.NoPage ↔ (page_count (M.facts self.old) ≤ n) }
        ensures faults { IfErr result (λ fault.
            (fault ≡ StoreFault.Device) ⊎ (fault ≡ StoreFault.NoPage)) }
        ensures kept { page_count (M.facts self.old) ≤ n → self.new ≡ self.old }
        ensures effect { WritesAt n page.now (M.facts self.old) (M.facts self.new) result }
    {
        if n >= self.count {
            return Err(StoreFault::NoPage);
        }
        self.medium.write_page(n, page)
    }

    /// Adds a page of zeros and gives its number. BadSize comes exactly where there are 4294967295 pages, and nothing changes
    /// then. After another fault there are the pages that the medium then has.
    fn extend(&mut self) -> Result<u32, StoreFault>
        ensures number { IfOk result (λ n. n ≡ page_count (M.facts self.old)) }
        ensures room { OnOk result (page_count (M.facts self.old) < MAX_PAGES) }
        ensures full { IsErrOf result StoreFault.BadSize
            ↔ (page_count (M.facts self.old) ≡ MAX_PAGES) }
        ensures no_page { ¬ (IsErrOf result StoreFault.NoPage) }
        ensures memory { IsErrOf result StoreFault.Memory → IsTrue M.needs_memory }
        ensures kept { page_count (M.facts self.old) ≡ MAX_PAGES → self.new ≡ self.old }
        ensures effect { Extends (M.facts self.old) (M.facts self.new) result }
    {
        let n = self.count;
        if n == MAX_PAGES {
            return Err(StoreFault::BadSize);
        }
        let grown = self.medium.grow();
        self.count = count_pages(&self.medium);
        match grown {
            Ok(()) => Ok(n),
            Err(fault) => Err(fault),
        }
    }

    fn sync(&mut self) -> Result<(), StoreFault> {
        self.medium.sync()
    }
}
