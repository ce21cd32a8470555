ghost use Rattle.std.specs.Prelude.{◌≡◌, ◌<◌, ◌≤◌, ◌⊎◌, Bool, IsTrue, IfOk, IfErr, OnOk, IsErrOf};
ghost use Rattle.ub_store.specs.Facts.{StoreFacts, page_count, IsPage, Reads, WritesAt, Extends, Syncs};

use crate::Page;
use crate::fault::StoreFault;

/// The most pages that a store has.
pub const MAX_PAGES: u32 = 4294967295;

/// The most pages that a store reads at once.
pub const RUN_PAGES: u32 = 16;

/// A store of pages, which are numbered from 0.
///
/// A page that a fault leaves unread or unwritten may be asked for again. Whether a store is honest and can fail, which pages
/// it has and which of them last, and how often it has failed is for contracts alone: no call tells it. Each call that answers
/// Device is one failure more, and no other call changes a count of failures.
pub trait PageStore: Drop {
    ghost facts: { Self → StoreFacts };

    // Whether a read may be refused for want of memory.
    ghost reads_need_memory: { Bool };

    /// How many pages there are.
    fn pages(&self) -> u32
        ensures { result ≡ page_count (facts self.now) };

    /// Reads the page of this number into the one that is lent. NoPage comes where there is none, Device where the store failed
    /// in this call, Memory where memory was refused. Nothing of the store changes but, at Device, the count of failed reads.
    /// After a fault the page that is lent may hold any bytes.
    fn read_into(&mut self, n: u32, page: &mut Page) -> Result<(), StoreFault>
        ensures page { OnOk result (IsPage (facts self.old) n page.new) }
        ensures there { OnOk result (n < page_count (facts self.old)) }
        ensures missing { IsErrOf result StoreFault.NoPage → page_count (facts self.old) ≤ n }
        ensures memory { IsErrOf result StoreFault.Memory → IsTrue reads_need_memory }
        ensures no_size { ¬ (IsErrOf result StoreFault.BadSize) }
        ensures effect { Reads (facts self.old) (facts self.new) result };

    /// The page of this number, by value. The faults are those of `read_into`. Nothing changes but, at Device, the count of
    /// failed reads.
    fn read_page(&mut self, n: u32) -> Result<Page, StoreFault>
        ensures page { IfOk result (λ page. IsPage (facts self.old) n page) }
        ensures there { OnOk result (n < page_count (facts self.old)) }
        ensures missing { IsErrOf result StoreFault.NoPage → page_count (facts self.old) ≤ n }
        ensures memory { IsErrOf result StoreFault.Memory → IsTrue reads_need_memory }
        ensures no_size { ¬ (IsErrOf result StoreFault.BadSize) }
        ensures effect { Reads (facts self.old) (facts self.new) result };

    /// Tells the store that so many pages from this number on are asked for next, one after the other: it may read several of
    /// them at once where the first one is asked for. No fault comes, and nothing that a later call promises changes.
    fn announce(&mut self, n: u32, count: u32)
        ensures { facts self.new ≡ facts self.old }
    {}

    /// Puts a page in the place of that of this number. NoPage comes where there is none, Device where the store failed in
    /// this call, whatever the cause. After a fault that page may hold any bytes.
    fn write_page(&mut self, n: u32, page: &Page) -> Result<(), StoreFault>
        ensures there { OnOk result (n < page_count (facts self.old)) }
        ensures missing { IsErrOf result StoreFault.NoPage → page_count (facts self.old) ≤ n }
        ensures faults { IfErr result (λ fault.
            (fault ≡ StoreFault.Device) ⊎ (fault ≡ StoreFault.NoPage)) }
        ensures effect { WritesAt n page.now (facts self.old) (facts self.new) result };

    /// Adds a page of zeros and gives its number, which is how many pages there were. BadSize comes where there are 4294967295
    /// pages, Device where the store failed in this call, Memory where memory was refused. After a fault there is one page
    /// more or none.
    fn extend(&mut self) -> Result<u32, StoreFault>
        ensures number { IfOk result (λ n. n ≡ page_count (facts self.old)) }
        ensures room { OnOk result (page_count (facts self.old) < MAX_PAGES) }
        ensures full { IsErrOf result StoreFault.BadSize → page_count (facts self.old) ≡ MAX_PAGES }
        ensures no_page { ¬ (IsErrOf result StoreFault.NoPage) }
        ensures effect { Extends (facts self.old) (facts self.new) result };

    /// Makes what was written last. Device comes where the store failed in this call, whatever the cause: what lasts is then
    /// what did before, or all that was written.
    fn sync(&mut self) -> Result<(), StoreFault>
        ensures faults { IfErr result (λ fault. fault ≡ StoreFault.Device) }
        ensures effect { Syncs (facts self.old) (facts self.new) result };
}
