ghost use Rattle.std.specs.Prelude.{◌≡◌, ◌<◌, ◌⊎◌, ℕ, Bool, IsTrue, IfErr, OnOk, IsErrOf};
ghost use Rattle.ub_store.specs.Facts.{StoreFacts, page_count, IsPage, Reads, WritesAt, Extends, Syncs};
ghost use Rattle.ub_file.specs.Medium.{bytes, Empties};

use ub_store::{MAX_PAGES, Page, StoreFault};

/// The bytes of a page.
pub const PAGE_BYTES: u64 = 4096;

/// What a store of pages lies on: bytes, of which each 4096 from the first on are a page, and the rest is none.
///
/// Whether a medium is honest and can fail, which pages it has and which of them last, and how often it has failed is for
/// contracts alone, as for a store. Each call that answers Device is one failure more, and no other call changes a count of
/// failures.
pub trait Medium: Drop {
    ghost facts: { Self → StoreFacts };

    // How many bytes stand after the last whole page.
    ghost rest: { Self → ℕ };

    // Whether growing may be refused for want of memory.
    ghost needs_memory: { Bool };

    /// How many bytes there are.
    fn length(&self) -> u64
        ensures bytes { result ≡ bytes (facts self.now) (rest self.now) }
        ensures part { rest self.now < 4096 };

    /// Reads the page of this number, which there is, into the one that is lent. Device comes where the medium failed in this
    /// call: then nothing of it changes but the count of failed reads, and the page that is lent may hold any bytes.
    fn read_into(&mut self, n: u32, page: &mut Page) -> Result<(), StoreFault>
        requires there { n < page_count (facts self.old) }
        ensures page { OnOk result (IsPage (facts self.old) n page.new) }
        ensures faults { IfErr result (λ fault. fault ≡ StoreFault.Device) }
        ensures effect { Reads (facts self.old) (facts self.new) result }
        ensures rest { rest self.new ≡ rest self.old };

    /// Puts a page in the place of that of this number, which there is. Device comes where the medium failed in this call, and
    /// that page may then hold any bytes.
    fn write_page(&mut self, n: u32, page: &Page) -> Result<(), StoreFault>
        requires there { n < page_count (facts self.old) }
        ensures faults { IfErr result (λ fault. fault ≡ StoreFault.Device) }
        ensures effect { WritesAt n page.now (facts self.old) (facts self.new) result }
        ensures rest { rest self.new ≡ rest self.old };

    /// Puts a page of zeros after the last whole page, in the place of the rest. Device comes where the medium failed in this
    /// call, Memory where memory was refused: there is then one page more or none, and any rest.
    fn grow(&mut self) -> Result<(), StoreFault>
        requires room { page_count (facts self.old) < MAX_PAGES }
        ensures faults { IfErr result (λ fault.
            (fault ≡ StoreFault.Device) ⊎ (fault ≡ StoreFault.Memory)) }
        ensures memory { IsErrOf result StoreFault.Memory → IsTrue needs_memory }
        ensures effect { Extends (facts self.old) (facts self.new) result }
        ensures rest { OnOk result (rest self.new ≡ 0) };

    /// Takes all bytes away. Device comes where the medium failed in this call: any bytes may then stand there.
    fn empty(&mut self) -> Result<(), StoreFault>
        ensures faults { IfErr result (λ fault. fault ≡ StoreFault.Device) }
        ensures effect { Empties (facts self.old) (facts self.new) result }
        ensures rest { OnOk result (rest self.new ≡ 0) };

    /// Makes what was written last. Device comes where the medium failed in this call: what lasts is then what did before, or
    /// all that was written.
    fn sync(&mut self) -> Result<(), StoreFault>
        ensures faults { IfErr result (λ fault. fault ≡ StoreFault.Device) }
        ensures effect { Syncs (facts self.old) (facts self.new) result }
        ensures rest { rest self.new ≡ rest self.old };
}
