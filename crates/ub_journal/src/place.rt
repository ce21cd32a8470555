ghost use Rattle.std.specs.Prelude.{◌≡◌, ◌<◌, ◌≤◌, ◌+◌, ◌*◌, ◌/◌, Some, None, length, slice_get, IfOk, IfSome, IsErrOf, OnOk};
ghost use Rattle.std.specs.Option.{option_map};
ghost use Rattle.ub_journal.specs.Crash.{Drafts, IsPublished, Publishes, Removes, Resizes, Stays, TearsMark, TearsPage, with_count, with_draft, with_journal, with_mark, with_page};
ghost use Rattle.ub_journal.specs.Image.{Journal as spec, IsJournal, told};
ghost use Rattle.ub_journal.specs.Place.{AreIn, DraftLasts, IsClock, IsHonest, Lasts, PlaceFacts, SameDraft, SameJournal, SameTable, Shows, Steps, Looks};

use crate::fault::JournalFault;
use crate::journal::{Journal, Tells};
use std::alloc::Global;
use ub_store::Page;

/// A call of a place failed, whatever the cause. No call of a place fails for another reason than that the device did in this
/// call: so this tells no more.
#[derive(Clone, Copy, Debug, PartialEq, Eq)]
pub struct Failed;

/// The file of a table, a draft of a journal, and the journal beside the file.
///
/// What is seen there, what a crash may leave of it, and how often a call failed is for contracts alone: no call tells it. What they
/// say of it is said of a place that is honest. Each call that fails is one failure more, and no other call is one. After a failure
/// what is seen is one of the images that a crash may leave then.
///
/// One clock runs for all three files: `left_since` tells of each earlier moment what a crash from then on might have left, during
/// a call or between two.
pub trait Place: Drop {
    ghost facts: { Self → PlaceFacts };

    /// How many whole pages the table's file has.
    fn pages(&self) -> u64
        ensures { result ≡ length (facts self.now).seen.table };

    /// How many bytes stand after the last of them.
    fn rest(&self) -> u32
        ensures { result ≡ (facts self.now).seen.rest };

    /// The journal beside the table, if one is there. Damaged comes where a file of its name spells none, Memory where memory was
    /// refused, Device where the place failed in this call. Nothing changes but, at Device, the count of failures.
    fn journal(&mut self, alloc: Global) -> Result<Option<Journal>, JournalFault>
        ensures seen { IfOk result (λ found. IsHonest (facts self.old)
            → (facts self.old).seen.journal ≡ option_map told found) }
        ensures journal { IfOk result (λ found. IfSome found (λ j. IsJournal (told j))) }
        ensures damaged { IsErrOf result JournalFault.Damaged → IsHonest (facts self.old)
            → (other : spec) × ((facts self.old).seen.journal ≡ Some other) × (other.count ≡ 0) }
        ensures effect { Looks (facts self.old) (facts self.new) result };

    /// Reads the page of this number, which there is, into the one that is lent. Nothing changes. After a failure the page that is
    /// lent may hold any bytes.
    fn read_page(&mut self, n: u32, page: &mut Page) -> Result<(), Failed>
        requires there { IsHonest (facts self.old) → n < length (facts self.old).seen.table }
        ensures page { OnOk result (IsHonest (facts self.old)
            → slice_get (facts self.old).seen.table n ≡ Some page.new) }
        ensures seen { Shows (λ i. i) (facts self.old) (facts self.new) }
        ensures effect { Steps Stays (facts self.old) (facts self.new) result };

    /// Reads pages from this number on, all of which there are, into the bytes that are lent: one of them at least, and as many as fit
    /// at most. It tells how many. Nothing changes. After a failure any bytes may stand in those that are lent.
    fn read_run(&mut self, n: u32, bytes: &mut [u8]) -> Result<u32, Failed>
        requires room { 4096 ≤ length bytes.old }
        requires there { IsHonest (facts self.old)
            → n + length bytes.old / 4096 ≤ length (facts self.old).seen.table }
        ensures read { IfOk result (λ count. IsHonest (facts self.old)
            → AreIn bytes.new n count (facts self.old).seen.table) }
        ensures many { IfOk result (λ count. (1 ≤ count) × (count * 4096 ≤ length bytes.old)) }
        ensures seen { Shows (λ i. i) (facts self.old) (facts self.new) }
        ensures effect { Steps Stays (facts self.old) (facts self.new) result }
    {
        let mut page = [0; 4096];
        self.read_page(n, &mut page)?;
        bytes[..4096].copy_from_slice(&page);
        Ok(1)
    }

    /// Puts a page in the place of that of this number, which there is. A crash may leave any bytes there.
    fn write_page(&mut self, n: u32, page: &Page) -> Result<(), Failed>
        requires there { IsHonest (facts self.old) → n < length (facts self.old).seen.table }
        ensures written { OnOk result
            (Shows (with_page n page.now) (facts self.old) (facts self.new)) }
        ensures effect { Steps (TearsPage n) (facts self.old) (facts self.new) result };

    /// Marks the first page, which there is, as that of a table that is being changed: its byte 5 becomes 1. A crash may leave any
    /// byte there, and leaves the others.
    fn mark(&mut self) -> Result<(), Failed>
        requires there { IsHonest (facts self.old) → 1 ≤ length (facts self.old).seen.table }
        ensures written { OnOk result (Shows with_mark (facts self.old) (facts self.new)) }
        ensures effect { Steps TearsMark (facts self.old) (facts self.new) result };

    /// Gives the table's file so many pages and no byte more: cuts it, or adds pages of zeros. A crash may leave any length up to the
    /// longer one, and any bytes in what is added.
    fn resize(&mut self, count: u32) -> Result<(), Failed>
        ensures written { OnOk result (Shows (with_count count) (facts self.old) (facts self.new)) }
        ensures effect { Steps (Resizes count) (facts self.old) (facts self.new) result };

    /// Makes last what was written to the table's file.
    fn sync(&mut self) -> Result<(), Failed>
        ensures done { OnOk result (IsHonest (facts self.old)
            → Lasts SameTable (facts self.old) (facts self.new)) }
        ensures effect { Steps Stays (facts self.old) (facts self.new) result };

    /// Writes a draft of this journal, in the place of one that was left. A crash may leave anything of the draft.
    fn draft<J: Tells>(&mut self, journal: &J) -> Result<(), Failed>
        requires journal { IsJournal (J.told journal.now) }
        ensures written { OnOk result
            (Shows (with_draft (J.told journal.now)) (facts self.old) (facts self.new)) }
        ensures effect { Steps Drafts (facts self.old) (facts self.new) result };

    /// Makes last what was written to the draft.
    fn sync_draft(&mut self) -> Result<(), Failed>
        ensures done { OnOk result (IsHonest (facts self.old)
            → Lasts SameDraft (facts self.old) (facts self.new)) }
        ensures effect { Steps Stays (facts self.old) (facts self.new) result };

    /// Gives the draft, which lasts, the journal's name. A crash leaves it with the name, or as it was.
    fn publish(&mut self) -> Result<(), Failed>
        requires lasts { IsHonest (facts self.old) → DraftLasts (facts self.old) }
        ensures published { OnOk result (IsHonest (facts self.old)
            → IsPublished (facts self.old).seen (facts self.new).seen) }
        ensures effect { Steps Publishes (facts self.old) (facts self.new) result };

    /// Takes the journal away. A crash leaves it there, or leaves none.
    fn remove(&mut self) -> Result<(), Failed>
        ensures written { OnOk result
            (Shows (with_journal None) (facts self.old) (facts self.new)) }
        ensures effect { Steps Removes (facts self.old) (facts self.new) result };

    /// Makes last which file has the journal's name, if one has.
    fn sync_folder(&mut self) -> Result<(), Failed>
        ensures done { OnOk result (IsHonest (facts self.old)
            → Lasts SameJournal (facts self.old) (facts self.new)) }
        ensures effect { Steps Stays (facts self.old) (facts self.new) result };

    ghost clock: { (place : Self) → IsHonest (facts place) → IsClock (facts place) };
}
