ghost use Rattle.std.specs.Prelude.{◌≡◌, ◌≤◌, ◌⊎◌, IfOk, IfErr, IsErrOf, IsTrue, OnOk, length};
ghost use Rattle.ub_files.specs.Clock.{FolderClock, IsFolderClock, IsSameFolder, Lasts, MayBecome, MayHold, Runs};
ghost use Rattle.ub_files.specs.Files.{FilesFacts, IsLent, IsReadAs, IsText, IsTorn, ChangesFile, ClosesText, KeepsFile, MakesFile, OpensFile, ReadsFile};

use crate::fault::OpenFault;
use std::io::Read;
use ub_store::{PageStore, Pages, StoreFault};

/// Where the files that a command names are: texts are read whole, or piece after piece through a reader that is lent, and of table
/// files stores are lent.
///
/// What a path holds, what a crash leaves it to hold, whether files are honest and can fail, how often a call failed and which paths were
/// read is for contracts alone. One clock runs for all paths: it tells of each earlier moment what a crash from then on might have left to be
/// found, during a call or between two; that is said of honest files, and of each path but standard input. Files may tell nothing of a path, nor of readings. The path `-` is standard input, where it is read.
///
/// A store that is lent holds what is written to it in memory: no call of it changes a file. What it holds is put into the file by
/// `keep`, whole or not at all: a run that is stopped in the middle of that leaves a file that is found to hold what it held, or the
/// store's pages.
pub trait Files {
    type Store: PageStore;

    type Text: Read + Drop;

    ghost facts: { Self → FilesFacts };

    ghost clock: { Self → FolderClock };

    ghost law: { (files : Self) → IsTrue (facts files).honest
        → IsFolderClock (facts files) (clock files) };

    /// The bytes of a file. Device comes where it can't be opened or read, Memory where memory was refused. What files hold stays
    /// as it was, but that standard input is used up: after it was read it has no bytes, and after a refusal any of them may be
    /// gone. Each call is one reading of the path, whatever comes of it.
    fn read(&mut self, path: &str) -> Result<Vec<u8>, StoreFault>
        ensures text { IfOk result (λ text. IsText ((facts self.old).holds path.now) text.items) }
        ensures faults { IfErr result (λ fault.
            (fault ≡ StoreFault.Device) ⊎ (fault ≡ StoreFault.Memory)) }
        ensures effect { ReadsFile path.now (facts self.old) (facts self.new) result }
        ensures crash { Runs IsSameFolder (facts self.old) (clock self.old) (clock self.new) };

    /// A reader of the bytes of a file, from the first one on. The faults are those of `read`, and so is what is left of standard input:
    /// each call is one reading of the path.
    fn open_text(&mut self, path: &str) -> Result<Self::Text, StoreFault>
        ensures text { IfOk result (λ text.
            IsReadAs ((facts self.old).holds path.now) (Self.Text.remaining text)) }
        ensures faults { IfErr result (λ fault.
            (fault ≡ StoreFault.Device) ⊎ (fault ≡ StoreFault.Memory)) }
        ensures effect { ReadsFile path.now (facts self.old) (facts self.new) result }
        ensures crash { Runs IsSameFolder (facts self.old) (clock self.old) (clock self.new) };

    /// Takes back the reader of this path, and tells whether a read of it has failed: Device where the file couldn't be read to the end,
    /// Memory where memory was refused.
    fn close_text(&mut self, path: &str, text: Self::Text) -> Result<(), StoreFault>
        ensures faults { IfErr result (λ fault.
            (fault ≡ StoreFault.Device) ⊎ (fault ≡ StoreFault.Memory)) }
        ensures effect { ClosesText (facts self.old) (facts self.new) result }
        ensures crash { Runs IsSameFolder (facts self.old) (clock self.old) (clock self.new) };

    /// A store of the pages of a table file, of which no call has failed yet, to ask it. The file isn't changed. Device comes where it
    /// can't be opened or read, BadSize where it is no whole number of pages or has more of them than a store, Memory where
    /// memory was refused.
    fn open(&mut self, path: &str) -> Result<Self::Store, StoreFault>
        ensures lent { IfOk result (λ store.
            IsLent (facts self.old) path.now (Self.Store.facts store)) }
        ensures torn { IsErrOf result StoreFault.BadSize
            → IsTorn ((facts self.old).holds path.now) }
        ensures faults { IfErr result (λ fault. (fault ≡ StoreFault.Device)
            ⊎ ((fault ≡ StoreFault.BadSize) ⊎ (fault ≡ StoreFault.Memory))) }
        ensures effect { OpensFile (facts self.old) (facts self.new) result }
        ensures crash { Runs IsSameFolder (facts self.old) (clock self.old) (clock self.new) };

    /// The same, to change it and then to keep it: a journal that a stopped run has left beside the file is finished first, which
    /// changes nothing of what the file is found to hold. BadJournal comes where a journal stands there that is damaged, or
    /// another table's; the other faults are those of `open`, Device also where the journal couldn't be finished.
    fn change(&mut self, path: &str) -> Result<Self::Store, OpenFault>
        ensures lent { IfOk result (λ store.
            IsLent (facts self.old) path.now (Self.Store.facts store)) }
        ensures torn { IsErrOf result (OpenFault.Store StoreFault.BadSize)
            → IsTorn ((facts self.old).holds path.now) }
        ensures faults { IfErr result (λ fault. (fault ≡ OpenFault.BadJournal)
            ⊎ ((fault ≡ OpenFault.Store StoreFault.Device)
            ⊎ ((fault ≡ OpenFault.Store StoreFault.BadSize)
            ⊎ (fault ≡ OpenFault.Store StoreFault.Memory)))) }
        ensures effect { ChangesFile path.now (facts self.old) (facts self.new) result }
        ensures crash { Runs IsSameFolder (facts self.old) (clock self.old) (clock self.new) };

    /// Puts the pages of a store into the table file of this path, from which it was lent to be changed: all of them, or none. Device comes
    /// where that failed in this call, or memory was refused for it; nothing is tried again.
    fn keep(&mut self, path: &str, store: Self::Store) -> Result<(), StoreFault>
        ensures faults { IfErr result (λ fault. fault ≡ StoreFault.Device) }
        ensures effect { KeepsFile path.now (Self.Store.facts store).pages
            (facts self.old) (facts self.new) result }
        ensures crash { Runs (MayHold path.now (Self.Store.facts store).pages)
            (facts self.old) (clock self.old) (clock self.new) }
        ensures lasts { OnOk result (Lasts path.now (Self.Store.facts store).pages
            (facts self.old) (clock self.new)) };

    /// Makes a table file of these pages, of which there is one at least, in the place of what is there. Device comes where that failed
    /// in this call, Memory where memory was refused for a journal that a stopped run has left, and then nothing was done;
    /// BadJournal as of `change`, and where a journal stands beside a file with no page.
    fn make<P: Pages>(&mut self, path: &str, pages: &P) -> Result<(), OpenFault>
        requires some { 1 ≤ length (P.pages pages.now) }
        ensures faults { IfErr result (λ fault. (fault ≡ OpenFault.BadJournal)
            ⊎ ((fault ≡ OpenFault.Store StoreFault.Device)
            ⊎ (fault ≡ OpenFault.Store StoreFault.Memory))) }
        ensures effect { MakesFile path.now (P.pages pages.now)
            (facts self.old) (facts self.new) result }
        ensures crash { Runs (MayBecome path.now (P.pages pages.now) (facts self.old))
            (facts self.old) (clock self.old) (clock self.new) }
        ensures lasts { OnOk result (Lasts path.now (P.pages pages.now)
            (facts self.old) (clock self.new)) };

    /// Takes back a store that isn't kept: what was written to it is gone, and no file is changed.
    fn put_back(&mut self, path: &str, store: Self::Store)
        ensures kept { facts self.new ≡ facts self.old }
        ensures crash { Runs IsSameFolder (facts self.old) (clock self.old) (clock self.new) };
}
