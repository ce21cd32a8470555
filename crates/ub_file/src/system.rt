ghost use Rattle.std.specs.Prelude.{◌≡◌, IsTrue};
ghost use Rattle.std.specs.Fs.{metadata_len};
ghost use Rattle.ub_file.specs.Host.{opened_by, system_facts, AsksInPlace};
ghost use Rattle.ub_file.specs.Raw.{IsUntouched};

use crate::raw::RawFile;
use std::fs::{Metadata, OpenFile, OpenOptions};
use std::io;
use std::os::unix::fs::FileExt;

/// How a file came to be open.
#[derive(Clone, Copy)]
pub enum Opened {
    /// It was there.
    Found,
    /// It was made where it wasn't there.
    Made,
}

// What may be done with a file that is open.
#[derive(Clone, Copy)]
pub(crate) enum Access {
    ReadAndWrite,
    Read,
}

/// A file of the system. That it gives back what was written to it, that its length is what the system told when it was opened and what
/// was set since, and that what was synced lasts is a premise: nothing is proved of it but that its calls are those of the
/// standard library.
#[derive(Drop)]
pub struct SystemFile<F> {
    file: F,
}

#[tactic(auto, unfolding(crate::specs::Host::system_facts))]
impl<F: FileExt + OpenFile + Drop> RawFile for SystemFile<F> {
    ghost facts = { λ f. system_facts f.file };

    fn read_exact_at(&mut self, bytes: &mut [u8], place: u64) -> io::Result<()> {
        self.file.read_exact_at(bytes, place)
    }

    fn write_all_at(&mut self, bytes: &[u8], place: u64) -> io::Result<()> {
        self.file.write_all_at(bytes, place)
    }

    fn set_len(&mut self, length: u64) -> io::Result<()> {
        self.file.set_len(length)
    }

    fn sync_all(&mut self) -> io::Result<()> {
        self.file.sync_all()
    }
}

// A file that was opened, of which the system told this: no call has changed it yet, and its length is what was told.
#[tactic(auto, unfolding(crate::specs::Host::system_facts))]
pub(crate) fn system_file<F: FileExt + OpenFile + Drop>(file: F, told: &Metadata) -> SystemFile<F>
    ensures { IsTrue (⟦<SystemFile<F> as RawFile>⟧.facts result).honest
        → IsUntouched (⟦<SystemFile<F> as RawFile>⟧.facts result) (metadata_len told.now) }
{
    let _ = told;
    SystemFile { file }
}

// The way to open a file so, with its bytes left where they are.
pub(crate) fn way(opened: Opened, access: Access) -> OpenOptions
    ensures opened { opened_by result ≡ opened }
    ensures kept { AsksInPlace result }
{
    let mut how = OpenOptions::new();
    how.read(true);
    how.write(matches!(access, Access::ReadAndWrite));
    how.create(matches!(opened, Opened::Made));
    how
}

// How a file that is opened in this way comes to be open.
pub(crate) fn opened_by(how: &OpenOptions) -> Opened
    ensures { result ≡ opened_by how.now }
{
    if how.asks_create() || how.asks_create_new() {
        Opened::Made
    } else {
        Opened::Found
    }
}
