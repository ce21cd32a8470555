// The medium on a file that fails when it is told to, by hand values: which bytes are written, read, cut
// and made to last, and what a refused call leaves.

ghost use Rattle.std.specs.Prelude.{◌≡◌, ◌≤◌, ◌+◌, length, IfOk, IsErr, IsTrue, false};
ghost use Rattle.acceptance_page.specs.Fake.{IsBetween};
ghost use Rattle.ub_file.specs.Raw.{put_at, with_length, IsUntouched};
ghost use Rattle.ub_store.specs.Facts.{raised};

use crate::calls::{Answer, Call, answers};
use crate::samples::{Case, all_hold};
use std::alloc::Global;
use std::io;
use ub_file::{FileStore, HostFile, Opened, RawFile};
use ub_store::StoreFault;

// The calls of a file.
#[derive(Clone, Copy, PartialEq)]
enum Kind {
    Read,
    Write,
    Length,
    Sync,
}

// A file in memory. It is honest, and refuses its k-th call of one kind, and a write past its end: a refused write puts
// the first half of its bytes, and a refused length goes half the way.
#[derive(Drop)]
struct FakeFile {
    alloc: Global,
    bytes: Vec<u8>,
    synced: Vec<u8>,
    changes: u64,
    failed_reads: u64,
    failed_writes: u64,
    kind: Kind,
    due: u64,
}

impl FakeFile {
    // So many zeros, which last. It refuses its k-th call of this kind, or none where k is 0.
    fn new(alloc: Global, length: usize, kind: Kind, k: u64) -> Result<FakeFile, StoreFault>
        ensures { IfOk result (λ file. IsUntouched (⟦<FakeFile as RawFile>⟧.facts file) length) }
    {
        let Ok(bytes) = vec![in alloc; 0; length] else {
            return Err(StoreFault::Memory);
        };
        let Ok(synced) = Vec::from_slice(alloc, bytes.as_slice()) else {
            return Err(StoreFault::Memory);
        };
        Ok(FakeFile {
            alloc,
            bytes,
            synced,
            changes: 0,
            failed_reads: 0,
            failed_writes: 0,
            kind,
            due: k,
        })
    }

    // Counts a call of this kind, and tells whether it is the one to refuse.
    fn is_due(&mut self, kind: Kind) -> bool
        ensures { self.new ≡ record self.old { due = self.new.due } }
    {
        if kind != self.kind {
            return false;
        }
        let is_due = self.due == 1;
        self.due = self.due.saturating_sub(1);
        is_due
    }

    // Counts a refused call that isn't a read.
    fn refuse(&mut self) -> io::Result<()>
        ensures counted { self.new ≡ record self.old {
          failed_writes = raised self.old.failed_writes 1;
        } }
        ensures refused { IsErr result }
    {
        self.failed_writes = self.failed_writes.saturating_add(1);
        Err(io::Error::from(io::ErrorKind::StorageFull))
    }

    // Puts bytes in the place of others; none are put where the file ends before.
    fn put(&mut self, bytes: &[u8], place: u64) -> bool
        ensures frame { self.new ≡ record self.old { bytes = self.new.bytes } }
        ensures put { IsTrue result
            → self.new.bytes.items ≡ put_at place bytes.now self.old.bytes.items }
        ensures kept { result ≡ false → self.new.bytes.items ≡ self.old.bytes.items }
    {
        let place = place as usize;
        if place > self.bytes.len() || bytes.len() > self.bytes.len() - place {
            return false;
        }
        copy_at(self.bytes.as_mut_slice(), place, bytes);
        true
    }

    // Goes half the way to a length, or nowhere where memory is refused.
    fn go_half(&mut self, size: usize)
        ensures frame { self.new ≡ record self.old { bytes = self.new.bytes } }
        ensures between { IsBetween size self.old.bytes.items self.new.bytes.items }
    {
        let half = self.bytes.len().midpoint(size);
        let _ = resize(&mut self.bytes, half);
    }
}

// Cuts bytes, or adds zeros, up to this length; nothing changes where memory is refused.
fn resize(bytes: &mut Vec<u8>, length: usize) -> bool
    ensures set { IsTrue result → bytes.new.items ≡ with_length length bytes.old.items }
    ensures kept { result ≡ false → bytes.new.items ≡ bytes.old.items }
{
    bytes.resize(length, 0).is_ok()
}

// Puts bytes in the place of others.
fn copy_at(bytes: &mut [u8], place: usize, new: &[u8])
    requires within { place + length new.now ≤ length bytes.old }
    ensures { bytes.new ≡ put_at place new.now bytes.old }
{
    bytes[place..place + new.len()].copy_from_slice(new);
}

impl RawFile for FakeFile {
    ghost use Rattle.std.specs.Prelude.{true};

    ghost facts = { λ f. record {
      honest = true;
      bytes = f.bytes.items;
      synced = f.synced.items;
      changes = f.changes;
      failed_reads = f.failed_reads;
      failed_writes = f.failed_writes;
    } };

    fn read_exact_at(&mut self, bytes: &mut [u8], place: u64) -> io::Result<()> {
        let place = place as usize;
        let is_due = self.is_due(Kind::Read);
        if is_due || place > self.bytes.len() || bytes.len() > self.bytes.len() - place {
            self.failed_reads = self.failed_reads.saturating_add(1);
            return Err(io::Error::from(io::ErrorKind::UnexpectedEof));
        }
        bytes.copy_from_slice(&self.bytes[place..place + bytes.len()]);
        Ok(())
    }

    fn write_all_at(&mut self, bytes: &[u8], place: u64) -> io::Result<()> {
        self.changes = self.changes.saturating_add(1);
        if self.is_due(Kind::Write) {
            let _ = self.put(&bytes[..bytes.len() / 2], place);
            return self.refuse();
        }
        if self.put(bytes, place) {
            Ok(())
        } else {
            self.refuse()
        }
    }

    fn set_len(&mut self, length: u64) -> io::Result<()> {
        self.changes = self.changes.saturating_add(1);
        let length = length as usize;
        if self.is_due(Kind::Length) {
            self.go_half(length);
            return self.refuse();
        }
        if resize(&mut self.bytes, length) {
            Ok(())
        } else {
            self.refuse()
        }
    }

    fn sync_all(&mut self) -> io::Result<()> {
        if self.is_due(Kind::Sync) {
            return self.refuse();
        }
        match Vec::from_slice(self.alloc, self.bytes.as_slice()) {
            Ok(bytes) => {
                self.synced = bytes;
                Ok(())
            }
            Err(_) => self.refuse(),
        }
    }
}

// What is left of a file: how long it is, bytes at their places, how long what lasts is, bytes there, and how often
// it was changed and a read and another call refused.
struct Left {
    length: usize,
    bytes: &'static [(usize, u8)],
    synced: usize,
    synced_bytes: &'static [(usize, u8)],
    counts: [u64; 3],
}

// Whether these bytes stand at their places, of so many.
fn stands(bytes: &[u8], length: usize, wanted: &[(usize, u8)]) -> bool {
    if bytes.len() != length {
        return false;
    }
    for (place, byte) in wanted {
        if *place >= bytes.len() || bytes[*place] != *byte {
            return false;
        }
    }
    true
}

// Whether this is left of a file.
fn is_left(file: &FakeFile, left: &Left) -> bool {
    stands(file.bytes.as_slice(), left.length, left.bytes)
        & stands(file.synced.as_slice(), left.synced, left.synced_bytes)
        & ([file.changes, file.failed_reads, file.failed_writes] == left.counts)
}

// A file of so many zeros that refuses a call: the k-th of this kind.
struct Start {
    length: usize,
    kind: Kind,
    k: u64,
}

// What a store that is opened leaves of its file once it has answered these calls, and whether it answered them so; or there is none.
fn left_of<R: RawFile>(file: HostFile<R>, calls: &[(Call, Answer)]) -> Option<(R, bool)> {
    match FileStore::open(file) {
        Ok(mut store) => {
            let is_right = answers(&mut store, calls);
            Some((store.into_medium().into_file(), is_right))
        }
        Err(_) => None,
    }
}

// A file of zeros, calls of the store on it with their answers, and what is left of it.
struct Script {
    start: Start,
    calls: &'static [(Call, Answer)],
    left: Left,
}

// Whether a store in a file answers these calls so, and this is left of its file.
fn is_played(file: FakeFile, script: &Script) -> bool
    requires { IsUntouched (⟦<FakeFile as RawFile>⟧.facts file) script.now.start.length }
{
    let file = HostFile::new(file, script.start.length as u64, Opened::Found);
    match left_of(file, script.calls) {
        Some((file, is_right)) => is_right & is_left(&file, &script.left),
        None => false,
    }
}

impl Case<Global> for Script {
    fn holds(&self, alloc: &Global) -> bool {
        let start = &self.start;
        match FakeFile::new(*alloc, start.length, start.kind, start.k) {
            Ok(file) => is_played(file, self),
            Err(_) => false,
        }
    }
}

// Page n is what stands from byte 4096 * n on.
static SCRIPTS: &[Script] = &[
    // no call is refused
    Script {
        start: Start {
            length: 12288,
            kind: Kind::Sync,
            k: 0,
        },
        calls: &[
            (Call::Write(2, 8), Ok(0)),
            (Call::Write(1, 7), Ok(0)),
            (Call::Read(2), Ok(8)),
            (Call::Read(0), Ok(0)),
            (Call::Extend, Ok(3)),
            (Call::Read(3), Ok(0)),
        ],
        left: Left {
            length: 16384,
            bytes: &[
                (0, 0),
                (4095, 0),
                (4096, 7),
                (8191, 7),
                (8192, 8),
                (12287, 8),
                (12288, 0),
                (16383, 0),
            ],
            synced: 12288,
            synced_bytes: &[(4096, 0), (8192, 0)],
            counts: [3, 0, 0],
        },
    },
    // all lasts once it is synced
    Script {
        start: Start {
            length: 8192,
            kind: Kind::Sync,
            k: 0,
        },
        calls: &[
            (Call::Write(1, 7), Ok(0)),
            (Call::Sync, Ok(0)),
            (Call::Write(0, 6), Ok(0)),
        ],
        left: Left {
            length: 8192,
            bytes: &[(0, 6), (4095, 6), (4096, 7)],
            synced: 8192,
            synced_bytes: &[(0, 0), (4095, 0), (4096, 7), (8191, 7)],
            counts: [2, 0, 0],
        },
    },
    // the second read is refused
    Script {
        start: Start {
            length: 8192,
            kind: Kind::Read,
            k: 2,
        },
        calls: &[
            (Call::Read(0), Ok(0)),
            (Call::Read(1), Err(StoreFault::Device)),
            (Call::Read(1), Ok(0)),
            (Call::Read(2), Err(StoreFault::NoPage)),
        ],
        left: Left {
            length: 8192,
            bytes: &[],
            synced: 8192,
            synced_bytes: &[],
            counts: [0, 1, 0],
        },
    },
    // the first write is refused, and leaves half a page
    Script {
        start: Start {
            length: 12288,
            kind: Kind::Write,
            k: 1,
        },
        calls: &[
            (Call::Write(1, 7), Err(StoreFault::Device)),
            (Call::Read(2), Ok(0)),
        ],
        left: Left {
            length: 12288,
            bytes: &[(4095, 0), (4096, 7), (6143, 7), (6144, 0), (8192, 0)],
            synced: 12288,
            synced_bytes: &[(4096, 0)],
            counts: [1, 0, 1],
        },
    },
    // the second write is refused, and the third is not
    Script {
        start: Start {
            length: 8192,
            kind: Kind::Write,
            k: 2,
        },
        calls: &[
            (Call::Write(0, 5), Ok(0)),
            (Call::Write(1, 7), Err(StoreFault::Device)),
            (Call::Write(1, 9), Ok(0)),
            (Call::Read(1), Ok(9)),
        ],
        left: Left {
            length: 8192,
            bytes: &[(0, 5), (4095, 5), (4096, 9), (8191, 9)],
            synced: 8192,
            synced_bytes: &[(0, 0)],
            counts: [3, 0, 1],
        },
    },
    // The file is half a page longer than the store, which sees one page.
    // the first growth is refused
    Script {
        start: Start {
            length: 4096,
            kind: Kind::Length,
            k: 1,
        },
        calls: &[
            (Call::Extend, Err(StoreFault::Device)),
            (Call::Pages, Ok(1)),
            (Call::Read(1), Err(StoreFault::NoPage)),
        ],
        left: Left {
            length: 6144,
            bytes: &[(4096, 0), (6143, 0)],
            synced: 4096,
            synced_bytes: &[],
            counts: [1, 0, 1],
        },
    },
    // growth after a refused one
    Script {
        start: Start {
            length: 4096,
            kind: Kind::Length,
            k: 1,
        },
        calls: &[
            (Call::Extend, Err(StoreFault::Device)),
            (Call::Extend, Ok(1)),
            (Call::Pages, Ok(2)),
            (Call::Read(1), Ok(0)),
        ],
        left: Left {
            length: 8192,
            bytes: &[(4096, 0), (8191, 0)],
            synced: 4096,
            synced_bytes: &[],
            counts: [2, 0, 1],
        },
    },
    // The length is set to that of the one page before it is made to last.
    // sync after a refused growth
    Script {
        start: Start {
            length: 4096,
            kind: Kind::Length,
            k: 1,
        },
        calls: &[
            (Call::Extend, Err(StoreFault::Device)),
            (Call::Sync, Ok(0)),
            (Call::Sync, Ok(0)),
        ],
        left: Left {
            length: 4096,
            bytes: &[],
            synced: 4096,
            synced_bytes: &[],
            counts: [2, 0, 1],
        },
    },
    // the first sync is refused
    Script {
        start: Start {
            length: 4096,
            kind: Kind::Sync,
            k: 1,
        },
        calls: &[
            (Call::Write(0, 7), Ok(0)),
            (Call::Sync, Err(StoreFault::Device)),
        ],
        left: Left {
            length: 4096,
            bytes: &[(0, 7), (4095, 7)],
            synced: 4096,
            synced_bytes: &[(0, 0), (4095, 0)],
            counts: [1, 0, 1],
        },
    },
    // the second sync is not
    Script {
        start: Start {
            length: 4096,
            kind: Kind::Sync,
            k: 1,
        },
        calls: &[
            (Call::Write(0, 7), Ok(0)),
            (Call::Sync, Err(StoreFault::Device)),
            (Call::Sync, Ok(0)),
        ],
        left: Left {
            length: 4096,
            bytes: &[(0, 7)],
            synced: 4096,
            synced_bytes: &[(0, 7), (4095, 7)],
            counts: [1, 0, 1],
        },
    },
];

#[test]
fn calls_the_file_once_at_its_bytes(rt: HostRuntime) {
    all_hold(&rt, "a file", &rt.alloc(), SCRIPTS);
}
