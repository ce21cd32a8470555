// The store on a medium in memory and on a file of the system, by hand values.

ghost use Rattle.std.specs.Prelude.{◌≡◌, ◌<◌, IfOk};
ghost use Rattle.ub_store.specs.Facts.{IsHonest};

use crate::calls::{Answer, Call, Made, is_such, made_answers};
use crate::samples::{Case, all_hold};
use std::alloc::{Alloc, Global};
use std::os::unix::fs::FileExt;
use std::process::Abort;
use std::rt::Files;
use std::{fs, io, process};
use ub_file::host::{Refusal, create_store, open_store};
use ub_file::{FileStore, HostFile, Medium, MemMedium, Opened, RawFile};
use ub_store::{Page, PageStore, StoreFault};

// A file whose bytes can't be had: it refuses each call.
#[derive(Drop)]
struct Refusing;

// What it answers.
fn refused() -> io::Result<()> {
    Err(io::Error::from(io::ErrorKind::Unsupported))
}

impl RawFile for Refusing {
    ghost use Rattle.std.specs.Prelude.{[], false};

    ghost facts = { λ _. record {
      honest = false;
      bytes = [];
      synced = [];
      changes = 0;
      failed_reads = 0;
      failed_writes = 0;
    } };

    fn read_exact_at(&mut self, _: &mut [u8], _: u64) -> io::Result<()> {
        refused()
    }

    fn write_all_at(&mut self, _: &[u8], _: u64) -> io::Result<()> {
        refused()
    }

    fn set_len(&mut self, _: u64) -> io::Result<()> {
        refused()
    }

    fn sync_all(&mut self) -> io::Result<()> {
        refused()
    }
}

// A length in bytes, and whether a medium of it is a store.
struct Length(u64, bool);

static LENGTHS: &[Length] = &[
    Length(0, true),
    Length(4096, true),
    Length(8192, true),
    Length(17592186040320, true),
    Length(1, false),
    Length(100, false),
    Length(2048, false),
    Length(4095, false),
    Length(4097, false),
    Length(17592186040321, false),
    Length(17592186044416, false),
];

impl Case<()> for Length {
    fn holds(&self, _: &()) -> bool {
        let file = HostFile::new(Refusing, self.0, Opened::Found);
        FileStore::open(file).is_ok() == self.1
    }
}

// What a store begins with.
#[derive(Clone, Copy)]
enum Start {
    // So many pages of zeros.
    Zeros(u16),
    // So many pages of zeros, and bytes after them that are no page.
    Part(u16, u16),
    // It is created on a medium of two pages of sevens and 100 bytes.
    Created,
}

// The medium that fails at its k-th call.
fn medium_of(alloc: Global, start: Start, k: u64) -> Result<MemMedium, StoreFault> {
    let (count, byte, rest) = match start {
        Start::Zeros(count) => (count, 0, 0),
        Start::Part(count, rest) => (count, 0, rest),
        Start::Created => (2, 7, 100),
    };
    match vec![in alloc; [byte; 4096]; usize::from(count)] {
        Ok(pages) => Ok(MemMedium::new(pages, rest % 4096, k)),
        Err(_) => Err(StoreFault::Memory),
    }
}

// The store on a medium, which is created or opened.
fn store_on<M: Medium>(medium: M, is_created: bool) -> Result<FileStore<M>, StoreFault> {
    let made = if is_created {
        FileStore::create(medium)
    } else {
        FileStore::open(medium)
    };
    match made {
        Ok(store) => Ok(store),
        Err(refused) => Err(refused.fault),
    }
}

// Whether a store is such a one, and this is left of its medium: another store that answers calls so, or why it is none.
fn leaves<M: Medium>(store: FileStore<M>, calls: Made, left: Made) -> bool {
    let mut store = store;
    is_such(&mut store, calls) & made_answers(store_on(store.into_medium(), false), left)
}

// Whether a store that is made is such a one, or there is none for this fault.
fn is_played<M: Medium>(made: Result<FileStore<M>, StoreFault>, calls: Made, left: Made) -> bool {
    match made {
        Ok(store) => leaves(store, calls, left),
        Err(fault) => calls.err() == Some(fault),
    }
}

// What a store answers that is created.
const CREATED: &[(Call, Answer)] = &[
    (Call::Pages, Ok(0)),
    (Call::Extend, Ok(0)),
    (Call::Read(0), Ok(0)),
];

// What a store begins with, the call of its medium that fails, the calls of the store with their
// answers, or why there is none, and what is left then.
struct Script(Start, u64, Made, Made);

impl Case<Global> for Script {
    fn holds(&self, alloc: &Global) -> bool {
        match medium_of(*alloc, self.0, self.1) {
            Ok(medium) => {
                let is_created = matches!(self.0, Start::Created);
                is_played(store_on(medium, is_created), self.2, self.3)
            }
            Err(_) => false,
        }
    }
}

static SCRIPTS: &[Script] = &[
    // a page that is written and read stands on the medium that is given back
    Script(
        Start::Zeros(2),
        0,
        Ok(&[(Call::Write(1, 7), Ok(0)), (Call::Read(1), Ok(7))]),
        Ok(&[(Call::Pages, Ok(2)), (Call::Read(1), Ok(7))]),
    ),
    // no pages
    Script(
        Start::Zeros(0),
        0,
        Ok(&[
            (Call::Pages, Ok(0)),
            (Call::Read(0), Err(StoreFault::NoPage)),
            (Call::Write(0, 7), Err(StoreFault::NoPage)),
        ]),
        Ok(&[(Call::Pages, Ok(0))]),
    ),
    // three pages
    Script(
        Start::Zeros(3),
        0,
        Ok(&[
            (Call::Write(1, 7), Ok(0)),
            (Call::Write(2, 8), Ok(0)),
            (Call::Read(0), Ok(0)),
            (Call::Read(1), Ok(7)),
            (Call::Read(2), Ok(8)),
            (Call::Read(3), Err(StoreFault::NoPage)),
            (Call::Write(3, 9), Err(StoreFault::NoPage)),
            (Call::Pages, Ok(3)),
        ]),
        Ok(&[(Call::Pages, Ok(3)), (Call::Read(1), Ok(7))]),
    ),
    // two pages that grow
    Script(
        Start::Zeros(2),
        0,
        Ok(&[
            (Call::Extend, Ok(2)),
            (Call::Pages, Ok(3)),
            (Call::Read(2), Ok(0)),
            (Call::Sync, Ok(0)),
        ]),
        Ok(&[(Call::Pages, Ok(3))]),
    ),
    // no call fails
    Script(
        Start::Zeros(1),
        0,
        Ok(&[
            (Call::Read(0), Ok(0)),
            (Call::Write(0, 7), Ok(0)),
            (Call::Extend, Ok(1)),
            (Call::Sync, Ok(0)),
        ]),
        Ok(&[(Call::Pages, Ok(2)), (Call::Read(0), Ok(7))]),
    ),
    // the read fails
    Script(
        Start::Zeros(1),
        1,
        Ok(&[
            (Call::Read(0), Err(StoreFault::Device)),
            (Call::Write(0, 7), Ok(0)),
            (Call::Extend, Ok(1)),
            (Call::Sync, Ok(0)),
        ]),
        Ok(&[(Call::Pages, Ok(2)), (Call::Read(0), Ok(7))]),
    ),
    // the write fails
    Script(
        Start::Zeros(1),
        2,
        Ok(&[
            (Call::Read(0), Ok(0)),
            (Call::Write(0, 7), Err(StoreFault::Device)),
            (Call::Extend, Ok(1)),
            (Call::Sync, Ok(0)),
        ]),
        Ok(&[(Call::Pages, Ok(2)), (Call::Read(0), Ok(0))]),
    ),
    // the growth fails
    Script(
        Start::Zeros(1),
        3,
        Ok(&[
            (Call::Read(0), Ok(0)),
            (Call::Write(0, 7), Ok(0)),
            (Call::Extend, Err(StoreFault::Device)),
            (Call::Sync, Ok(0)),
        ]),
        Err(StoreFault::BadSize),
    ),
    // the sync fails
    Script(
        Start::Zeros(1),
        4,
        Ok(&[
            (Call::Read(0), Ok(0)),
            (Call::Write(0, 7), Ok(0)),
            (Call::Extend, Ok(1)),
            (Call::Sync, Err(StoreFault::Device)),
        ]),
        Ok(&[(Call::Pages, Ok(2)), (Call::Read(0), Ok(7))]),
    ),
    // A failed growth of this medium leaves half a page, which is no page; the next one is put in
    // its place.
    // growth after a failed one
    Script(
        Start::Zeros(1),
        1,
        Ok(&[
            (Call::Extend, Err(StoreFault::Device)),
            (Call::Pages, Ok(1)),
            (Call::Read(1), Err(StoreFault::NoPage)),
            (Call::Extend, Ok(1)),
            (Call::Pages, Ok(2)),
            (Call::Read(1), Ok(0)),
        ]),
        Ok(&[(Call::Pages, Ok(2))]),
    ),
    // half a page is left
    Script(
        Start::Zeros(1),
        1,
        Ok(&[(Call::Extend, Err(StoreFault::Device))]),
        Err(StoreFault::BadSize),
    ),
    // a byte and no page
    Script(
        Start::Part(0, 1),
        0,
        Err(StoreFault::BadSize),
        Err(StoreFault::BadSize),
    ),
    // 100 bytes and no page
    Script(
        Start::Part(0, 100),
        0,
        Err(StoreFault::BadSize),
        Err(StoreFault::BadSize),
    ),
    // a page and a byte
    Script(
        Start::Part(1, 1),
        0,
        Err(StoreFault::BadSize),
        Err(StoreFault::BadSize),
    ),
    // a page and 2048 bytes
    Script(
        Start::Part(1, 2048),
        0,
        Err(StoreFault::BadSize),
        Err(StoreFault::BadSize),
    ),
    // created with no pages
    Script(
        Start::Created,
        0,
        Ok(CREATED),
        Ok(&[(Call::Pages, Ok(1)), (Call::Read(0), Ok(0))]),
    ),
    // creation fails
    Script(
        Start::Created,
        1,
        Err(StoreFault::Device),
        Err(StoreFault::Device),
    ),
];

// What is written is what is read, over any honest medium.
fn write_and_read<M: Medium>(
    store: &mut FileStore<M>,
    n: u32,
    page: &Page,
) -> Result<Page, StoreFault>
    requires { IsHonest (M.facts store.old) }
    ensures { IfOk result (λ read. read ≡ page.now) }
{
    store.write_page(n, page)?;
    store.read_page(n)
}

// A medium in memory is one.
fn write_and_read_in_memory(
    store: &mut FileStore<MemMedium>,
    n: u32,
    page: &Page,
) -> Result<Page, StoreFault>
    ensures { IfOk result (λ read. read ≡ page.now) }
{
    write_and_read(store, n, page)
}

// Whole pages alone are taken, calls are answered, and the medium is given back.
#[test]
fn stores_over_media(rt: HostRuntime) {
    all_hold(&rt, "lengths", &(), LENGTHS);
    all_hold(&rt, "media", &rt.alloc(), SCRIPTS);
}

// Calls of a store that is made in a file, and of the same once it is opened again.
const MADE: &[(Call, Answer)] = &[
    (Call::Pages, Ok(0)),
    (Call::Extend, Ok(0)),
    (Call::Extend, Ok(1)),
    (Call::Write(1, 65), Ok(0)),
    (Call::Read(0), Ok(0)),
    (Call::Read(1), Ok(65)),
    (Call::Read(2), Err(StoreFault::NoPage)),
    (Call::Sync, Ok(0)),
];

const OPENED: &[(Call, Answer)] = &[
    (Call::Pages, Ok(2)),
    (Call::Read(0), Ok(0)),
    (Call::Read(1), Ok(65)),
];

// A path in a folder that isn't there.
const NOWHERE: &str = "/tmp/hablozen-no-folder/t.ub";

// Calls of a store of two pages whose file is cut to 5000 bytes while it is open: no part of a page
// is given.
const CUT: &[(Call, Answer)] = &[
    (Call::Read(0), Ok(65)),
    (Call::Read(1), Err(StoreFault::Device)),
    (Call::Read(1), Err(StoreFault::Device)),
];

// Bytes of files.
const BYTES: &[u8; 8192] = &[65; 8192];

// How a store comes to a file.
#[derive(Clone, Copy)]
enum Opening {
    Open,
    Make,
    // It is opened, and then the file is cut to so many bytes 65.
    Cut(usize),
}

// What is done with the file of a test, or asked of it.
enum Deed {
    // These bytes are written.
    Write(&'static [u8]),
    // So many bytes 65 are written, of two pages at most.
    Fill(usize),
    // A store is opened or made so in the file, or at another path, and becomes this.
    Store(Opening, Option<&'static str>, Made),
    // Whether the file is read as a page of zeros and one of the byte 65; otherwise there is none.
    Read(bool),
    Remove,
}

// What is done with one file. No store is opened where there is no file, and opening makes none; none
// is opened or made where there is no folder for it, or a folder. There is none in a file that is no
// whole number of pages; and an empty one has no page. A store that is made keeps its pages, and
// opening the file again leaves all of its bytes. A short read is taken for a failure.
static DEEDS: &[Deed] = &[
    Deed::Store(Opening::Open, None, Err(StoreFault::Device)),
    Deed::Read(false),
    Deed::Store(Opening::Open, Some(NOWHERE), Err(StoreFault::Device)),
    Deed::Store(Opening::Make, Some(NOWHERE), Err(StoreFault::Device)),
    Deed::Store(Opening::Open, Some("/tmp"), Err(StoreFault::Device)),
    Deed::Store(Opening::Make, Some("/tmp"), Err(StoreFault::Device)),
    Deed::Write(&[65]),
    Deed::Store(Opening::Open, None, Err(StoreFault::BadSize)),
    Deed::Fill(4097),
    Deed::Store(Opening::Open, None, Err(StoreFault::BadSize)),
    Deed::Write(b""),
    Deed::Store(
        Opening::Open,
        None,
        Ok(&[(Call::Read(0), Err(StoreFault::NoPage))]),
    ),
    Deed::Write(b"nothing that is kept"),
    Deed::Store(Opening::Make, None, Ok(MADE)),
    Deed::Store(Opening::Open, None, Ok(OPENED)),
    Deed::Read(true),
    Deed::Fill(8192),
    Deed::Store(Opening::Cut(5000), None, Ok(CUT)),
    Deed::Remove,
];

// Whether so many bytes 65 are written as a file.
fn is_filled(rt: &impl Files, path: &str, count: usize) -> bool {
    fs::write(rt, path, &BYTES[..count.min(8192)]).is_ok()
}

// Whether a store that comes to the file is one, or refused, as is wanted.
fn are_made<S: PageStore>(made: Result<S, Refusal>, wanted: Made) -> bool {
    match made {
        Ok(mut store) => is_such(&mut store, wanted),
        Err(refusal) => wanted.err() == Some(refusal.fault),
    }
}

// Whether a store that comes to the file so becomes this.
fn is_opened<R: Files>(rt: &R, path: &str, opening: Opening, wanted: Made) -> bool
where
    R::File: FileExt,
{
    let store = match opening {
        Opening::Make => create_store(rt, path),
        _ => open_store(rt, path),
    };
    let is_cut = match opening {
        Opening::Cut(count) => is_filled(rt, path, count),
        _ => true,
    };
    is_cut & are_made(store, wanted)
}

// Whether these are a page of zeros and one of the byte 65.
fn are_two_pages(bytes: &[u8]) -> bool {
    bytes.len() == 8192 && bytes[4095] == 0 && bytes[4096] == 65
}

// Whether a file holds them, or there is none.
fn is_read<R: Files + Alloc>(rt: &R, path: &str, is_there: bool) -> bool {
    match fs::read(rt, path) {
        Ok(bytes) => is_there & are_two_pages(bytes.as_slice()),
        Err(_) => !is_there,
    }
}

// Whether this is done, and is so.
fn is_done<R: Files + Alloc>(rt: &R, path: &str, deed: &Deed) -> bool
where
    R::File: FileExt,
{
    match deed {
        Deed::Write(bytes) => fs::write(rt, path, *bytes).is_ok(),
        Deed::Fill(count) => is_filled(rt, path, *count),
        Deed::Store(opening, other, wanted) => {
            is_opened(rt, (*other).unwrap_or(path), *opening, *wanted)
        }
        Deed::Read(is_there) => is_read(rt, path, *is_there),
        Deed::Remove => fs::remove_file(rt, path).is_ok(),
    }
}

// Asserts that all of it is done with the file of this path, and is so.
fn all_is_done<R: Files + Alloc + Abort>(rt: &R, path: &str)
where
    R::File: FileExt,
{
    for (i, deed) in DEEDS.iter().enumerate() {
        assert!(rt; is_done(rt, path, deed), "deed {i}");
    }
}

// The path is one that no other run of these tests takes, and nothing stands there at first.
#[test]
fn stores_in_files(rt: HostRuntime) {
    let id = process::id(rt.process());
    let path = format!(in rt.alloc(); "/tmp/hablozen-{id}.ub").expect(&rt, "memory");
    all_is_done(&rt, path.as_str());
}
