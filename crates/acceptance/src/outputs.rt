// A write that fails isn't tried again, of whatever kind its error is, and however long the text is.
ghost use Rattle.std.specs.Prelude.{◌≡◌};
ghost use Rattle.ub_store.specs.Facts.{page_count};

use crate::worked::{SCRIPT, TEXTS, table};
use std::alloc::{AllocError, Global};
use std::io::{self, Write};
use ub_script::{Over, RunFault, Summary, put_all, run};
use ub_store::{MemStore, PageStore};
use ub_tree::Tree;

/// Takes so many bytes, then says once that it was interrupted, and would take all that comes after that.
#[derive(Drop)]
struct Interrupted {
    room: usize,
    taken: usize,
    calls: u64,
    is_over: bool,
}

impl Interrupted {
    fn new(room: usize) -> Interrupted {
        Interrupted {
            room,
            taken: 0,
            calls: 0,
            is_over: false,
        }
    }
}

impl Write for Interrupted {
    fn write(&mut self, bytes: &[u8]) -> io::Result<usize> {
        self.calls = self.calls.saturating_add(1);
        if self.is_over {
            return Ok(bytes.len());
        }
        let count = self.room.saturating_sub(self.taken).min(bytes.len());
        if count == 0 {
            self.is_over = true;
            return Err(io::Error::from(io::ErrorKind::Interrupted));
        }
        self.taken = self.taken.saturating_add(count);
        Ok(count)
    }

    fn flush(&mut self) -> io::Result<()> {
        Ok(())
    }
}

// A text of so many bytes.
fn text(alloc: Global, length: usize) -> Vec<u8> {
    let mut bytes = Vec::new(alloc);
    for _ in 0..length {
        if bytes.push(b'x').is_err() {
            break;
        }
    }
    bytes
}

// How long texts are, for how many bytes there is room, how often the writer is called, and whether all of the text is written.
static TEXTS_IN_ROOM: [(usize, usize, u64, bool); 4] = [
    (1, 0, 1, false),
    (100_000, 0, 1, false),
    (100_000, 70_000, 2, false),
    (100_000, 100_000, 1, true),
];

// Whether such a text is written so, and else broken off.
fn is_written(alloc: Global, length: usize, room: usize, calls: u64, is_whole: bool) -> bool {
    let mut out = Over::new(Interrupted::new(room));
    let ended = put_all(&mut out, text(alloc, length).as_slice());
    let writer = out.into_inner();
    ended.is_ok() == is_whole && writer.taken == room && writer.calls == calls
}

#[test]
fn is_not_tried_again(rt: HostRuntime) {
    for (length, room, calls, is_whole) in &TEXTS_IN_ROOM {
        let is_so = is_written(rt.alloc(), *length, *room, *calls, *is_whole);
        assert!(rt; is_so, "{length} {room}");
    }
}

/// How a writer refuses a call.
#[derive(Clone, Copy)]
enum Refusal {
    Fails,
    TakesNone,
    Interrupts,
}

/// Takes one byte a call, refuses the call that is due, and would take more after it.
#[derive(Drop)]
struct Bytewise {
    taken: Vec<u8>,
    calls: usize,
    due: usize,
    how: Refusal,
}

impl Write for Bytewise {
    fn write(&mut self, bytes: &[u8]) -> io::Result<usize> {
        self.calls = self.calls.saturating_add(1);
        if self.calls == self.due {
            return match self.how {
                Refusal::Fails => Err(io::Error::from(io::ErrorKind::StorageFull)),
                Refusal::TakesNone => Ok(0),
                Refusal::Interrupts => Err(io::Error::from(io::ErrorKind::Interrupted)),
            };
        }
        let Some(first) = bytes.first() else {
            return Ok(0);
        };
        self.taken.push(*first)?;
        Ok(1)
    }

    fn flush(&mut self) -> io::Result<()> {
        Ok(())
    }
}

// The text of the worked script.
fn whole(alloc: Global) -> Result<Vec<u8>, AllocError> {
    let mut text = Vec::new(alloc);
    for part in &TEXTS {
        text.extend_from_slice(part.as_bytes())?;
    }
    Ok(text)
}

// Whether a run of the worked script, over a writer whose call that is due is refused, is cut off there and makes no call more;
// where as many calls are made as the text has bytes, it is done.
fn is_cut_off<S: PageStore>(
    alloc: Global,
    tree: &mut Tree<S>,
    text: &[u8],
    due: usize,
    how: Refusal,
) -> bool {
    let mut out = Over::new(Bytewise {
        taken: Vec::new(alloc),
        calls: 0,
        due,
        how,
    });
    let ended = run(alloc, tree, SCRIPT, &mut out);
    let calls = due.min(text.len());
    let (wanted, count) = if due > text.len() {
        let summary = Summary {
            statements: 7,
            refused: 1,
        };
        (Ok(summary), calls)
    } else {
        (Err(RunFault::Write), calls.saturating_sub(1))
    };
    let writer = out.into_inner();
    ended == wanted && writer.calls == calls && writer.taken.as_slice() == &text[..count]
}

// Whether each call in turn, from the first one to the one after all of them, is refused so.
fn is_cut_off_each<S: PageStore>(
    alloc: Global,
    tree: &mut Tree<S>,
    text: &[u8],
    how: Refusal,
) -> bool {
    let mut right = true;
    for due in 1..=text.len() + 1 {
        right &= is_cut_off(alloc, tree, text, due, how);
    }
    right
}

// The same over the worked table, which is made in a store that has no pages.
fn is_cut_off_over<S: PageStore>(alloc: Global, store: S, text: &[u8], how: Refusal) -> bool
    requires { page_count (S.facts store) ≡ 0 }
{
    match table(alloc, store) {
        Ok(mut tree) => is_cut_off_each(alloc, &mut tree, text, how),
        Err(_) => false,
    }
}

// The same of the whole text, in memory.
fn is_cut_off_everywhere(alloc: Global, how: Refusal) -> bool {
    match whole(alloc) {
        Ok(text) => is_cut_off_over(alloc, MemStore::new(alloc), text.as_slice(), how),
        Err(_) => false,
    }
}

static REFUSALS: [Refusal; 3] = [Refusal::Fails, Refusal::TakesNone, Refusal::Interrupts];

#[test]
fn is_cut_off_at_each_byte(rt: HostRuntime) {
    for how in &REFUSALS {
        assert!(rt; is_cut_off_everywhere(rt.alloc(), *how));
    }
}
