// Calls of a store, and what they answer, as data.

use ub_store::{Page, PageStore, StoreFault};

/// A call of a store. A page that is written is full of one byte.
#[derive(Clone, Copy)]
pub(crate) enum Call {
    Pages,
    Extend,
    Read(u32),
    /// Reads into a page that is lent.
    Into(u32),
    Write(u32, u8),
    Sync,
}

/// How many pages there are, the number of the page that was added, the byte that the page is full of, or 0.
pub(crate) type Answer = Result<u32, StoreFault>;

/// The byte that a page is full of; 256 where it has two.
pub(crate) fn byte_of(page: &Page) -> u32 {
    let first = page[0];
    for byte in page {
        if *byte != first {
            return 256;
        }
    }
    u32::from(first)
}

/// Whether a store has this page at this number.
pub(crate) fn has_page<S: PageStore>(store: &mut S, n: u32, page: &Page) -> bool {
    match store.read_page(n) {
        Ok(read) => read == *page,
        Err(_) => false,
    }
}

// What a page is read as.
fn read<S: PageStore>(store: &mut S, n: u32) -> Answer {
    match store.read_page(n) {
        Ok(page) => Ok(byte_of(&page)),
        Err(fault) => Err(fault),
    }
}

// What a page is read as into one that is lent.
fn read_into<S: PageStore>(store: &mut S, n: u32) -> Answer {
    let mut page = [0; 4096];
    match store.read_into(n, &mut page) {
        Ok(()) => Ok(byte_of(&page)),
        Err(fault) => Err(fault),
    }
}

// What a call answers.
fn answer<S: PageStore>(store: &mut S, call: Call) -> Answer {
    match call {
        Call::Pages => Ok(store.pages()),
        Call::Extend => store.extend(),
        Call::Read(n) => read(store, n),
        Call::Into(n) => read_into(store, n),
        Call::Write(n, byte) => store.write_page(n, &[byte; 4096]).and(Ok(0)),
        Call::Sync => store.sync().and(Ok(0)),
    }
}

/// Whether each of the calls is answered so.
pub(crate) fn answers<S: PageStore>(store: &mut S, calls: &[(Call, Answer)]) -> bool {
    for (call, wanted) in calls {
        if answer(store, *call) != *wanted {
            return false;
        }
    }
    true
}
