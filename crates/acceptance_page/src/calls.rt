// Calls of a store, and what they answer, as data.
use ub_store::{Page, PageStore, StoreFault};

// A call of a store. A page that is written is full of one byte.
#[derive(Clone, Copy)]
pub(crate) enum Call {
    Pages,
    Extend,
    Read(u32),
    Write(u32, u8),
    Sync,
}

// How many pages there are, the number of the page that was added, the byte that the page is full
// of, or 0.
pub(crate) type Answer = Result<u32, StoreFault>;

// The byte that a page is full of; 256 where it has two.
pub(crate) fn byte_of(page: &Page) -> u32 {
    if *page == [page[0]; 4096] {
        u32::from(page[0])
    } else {
        256
    }
}

// What a call answers.
fn answer<S: PageStore>(store: &mut S, call: Call) -> Answer {
    match call {
        Call::Pages => Ok(store.pages()),
        Call::Extend => store.extend(),
        Call::Read(n) => match store.read_page(n) {
            Ok(page) => Ok(byte_of(&page)),
            Err(fault) => Err(fault),
        },
        Call::Write(n, byte) => store.write_page(n, &[byte; 4096]).and(Ok(0)),
        Call::Sync => store.sync().and(Ok(0)),
    }
}

// Whether each of the calls is answered so.
pub(crate) fn answers<S: PageStore>(store: &mut S, calls: &[(Call, Answer)]) -> bool {
    for asked in calls {
        if answer(store, asked.0) != asked.1 {
            return false;
        }
    }
    true
}

// What becomes of a store: it answers these calls so, or there is none for this fault.
pub(crate) type Made = Result<&'static [(Call, Answer)], StoreFault>;

// Whether a store answers its calls so, where there is to be one.
pub(crate) fn is_such<S: PageStore>(store: &mut S, wanted: Made) -> bool {
    match wanted {
        Ok(calls) => answers(store, calls),
        Err(_) => false,
    }
}

// Whether a store that is made is such a one.
pub(crate) fn made_answers<S: PageStore>(made: Result<S, StoreFault>, wanted: Made) -> bool {
    match made {
        Ok(mut store) => is_such(&mut store, wanted),
        Err(fault) => wanted.err() == Some(fault),
    }
}
