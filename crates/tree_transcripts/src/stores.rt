// What is answered of a store that stands by itself.
use crate::bytes::put_items;
use crate::reply::NONE;
use crate::tables::Tables;
use crate::told::Told;
use crate::words::cut;
use std::alloc::Global;
use ub_store::{Page, PageStore, StoreFault};

/// Stores that are made of their pages, and fail at one call, or at none.
pub trait Failing {
    /// One of these pages that fails at its k-th call, or at none where k is 0; none of more pages than there may be.
    fn of(pages: Vec<Page>, k: u64) -> Option<Self>;
}

/// Puts what a line on a store is answered.
pub fn look<S: PageStore>(tables: &Tables, store: &mut Option<S>, line: &str, told: &mut Told) {
    let Some(store) = store else {
        return told.put(NONE);
    };
    let (head, words) = cut(line);
    let is_so = match head {
        "size" => return told.number(store.pages() as u128),
        "same" => is_same(tables, store, words),
        "bytes" => has_bytes(store, words),
        _ => is_due(store),
    };
    told.put(if is_so { "yes" } else { "no" });
}

// Whether a store has the pages of a table, and no other.
fn is_same<S: PageStore>(tables: &Tables, store: &mut S, words: &str) -> bool {
    match tables.pages(words) {
        Some(pages) => has_pages(store, pages.as_slice()),
        None => false,
    }
}

// Whether a store has these pages, and no other.
fn has_pages<S: PageStore>(store: &mut S, pages: &[Page]) -> bool {
    let mut n = 0u32;
    let mut is_so = store.pages() as usize == pages.len();
    for page in pages {
        is_so &= has_page(store, n, page);
        n = n.saturating_add(1);
    }
    is_so
}

// Whether the page of this number is this one.
fn has_page<S: PageStore>(store: &mut S, n: u32, wanted: &Page) -> bool {
    match store.read_page(n) {
        Ok(page) => page == *wanted,
        Err(_) => false,
    }
}

// Whether a store fails at its next call.
fn is_due<S: PageStore>(store: &mut S) -> bool {
    store.read_page(0) == Err(StoreFault::Device)
}

// Whether a page of a store has these bytes, by the words for the page, the offset, and them.
fn has_bytes<S: PageStore>(store: &mut S, words: &str) -> bool {
    let (place, items) = cut(words);
    let (n, at) = place.split_once('@').unwrap_or(("", ""));
    let Ok(page) = store.read_page(n.parse::<u32>().unwrap_or(u32::MAX)) else {
        return false;
    };
    let mut wanted = page;
    put_items(&mut wanted, at.parse::<usize>().unwrap_or(4096), items, 0) && page == wanted
}

/// The pages of a store.
pub fn pages_of<S: PageStore>(alloc: Global, store: &mut S) -> Option<Vec<Page>> {
    let mut pages = Vec::new(alloc);
    let mut is_well = true;
    for n in 0..store.pages() {
        is_well &= pages.push(page_of(store, n)).is_ok();
    }
    if is_well { Some(pages) } else { None }
}

// A page of a store. It is read twice where that fails, since a store fails once.
fn page_of<S: PageStore>(store: &mut S, n: u32) -> Page {
    match store.read_page(n) {
        Ok(page) => page,
        Err(_) => store.read_page(n).unwrap_or([0; 4096]),
    }
}
