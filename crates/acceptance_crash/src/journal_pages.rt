// A journal's pages, each told by its first bytes and by what stands behind them.

use crate::calls::{byte_of, has_page};
use crate::pages::{page_from, page_of_numbers, tells};
use std::alloc::{AllocError, Global};
use ub_journal::{Journal, JournalFault, Place, TornPlace, is_journal};
use ub_journal_page::{read_journal, write_journal};
use ub_keeping::ask;
use ub_store::{MemStore, Page, PageStore, StoreFault};

// The pages of a journal by hand: the table is to have 10 pages, of which 3 and 9 change besides the first. Both take all of their
// bytes, so the first one goes on on the second page, behind which stands the other, which goes on on the third.
static PAGES: [([u8; 16], u8); 6] = [
    (*b"UBTJ\0\0\0\x02\0\0\0\x0a\0\0\0\x02", 0),
    ([1; 16], 1),
    ([2; 16], 2),
    (*b"\0\0\0\x03\0\0\x10\0\x03\x03\x03\x03\x03\x03\x03\x03", 3),
    (*b"\x03\x03\x03\x03\x03\x03\x03\x03\0\0\0\x09\0\0\x10\0", 9),
    ([9; 16], 0),
];

// The same journal in version 1.
static OLD_PAGES: [([u8; 16], u8); 6] = [
    (*b"UBTJ\0\0\0\x01\0\0\0\x0a\0\0\0\x02", 0),
    ([1; 16], 1),
    ([2; 16], 2),
    (*b"\0\0\0\x03\0\0\0\x09\0\0\0\0\0\0\0\0", 0),
    ([3; 16], 3),
    ([9; 16], 9),
];

// Bytes with which these pages spell no journal: the page, the offset, and the byte.
static DAMAGES: &[(u32, usize, u8)] = &[
    (0, 0, b'V'),
    (0, 3, b'R'),
    (0, 7, 3),
    (0, 7, 1),
    (0, 11, 9),
    (0, 11, 0),
    (0, 15, 1),
    (0, 15, 3),
    (0, 16, 1),
    (0, 4095, 1),
    // The first number, and how many bytes the first page holds: 4097, and none.
    (3, 3, 0),
    (3, 3, 9),
    (3, 0, 1),
    (3, 7, 1),
    (3, 6, 0),
    // The second number, and how many bytes the second page holds: 4097, and fewer than stand there.
    (4, 11, 10),
    (4, 11, 3),
    (4, 15, 1),
    (4, 14, 15),
    // Its last byte, and those behind it.
    (5, 15, 0),
    (5, 16, 1),
    (5, 4095, 1),
];

// The same of the pages of version 1.
static OLD_DAMAGES: &[(u32, usize, u8)] = &[
    (0, 0, b'V'),
    (0, 3, b'R'),
    (0, 7, 2),
    (0, 11, 9),
    (0, 11, 0),
    (0, 15, 1),
    (0, 15, 3),
    (0, 16, 1),
    (0, 4095, 1),
    (3, 3, 0),
    (3, 3, 9),
    (3, 0, 1),
    (3, 7, 10),
    (3, 7, 2),
    (3, 8, 1),
    (3, 4095, 1),
];

// Puts a page behind those of a store.
fn add<S: PageStore>(store: &mut S, page: &Page) -> bool {
    match store.extend() {
        Ok(n) => store.write_page(n, page).is_ok(),
        Err(_) => false,
    }
}

// Puts a journal's pages behind those of a store.
fn add_pages<S: PageStore>(store: &mut S, pages: &[([u8; 16], u8)]) -> bool {
    let mut right = true;
    for (front, rest) in pages {
        right &= add(store, &page_from(front, *rest));
    }
    right
}

// Whether the pages of a store are told to be damaged.
fn is_damaged<S: PageStore>(alloc: Global, store: &mut S) -> bool {
    matches!(read_journal(alloc, store), Err(JournalFault::Damaged))
}

// Whether with this byte on a page of a store its pages are told to be damaged.
fn is_damaged_with<S: PageStore>(alloc: Global, store: &mut S, damage: (u32, usize, u8)) -> bool {
    let (n, offset, byte) = damage;
    let Ok(page) = store.read_page(n) else {
        return false;
    };
    let mut damaged = page;
    damaged[offset % 4096] = byte;
    if store.write_page(n, &damaged).is_err() {
        return false;
    }
    let told = is_damaged(alloc, store);
    store.write_page(n, &page).is_ok() && told
}

// Whether pages spell the journal: its count, its changes, and its two other pages.
fn is_whole<S: PageStore>(journal: &Journal, store: &S) -> bool {
    (journal.count == 10)
        & tells(journal, &[(3, 4096, 3), (9, 4096, 9)])
        & (byte_of(&journal.before) == 1)
        & (byte_of(&journal.head) == 2)
        & (store.pages() == 6)
}

// Whether a journal is written as the pages of a store.
fn is_written<S: PageStore>(alloc: Global, journal: &Journal, store: &mut S) -> bool {
    let mut bytes = Vec::new(alloc);
    is_journal(journal)
        && write_journal(&mut bytes, journal).is_ok()
        && has_bytes(store, bytes.as_slice())
}

// Whether the pages of a store have these bytes, one behind the other, and no others.
fn has_bytes<S: PageStore>(store: &mut S, bytes: &[u8]) -> bool {
    let mut right = bytes.len() % 4096 == 0;
    let mut n = 0u32;
    for part in bytes.chunks(4096) {
        right &= has_page(store, n, &page_from(part, 0));
        n = n.saturating_add(1);
    }
    right && store.pages() == n
}

// Whether these pages, in a store that has none, spell the journal, which is written as they stand, or in another version.
fn is_read<S: PageStore>(
    alloc: Global,
    mut store: S,
    pages: &[([u8; 16], u8)],
    is_as_they_stand: bool,
) -> bool {
    let are_there = add_pages(&mut store, pages);
    match read_journal(alloc, &mut store) {
        Ok(journal) => {
            let is_written = is_written(alloc, &journal, &mut store);
            are_there & is_whole(&journal, &store) & (is_written == is_as_they_stand)
        }
        Err(_) => false,
    }
}

// Whether the journal is read of both versions' pages.
fn are_read(alloc: Global) -> bool {
    is_read(alloc, MemStore::new(alloc), &PAGES, true)
        & is_read(alloc, MemStore::new(alloc), &OLD_PAGES, false)
}

#[test]
fn a_journal_is_read_in_both_versions_and_written_in_the_second(rt: HostRuntime) {
    assert!(rt; are_read(rt.alloc()));
}

// Changes, each told by its number, how many bytes its page holds, and their byte; and whether a table of 10 pages can have them.
static CHANGES: &[(&[(u32, u32, u8)], bool)] = &[
    (&[], true),
    // A page of zeros, one of 4096 bytes, and one of 100.
    (&[(3, 0, 7), (5, 4096, 7), (9, 100, 8)], true),
    // The last page is full; the numbers before a page's bytes, and its last byte, stand on two.
    (&[(1, 4088, 7)], true),
    (&[(1, 4086, 7), (2, 1, 8)], true),
    (&[(1, 4087, 7), (2, 1, 8), (3, 4089, 9)], true),
    // One byte too many, and a last byte that is zero.
    (&[(1, 4097, 7)], false),
    (&[(1, 4096, 0)], false),
    (&[(1, 1, 0)], false),
    // Numbers out of their range, and not in their order.
    (&[(0, 1, 7)], false),
    (&[(10, 1, 7)], false),
    (&[(4, 1, 7), (4, 1, 7)], false),
    (&[(4, 1, 7), (3, 1, 7)], false),
];

// The bytes of changes, one behind the other.
fn bytes_of(alloc: Global, changes: &[(u32, u32, u8)]) -> Option<Vec<u8>> {
    let mut bytes = Vec::new(alloc);
    let mut right = true;
    for (number, held, byte) in changes {
        right &= bytes.extend_from_slice(&number.to_be_bytes()).is_ok()
            & bytes.extend_from_slice(&held.to_be_bytes()).is_ok();
        let end = bytes.len().saturating_add(*held as usize);
        right &= bytes.resize(end, *byte).is_ok();
    }
    right.then_some(bytes)
}

// Puts the first pages of a journal behind those of a store: its head, one of 1s, and one of 2s.
fn add_front<S: PageStore>(store: &mut S, head: &Page) -> bool {
    add(store, head) & add(store, &[1; 4096]) & add(store, &[2; 4096])
}

// Puts bytes on pages behind those of a store, with zeros behind the last.
fn add_bytes<S: PageStore>(store: &mut S, bytes: &[u8]) -> bool {
    let mut right = true;
    for part in bytes.chunks(4096) {
        right &= add(store, &page_from(part, 0));
    }
    right
}

// Puts the pages of a journal with these changes behind those of a store.
fn add_packed<S: PageStore>(alloc: Global, store: &mut S, changes: &[(u32, u32, u8)]) -> bool {
    let mut head = page_from(b"UBTJ\0\0\0\x02\0\0\0\x0a\0\0\0\0", 0);
    head[15] = changes.len().min(255) as u8;
    match bytes_of(alloc, changes) {
        Some(bytes) => add_front(store, &head) & add_bytes(store, bytes.as_slice()),
        None => false,
    }
}

// Whether the journal with these changes, in a store that has no pages, is read and written where a table can have them, and is told to
// be damaged otherwise; and whether it is damaged with a page of zeros more.
fn is_told<S: PageStore>(
    alloc: Global,
    mut store: S,
    changes: &[(u32, u32, u8)],
    can_have: bool,
) -> bool {
    let is_there = add_packed(alloc, &mut store, changes);
    let right = match read_journal(alloc, &mut store) {
        Ok(journal) => {
            can_have && tells(&journal, changes) && is_written(alloc, &journal, &mut store)
        }
        Err(fault) => !can_have && fault == JournalFault::Damaged,
    };
    is_there & right & add(&mut store, &[0; 4096]) & is_damaged(alloc, &mut store)
}

#[test]
fn pages_stand_without_the_zeros_behind_them(rt: HostRuntime) {
    for (changes, can_have) in CHANGES {
        let store = MemStore::new(rt.alloc());
        assert!(&rt; is_told(rt.alloc(), store, changes, *can_have));
    }
}

// Pages, each of one byte, the first of them with this mark.
fn table_of(alloc: Global, bytes: &[u8], mark: u8) -> Result<Vec<Page>, AllocError> {
    let mut pages = Vec::new(alloc);
    for (n, byte) in bytes.iter().enumerate() {
        let mut page = [*byte; 4096];
        if n == 0 {
            page[5] = mark;
        }
        pages.push(page)?;
    }
    Ok(pages)
}

// Whether a store has the pages that the journal makes: ten, of which these three are its own.
fn is_new<S: PageStore>(store: &mut S) -> bool {
    let mut right = store.pages() == 10;
    for (n, byte) in [(0, 2), (3, 3), (9, 9)] {
        right &= has_page(store, n, &[byte; 4096]);
    }
    right
}

// Whether what is found at a place is what the journal makes: 2 where that can't be told.
fn found_fit<P: Place>(alloc: Global, place: P) -> u8 {
    match ask(alloc, place) {
        Ok(mut found) => u8::from(is_new(&mut found)),
        Err(refused) => refused_fit(refused.fault),
    }
}

// The same of a table of these pages, with so many bytes after them, and the journal beside it.
fn told_fit(alloc: Global, bytes: &[u8], mark: u8, rest: u16, journal: Journal) -> u8 {
    match table_of(alloc, bytes, mark) {
        Ok(pages) => {
            let place = TornPlace::new(alloc, pages, rest, Some(journal), false);
            found_fit(alloc, place)
        }
        Err(_) => 2,
    }
}

// The same where a store isn't found by it for this fault.
fn refused_fit(fault: StoreFault) -> u8 {
    if fault == StoreFault::BadSize { 0 } else { 2 }
}

// Tables whose pages have one byte each, the mark of the first, how many bytes stand after them, and whether the journal is theirs.
static TABLES: &[(&[u8], u8, u16, u8)] = &[
    // The table of before, marked and not, with bytes after it.
    (&[1, 7, 7, 7, 7, 7, 7, 7, 7, 7], 1, 0, 1),
    (&[1, 7, 7, 7, 7, 7, 7, 7, 7, 7], 0, 9, 1),
    (&[1, 7, 7, 7, 7, 7, 7, 7, 7], 1, 0, 1),
    (&[1, 7, 7, 7, 7, 7, 7, 7, 7, 7, 7, 7], 1, 0, 1),
    // One that hasn't all the pages that the journal leaves.
    (&[1, 7, 7, 7, 7, 7, 7, 7], 1, 0, 0),
    (&[], 1, 0, 0),
    // The new one, with any first page; with bytes after it, a page more, or a page that wasn't put.
    (&[2, 7, 7, 3, 7, 7, 7, 7, 7, 9], 2, 0, 1),
    (&[8, 7, 7, 3, 7, 7, 7, 7, 7, 9], 8, 0, 1),
    (&[8, 7, 7, 3, 7, 7, 7, 7, 7, 9], 8, 1, 0),
    (&[8, 7, 7, 3, 7, 7, 7, 7, 7, 9, 7], 8, 0, 0),
    (&[8, 7, 7, 3, 7, 7, 7, 7, 7, 7], 8, 0, 0),
    (&[8, 7, 7, 7, 7, 7, 7, 7, 7, 9], 8, 0, 0),
];

// Puts the pages of a journal of version 1 with 1025 changes, of the pages 1 to 1025 of 2048, behind those of a store.
fn add_long<S: PageStore>(store: &mut S) -> bool {
    let head = page_from(b"UBTJ\0\0\0\x01\0\0\x08\0\0\0\x04\x01", 0);
    let mut right = add_front(store, &head)
        & add(store, &page_of_numbers(1, 1024))
        & add(store, &page_of_numbers(1025, 1));
    for i in 0..1025u32 {
        right &= add(store, &[(i & 255) as u8; 4096]);
    }
    right
}

// Whether a journal has changes of the pages 1 to 1025, each page of its own byte.
fn is_long(journal: &Journal) -> bool {
    let changes = journal.changes.as_slice();
    let mut right = changes.len() == 1025;
    for i in 0..changes.len() {
        let byte = (i & 255) as u8;
        right &= (changes[i].number as usize == i + 1)
            & (byte_of(&changes[i].page) == u32::from(byte));
    }
    right
}

// Whether the long journal is read.
fn is_long_read<S: PageStore>(alloc: Global, store: &mut S) -> bool {
    match read_journal(alloc, store) {
        Ok(journal) => is_long(&journal),
        Err(_) => false,
    }
}

// Whether it is, in a store that has no pages, and is damaged with these bytes.
fn is_long_told<S: PageStore>(alloc: Global, mut store: S) -> bool {
    add_long(&mut store)
        & is_long_read(alloc, &mut store)
        & is_damaged_with(alloc, &mut store, (3, 4095, 1))
        & is_damaged_with(alloc, &mut store, (4, 3, 0))
        & is_damaged_with(alloc, &mut store, (4, 7, 1))
}

#[test]
fn numbers_go_on_on_a_second_page(rt: HostRuntime) {
    assert!(rt; is_long_told(rt.alloc(), MemStore::new(rt.alloc())));
}

// Whether of each table the journal is told to be its own, or not, as it is.
fn is_told_each<S: PageStore>(alloc: Global, store: &mut S) -> bool {
    let mut right = true;
    for (pages, mark, rest, told) in TABLES {
        right &= match read_journal(alloc, store) {
            Ok(journal) => told_fit(alloc, pages, *mark, *rest, journal) == *told,
            Err(_) => false,
        };
    }
    right
}

// The same of the journal on pages, in a store that has none.
fn is_told_of<S: PageStore>(alloc: Global, mut store: S) -> bool {
    add_pages(&mut store, &PAGES) & is_told_each(alloc, &mut store)
}

#[test]
fn a_journal_fits_its_table(rt: HostRuntime) {
    assert!(rt; is_told_of(rt.alloc(), MemStore::new(rt.alloc())));
}

// Whether these pages, in a store that has none, are damaged with each of these bytes and with a page more, and spell a journal without
// that.
fn are_refused_in<S: PageStore>(
    alloc: Global,
    mut store: S,
    pages: &[([u8; 16], u8)],
    damages: &[(u32, usize, u8)],
) -> bool {
    let mut right = add_pages(&mut store, pages);
    for damage in damages {
        right &= is_damaged_with(alloc, &mut store, *damage);
    }
    right
        & read_journal(alloc, &mut store).is_ok()
        & add(&mut store, &[0; 4096])
        & is_damaged(alloc, &mut store)
}

// Whether these pages, in a store that has none, are damaged.
fn are_damaged<S: PageStore>(alloc: Global, mut store: S, pages: &[([u8; 16], u8)]) -> bool {
    add_pages(&mut store, pages) & is_damaged(alloc, &mut store)
}

// Whether pages are damaged with each of these bytes, with a page more, and with fewer, and spell a journal without that.
fn are_refused(alloc: Global, pages: &[([u8; 16], u8); 6], damages: &[(u32, usize, u8)]) -> bool {
    let mut right = are_refused_in(alloc, MemStore::new(alloc), pages, damages);
    for count in 0..6 {
        right &= are_damaged(alloc, MemStore::new(alloc), &pages[..count]);
    }
    right
}

#[test]
fn damaged_pages_are_refused(rt: HostRuntime) {
    assert!(&rt; are_refused(rt.alloc(), &PAGES, DAMAGES));
    assert!(&rt; are_refused(rt.alloc(), &OLD_PAGES, OLD_DAMAGES));
}
