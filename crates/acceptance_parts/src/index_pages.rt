// Pages written by hand, as data, and stores of them.
use std::alloc::Global;
use std::num::NonZeroUsize;
use ub_store::{FaultyStore, MemStore, Page, PageStore, Pager, StoreFault};

// An entry: the address and the number of its first key, and its page.
pub(crate) type Listed = (u128, u32, u32);

// A pager over a store that fails at one call.
pub(crate) type Tried = Pager<FaultyStore<MemStore>>;

// A page of an index.
#[derive(Clone, Copy)]
pub(crate) enum Sheet {
    // Its level, and its entries.
    Index(u32, &'static [Listed]),
    // Its level from 1 to 16, and the page that the first of its 170 entries names; the others name page 1001, 1002 and so on. Each
    // leads to keys that the level below can hold.
    Full(u32, u32),
    // Zeros.
    Blank,
}

// The entry at an index of a page, if there is one.
fn listed_at(sheet: &Sheet, i: u32) -> Option<Listed> {
    match sheet {
        Sheet::Index(_, entries) => entries.get(i as usize).copied(),
        Sheet::Full(level, below) => {
            let apart = 200u128.saturating_pow(level.saturating_sub(1));
            let page = if i == 0 { *below } else { i.wrapping_add(1000) };
            Some((apart.saturating_mul(u128::from(i)), 0, page))
        }
        Sheet::Blank => None,
    }
}

// Puts a number into a page, on so many bytes from an offset on, the highest byte first.
fn poke(page: &mut [u8], at: usize, width: u32, number: u128) {
    let mut rest = number;
    for i in 0..width {
        let place = at.wrapping_add((width - 1 - i) as usize);
        if place < page.len() {
            page[place] = (rest % 256) as u8;
        }
        rest /= 256;
    }
}

// The bytes of a page: its kind, its level and its count, and of each entry an address of 16 bytes, a number and a page.
pub(crate) fn page_of(sheet: &Sheet) -> Page {
    let (kind, level, count) = match sheet {
        Sheet::Index(level, entries) => (0x49, *level, entries.len()),
        Sheet::Full(level, _) => (0x49, *level, 170),
        Sheet::Blank => (0, 0, 0),
    };
    let mut page = [0; 4096];
    poke(&mut page, 0, 1, kind);
    poke(&mut page, 1, 1, u128::from(level));
    poke(&mut page, 2, 2, count as u128);
    for i in 0..170u32 {
        let Some((z, number, below)) = listed_at(sheet, i) else {
            break;
        };
        let at = 16 + 24 * i as usize;
        poke(&mut page, at, 16, z);
        poke(&mut page, at + 16, 4, u128::from(number));
        poke(&mut page, at + 20, 4, u128::from(below));
    }
    page
}

// Puts a blank page and these into a store of none.
fn fill(store: &mut MemStore, pages: &[Sheet]) -> Result<(), StoreFault> {
    store.extend()?;
    for sheet in pages {
        let number = store.extend()?;
        store.write_page(number, &page_of(sheet))?;
    }
    Ok(())
}

// A store of these pages from 1 on, whose call of this number fails, behind a pager that holds so many.
pub(crate) fn stored(alloc: Global, pages: &[Sheet], due: u64, room: usize) -> Option<Tried> {
    let room = NonZeroUsize::new(room)?;
    let mut store = MemStore::new(alloc);
    match fill(&mut store, pages) {
        Ok(()) => Pager::new(alloc, FaultyStore::new(store, due), room).ok(),
        Err(_) => None,
    }
}
