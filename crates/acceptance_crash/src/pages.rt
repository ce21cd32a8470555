// Pages by hand. Those of a few kinds are each told by one byte: what a table of before and after has at each number, and what a torn
// write leaves. Those of a journal are told by their first bytes and by what stands behind them.

use ub_journal::Tells;
use ub_store::Page;

/// Zeros.
pub const ZEROS: u32 = 0;
/// The old page, or the first page of before.
pub const OLD: u32 = 1;
/// The first page of before, marked.
pub const MARKED: u32 = 2;
/// The first page of before with another byte at its mark.
pub const MISMARKED: u32 = 3;
/// The new page.
pub const NEW: u32 = 4;
/// The front half of the new page, and the back half of the old one.
pub const FRONT_NEW: u32 = 5;
/// The back half of the new page, and the front half of the old one, marked.
pub const BACK_NEW: u32 = 6;
/// Other bytes.
pub const GARBAGE: u32 = 7;

// The bytes of the front half, of the back half, and at the mark.
fn bytes_of(n: u32, kind: u32) -> (u8, u8, u8) {
    let old = 16 | (n & 7) as u8;
    let new = 32 | (n & 7) as u8;
    match kind {
        ZEROS => (0, 0, 0),
        OLD => (old, old, 0),
        MARKED => (old, old, 1),
        MISMARKED => (old, old, 9),
        NEW => (new, new, 0),
        FRONT_NEW => (new, old, 0),
        BACK_NEW => (old, new, 1),
        _ => (238, 238, 238),
    }
}

/// The page of this kind at this number.
pub(crate) fn page_of(n: u32, kind: u32) -> Page {
    let (front, back, mark) = bytes_of(n, kind);
    let mut page = [back; 4096];
    page[..2048].fill(front);
    page[5] = mark;
    page
}

/// A page that begins with these bytes, and has this one behind them, over and over.
pub(crate) fn page_from(front: &[u8], rest: u8) -> Page {
    let count = front.len().min(4096);
    let mut page = [rest; 4096];
    page[..count].copy_from_slice(&front[..count]);
    page
}

/// A page that begins with so many of this byte, 4096 at most, and has zeros behind them.
pub(crate) fn held_page(held: u32, byte: u8) -> Page {
    page_from(&[byte; 4096][..(held as usize).min(4096)], 0)
}

/// Whether a journal tells these changes, each by its number, how many bytes its page holds, and their byte.
pub(crate) fn tells<J: Tells>(journal: &J, wanted: &[(u32, u32, u8)]) -> bool {
    if journal.changes() != wanted.len() {
        return false;
    }
    let mut right = true;
    let mut page = [0; 4096];
    for at in 0..wanted.len() {
        let number = journal.put_change(at, &mut page);
        let (wanted_number, held, byte) = wanted[at];
        right &= (number == wanted_number) & (page == held_page(held, byte));
    }
    right
}

/// A page of so many numbers from one on, each of four bytes, and zeros behind them.
pub(crate) fn page_of_numbers(from: u16, count: usize) -> Page {
    let mut page = [0; 4096];
    for i in 0..count.min(1024) {
        let [high, low] = from.wrapping_add(i as u16).to_be_bytes();
        page[4 * i + 2] = high;
        page[4 * i + 3] = low;
    }
    page
}
