// The check of a page of an index where it stands.
ghost use Rattle.std.specs.Prelude.{◌≡◌, ◌≤◌, ◌↔◌, IsTrue, IsOk, IfOk, IfErr};
ghost use Rattle.std.specs.List.{AllByRecursion};
ghost use Rattle.ub_page.specs.Entries.{AreAscending, IsEntry, entries_on};
ghost use Rattle.ub_page.specs.Index.{Node, IsNode, index_page, head_on, node_on, IsBlankBehind, IsIndexFault};
ghost use Rattle.ub_page.specs.Named.{IsNamed};

use crate::entries::{MAX_ENTRIES, is_in_range};
use crate::index::{Head, read_head};
use crate::slots::entry_at;
use ub_bytes::Page;
use ub_bytes::page::{is_blank_from, u32_at, u64_at};
use ub_region::Entry;
use ub_table::{MAX_ROW_NUMBER, PageFault};

/// What the first bytes tell of a page of an index, all bytes of which are well, in a space that ends with the address
/// `last`. It is refused as by `read_index`, and no entry is kept. Takes no memory.
pub fn check_index(last: u128, page: &Page) -> Result<Head, PageFault>
    ensures head { IfOk result (λ head. head ≡ head_on page.now) }
    ensures found { IfOk result
        (λ _. IsNode last (node_on page.now) × (page.now ≡ index_page (node_on page.now))) }
    ensures exact { (node : Node) → IsNode last node → page.now ≡ index_page node → IsOk result }
    ensures refused { IfErr result (IsIndexFault last page.now) }
{
    let head = read_head(page)?;
    if !are_well(page, head.count, last) {
        if !are_in_range(page, head.count, last) {
            return Err(PageFault::BadRow);
        }
        return Err(PageFault::BadOrder);
    }
    if !is_blank_behind(page, head.count) {
        return Err(PageFault::BadPadding);
    }
    Ok(head)
}

// Whether the first so many entries are in range and begin one after the other. Each is read once, and none ends the loop, so
// that nothing hangs on what stands there; the last one's address alone is held against the last of the space, since none before
// it is higher.
fn are_well(page: &Page, count: usize, last: u128) -> bool
    requires some { 1 ≤ count }
    requires few { count ≤ MAX_ENTRIES }
    ensures { IsTrue result ↔ (AllByRecursion (IsEntry last) (entries_on 16 count page.now)
        × AreAscending (entries_on 16 count page.now)) }
{
    let mut before = entry_at(page, 0);
    let mut are_well = is_named(&before);
    for slot in 1..count {
        let entry = entry_at(page, slot);
        are_well &= is_named(&entry) & before.first.is_before(&entry.first);
        before = entry;
    }
    are_well && before.first.z <= last
}

// Whether an entry's number is at most 16777215, and its page not the first one.
fn is_named(entry: &Entry) -> bool
    ensures { IsTrue result ↔ IsNamed entry.now }
{
    entry.first.number <= MAX_ROW_NUMBER && entry.page >= 1
}

// Whether the first so many entries are in range.
fn are_in_range(page: &Page, count: usize, last: u128) -> bool
    requires { count ≤ MAX_ENTRIES }
    ensures { IsTrue result ↔ AllByRecursion (IsEntry last) (entries_on 16 count page.now) }
{
    for slot in 0..count {
        if !is_in_range(&entry_at(page, slot), last) {
            return false;
        }
    }
    true
}

// Whether the bytes that no field uses are zero.
fn is_blank_behind(page: &Page, count: usize) -> bool
    requires { count ≤ MAX_ENTRIES }
    ensures { IsTrue result ↔ IsBlankBehind count page.now }
{
    u32_at(page, 4) == 0 && u64_at(page, 8) == 0 && is_blank_from(page, 16 + 24 * count)
}
