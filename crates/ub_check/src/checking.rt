// The check of a whole table: from the root of its index on each page is read and looked at in full, before what it leads to. A
// region's rows put their numbers into a set, so that no number is taken twice.
ghost use Rattle.std.specs.Prelude.{◌≡◌, ◌≤◌, ◌++◌, ℕ, [], List, false, drop, IsTrue, OnOk};
ghost use Rattle.ub_check.specs.Calls.{Checks};
ghost use Rattle.ub_check.specs.Numbers.{AreNew, HasJust};
ghost use Rattle.ub_check.specs.inner.Checking.{HasTaken, TakesOn, Walks};
ghost use Rattle.ub_index.specs.Index.{first_or, top};
ghost use Rattle.ub_page.specs.declared.header.TheConstants.{MAX_LEVEL};

use crate::numbers::Numbers;
use crate::reading::read_region;
use crate::walk::{Walk, has_met_all, new_walk};
use std::alloc::Global;
use ub_index::{IndexFault, entries_at, region_at};
use ub_page::Entry;
use ub_region::ORIGIN;
use ub_store::{PageStore, Pager};
use ub_table::{Key, PageFault, Schema};
use ub_zaddr::last;

/// What is told of a table whose pages are checked.
#[derive(Clone, Copy)]
pub struct Told {
    /// The page of the root of its index.
    pub root: u32,
    /// How many levels the index has.
    pub levels: u32,
    /// How many regions there are.
    pub regions: u32,
    /// How many rows there are.
    pub rows: u32,
    /// The number that the next row gets.
    pub next: u32,
}

/// Whether the pages of a table are sound, each of them, as it is told of: from the root of the index on each page is read that leads
/// to a region, and those of the regions, in the order of their keys. Pages to which no entry leads aren't looked at. Over an honest
/// store Ok comes just where all is sound, device and memory aside.
///
/// Else the first fault is told: of each page, before what it leads to, what its reader refuses; BadCount where a page of the
/// index is of another level; OutOfRegion where a page doesn't begin with the key of the entry that names it, or doesn't end
/// before the next one; BadRow where a region has a row with a number that isn't below the next, or that was met before. One
/// region more than is told is BadCount of page 0, before its page is read, and so are fewer regions, or other rows, at the
/// end. Store with NoPage comes where there is no such page, with Device where the store failed in this call, with Memory where
/// memory was refused.
///
/// It takes memory for a bit for each number below the next, and for one page of the index a level.
pub fn check_pages<S: PageStore>(
    alloc: Global,
    pager: &mut Pager<S>,
    schema: &Schema,
    told: &Told,
) -> Result<(), IndexFault>
    requires { told.now.levels ≤ MAX_LEVEL }
    ensures { Checks schema.now told.now pager.old pager.new result }
{
    let mut walk = new_walk(alloc, told.regions, told.next, schema.shape())?;
    check_with(alloc, pager, schema, told, &mut walk)
}

// The same with a walk that hasn't begun.
fn check_with<S: PageStore>(
    alloc: Global,
    pager: &mut Pager<S>,
    schema: &Schema,
    told: &Told,
    walk: &mut Walk,
) -> Result<(), IndexFault>
    requires low { told.now.levels ≤ MAX_LEVEL }
    requires begun { HasTaken told.now.regions walk.old [] }
    requires bound { walk.old.numbers.bound ≡ told.now.next }
    ensures { Checks schema.now told.now pager.old pager.new result }
{
    let last = last(schema.shape());
    let top = root_entry(told.root);
    check_under(alloc, pager, schema, last, told.levels, &top, None, walk)?;
    if has_met_all(walk, told.rows) {
        Ok(())
    } else {
        Err(miscounted())
    }
}

// Other regions or rows than are told.
fn miscounted() -> IndexFault
    ensures { result ≡ IndexFault.Page 0 PageFault.BadCount }
{
    IndexFault::Page {
        page: 0,
        fault: PageFault::BadCount,
    }
}

// The entry by which a root is named.
fn root_entry(root: u32) -> Entry
    ensures { result ≡ top root }
{
    Entry {
        first: ORIGIN,
        page: root,
    }
}

// Takes what an entry of this level leads to. It calls itself once a level.
fn check_under<S: PageStore>(
    alloc: Global,
    pager: &mut Pager<S>,
    schema: &Schema,
    last: u128,
    level: u32,
    entry: &Entry,
    end: Option<Key>,
    walk: &mut Walk,
) -> Result<(), IndexFault>
    requires { level ≤ MAX_LEVEL }
    ensures bound { walk.new.numbers.bound ≡ walk.old.numbers.bound }
    ensures taken { OnOk result
        (TakesOn schema.now last level entry.now end pager.old.store walk.old walk.new) }
    ensures effect { Walks schema.now last level entry.now end walk.old pager.old pager.new
        result }
{
    if level == 0 {
        return check_region(pager, schema, last, entry, end, walk);
    }
    let entries = entries_at(alloc, pager, last, level, entry, end)?;
    for i in 0..entries.len() {
        let next = first_from(entries.as_slice(), i + 1, end);
        check_under(
            alloc,
            pager,
            schema,
            last,
            level - 1,
            &entries[i],
            next,
            walk,
        )?;
    }
    Ok(())
}

// Where the entries from an index on begin, or else the end.
fn first_from(entries: &[Entry], i: usize, end: Option<Key>) -> Option<Key>
    ensures { result ≡ first_or (drop i entries.now) end }
{
    if i < entries.len() {
        Some(entries[i].first)
    } else {
        end
    }
}

// Takes the region of an entry. The pager forgets a page that is refused.
fn check_region<S: PageStore>(
    pager: &mut Pager<S>,
    schema: &Schema,
    last: u128,
    entry: &Entry,
    end: Option<Key>,
    walk: &mut Walk,
) -> Result<(), IndexFault>
    ensures bound { walk.new.numbers.bound ≡ walk.old.numbers.bound }
    ensures taken { OnOk result
        (TakesOn schema.now last 0 entry.now end pager.old.store walk.old walk.new) }
    ensures effect { Walks schema.now last 0 entry.now end walk.old pager.old pager.new result }
{
    if walk.left == 0 {
        return Err(miscounted());
    }
    let region = region_at(last, *entry, end);
    read_region(pager, schema, &region, &mut walk.region)?;
    if !put_numbers(walk.region.numbers(), &mut walk.numbers) {
        return Err(IndexFault::Page {
            page: entry.page,
            fault: PageFault::BadRow,
        });
    }
    walk.left -= 1;
    walk.rows = walk.rows.saturating_add(walk.region.len() as u64);
    Ok(())
}

// Puts these numbers into a set, as long as they are new.
fn put_numbers(given: &[u32], numbers: &mut Numbers) -> bool
    ensures bound { numbers.new.bound ≡ numbers.old.bound }
    ensures new { (met : List ℕ) → HasJust numbers.old met → IsTrue result
        → AreNew numbers.old.bound met given.now × HasJust numbers.new (met ++ given.now) }
    ensures refused { (met : List ℕ) → HasJust numbers.old met → result ≡ false
        → ¬ (AreNew numbers.old.bound met given.now) }
{
    for number in given {
        if !numbers.put(*number) {
            return false;
        }
    }
    true
}
