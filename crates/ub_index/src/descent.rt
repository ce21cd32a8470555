// The way down an index, step by step.
ghost use Rattle.std.specs.Prelude.{◌≡◌, ◌+◌, ◌<◌, ◌≤◌, ◌↔◌, ◌⊎◌, None, Some, IfOk, IfErr, IsOk, IfSome, IsTrue, drop};
ghost use Rattle.ub_index.specs.Bringing.{BringsFitting, BringsNext};
ghost use Rattle.ub_index.specs.Descending.{IsForgotten, Looks, LooksAt, StepsDown, StepsTo};
ghost use Rattle.ub_index.specs.Fitting.{FallsTo, FitsAtEnds, IsUnfit, IsUnfitAtEnds};
ghost use Rattle.ub_index.specs.Held.{AreChecked, WasChecked};
ghost use Rattle.ub_index.specs.Index.{Fits, NamesFitting, first_or, top};
ghost use Rattle.ub_index.specs.Opening.{IsPassing};
ghost use Rattle.ub_index.specs.Searching.{Aims, IsAim, IsAimless, at_least};
ghost use Rattle.ub_page.specs.Index.{head_on, node_on};
ghost use Rattle.ub_page.specs.Slots.{IsSlot, entry_in};
ghost use Rattle.ub_index.specs.Way.{HoldsKey};
ghost use Rattle.ub_store.specs.Facts.{IsHonest};
ghost use Rattle.ub_table.specs.Keys.{IsBefore};

use crate::fault::IndexFault;
use crate::goal::{Goal, aimed_at};
use ub_page::{
    Entry, Head, MAX_ENTRIES, Page, check_index, entry_at, first_at, read_head, slot_in,
};
use ub_region::{ORIGIN, is_equal};
use ub_store::{PageStore, Pager};
use ub_table::{Key, PageFault};

/// A place on the way down: an entry, and where the next one of its level begins.
#[derive(Clone, Copy, PartialEq, Eq, Debug)]
pub struct Place {
    pub entry: Entry,
    pub next: Option<Key>,
}

/// A leaf on the way to a key: the place that names it, and the least key, if there is one, at which the way would go on
/// elsewhere from one of the pages above it.
#[derive(Clone, Copy)]
pub struct Leaf {
    pub place: Place,
    pub until: Option<Key>,
}

/// What a search finds on the leaf of a region, behind that region.
#[derive(Clone, Copy)]
pub enum Found {
    /// Nothing that it goes on to.
    Nothing,
    /// Where the next region begins, and the place on this leaf to which the search falls that goes on from there.
    Here(Key, Place),
    /// Where the next region begins, and the key of another leaf to which the search goes down that goes on from there.
    Beyond(Key, Key),
}

/// The place of a root.
pub fn root_place(root: u32) -> Place
    ensures { result ≡ record { entry = top root; next = None } }
{
    Place {
        entry: Entry {
            first: ORIGIN,
            page: root,
        },
        next: None,
    }
}

/// Brings the page that the entry of a place of this level names, and checks it in full, held or not. What its first bytes tell
/// comes where it fits there; the pager then holds it. It forgets a page that is refused.
pub fn bring_fitting<S: PageStore>(
    pager: &mut Pager<S>,
    last: u128,
    level: u32,
    place: &Place,
) -> Result<Head, IndexFault>
    ensures exact { IsHonest pager.old.store → NamesFitting last pager.old.store.pages
        level place.now.entry place.now.next → IfErr result IsPassing }
    ensures effect { BringsFitting last level place.now.entry place.now.next
        pager.old pager.new result }
{
    let page = place.entry.page;
    pager.bring(page)?;
    match fits(pager.cached(page), last, level, place) {
        Ok(head) => Ok(head),
        Err(fault) => {
            pager.forget(page);
            Err(IndexFault::Page { page, fault })
        }
    }
}

/// The same of the page of a root.
pub fn bring_root<S: PageStore>(
    pager: &mut Pager<S>,
    last: u128,
    level: u32,
    root: u32,
) -> Result<Head, IndexFault>
    ensures exact { IsHonest pager.old.store → NamesFitting last pager.old.store.pages
        level (top root) None → IfErr result IsPassing }
    ensures effect { BringsFitting last level (top root) None pager.old pager.new result }
{
    bring_fitting(pager, last, level, &root_place(root))
}

/// Brings the page that the entry of a place of this level names, and checks it: in full, if it was read, and of one that was
/// held its ends. What its first bytes tell comes where it fits there; the pager then holds it. It forgets a page that is refused.
pub fn bring_next<S: PageStore>(
    pager: &mut Pager<S>,
    last: u128,
    level: u32,
    place: &Place,
) -> Result<Head, IndexFault>
    ensures { BringsNext last level place.now.entry place.now.next pager.old pager.new result }
{
    let page = place.entry.page;
    let is_read = pager.bring(page)?;
    match fits_so(pager.cached(page), is_read, last, level, place) {
        Ok(head) => Ok(head),
        Err(fault) => {
            pager.forget(page);
            Err(IndexFault::Page { page, fault })
        }
    }
}

/// Goes down from a place of this level to that of the level below to which the key falls. Reads the page that the entry names,
/// if it isn't held, and then checks it in full; of a page that is held its ends are looked at. The pager forgets a page that is
/// refused.
pub fn step_down<S: PageStore>(
    pager: &mut Pager<S>,
    last: u128,
    level: u32,
    place: &Place,
    key: &Key,
) -> Result<Place, IndexFault>
    requires { HoldsKey key.now place.now.entry.first place.now.next }
    ensures holds { IfOk result (λ below. HoldsKey key.now below.entry.first below.next) }
    ensures below { IsHonest pager.old.store → AreChecked last pager.old → IfOk result
        (λ below. StepsTo last pager.old.store key.now level place.now.entry place.now.next
        below.entry below.next) }
    ensures forgotten { IfErr result (IsForgotten pager.new) }
    ensures effect { StepsDown last level place.now.entry place.now.next pager.old pager.new
        result }
{
    let head = bring_next(pager, last, level, place)?;
    let page = pager.cached(place.entry.page);
    Ok(fall(page, head.count, key, place.next))
}

/// Looks on a leaf for what comes behind the region of a key: where the next region begins, and where a search with this goal
/// goes on from there. Reads the leaf, if it isn't held. The pager forgets it where it is refused.
pub fn look<S: PageStore>(
    pager: &mut Pager<S>,
    last: u128,
    leaf: &Leaf,
    key: &Key,
    goal: &Goal,
) -> Result<Found, IndexFault>
    ensures looks { AreChecked last pager.old → IfOk result
        (LooksAt last pager.old.store (Aims goal.now) key.now leaf.now) }
    ensures forgotten { IfErr result (IsForgotten pager.new) }
    ensures effect { StepsDown last 1 leaf.now.place.entry leaf.now.place.next pager.old pager.new
        result }
{
    let head = bring_next(pager, last, 1, &leaf.place)?;
    let page = pager.cached(leaf.place.entry.page);
    Ok(looked(page, head.count, last, leaf, key, goal))
}

// What is found on the page of a leaf, among its entries, which are so many.
fn looked(page: &Page, count: usize, last: u128, leaf: &Leaf, key: &Key, goal: &Goal) -> Found
    requires count { count ≡ (head_on page.now).count }
    requires some { 1 ≤ count }
    requires few { count ≤ MAX_ENTRIES }
    ensures { Looks last (Aims goal.now) (node_on page.now).entries key.now leaf.now result }
{
    let end = leaf.place.next;
    let slot = slot_in(page, count, key);
    let Some(from) = place_in(page, count, slot, end).next else {
        return Found::Nothing;
    };
    match aim(goal, last, &from) {
        None => Found::Nothing,
        Some(aim) if ends_before(&aim, &leaf.until) => {
            let slot = slot_behind(page, count, slot, &aim);
            Found::Here(from, place_in(page, count, slot, end))
        }
        Some(aim) => Found::Beyond(from, aim),
    }
}

/// The key to which a search with this goal goes down that goes on from a key, in a space with this last address, if there is
/// one.
pub fn aim(goal: &Goal, last: u128, from: &Key) -> Option<Key>
    ensures found { IfSome result (IsAim last (Aims goal.now) from.now) }
    ensures none { result ≡ None → IsAimless last (Aims goal.now) (Some from.now) }
{
    match aimed_at(goal, from) {
        Some(z) if z <= last => Some(later_of(from, z)),
        _ => None,
    }
}

// The least key of the address z, or the key `from` if this is later.
fn later_of(from: &Key, z: u128) -> Key
    ensures { result ≡ at_least from.now z }
{
    let least = Key { z, number: 0 };
    if least.is_before(from) { *from } else { least }
}

// What the first bytes tell of a page that fits the place from which an entry names it: one that was read now is checked in
// full, and of one that was held its ends are, which is enough where it was checked before.
fn fits_so(
    page: &Page,
    is_read: bool,
    last: u128,
    level: u32,
    place: &Place,
) -> Result<Head, PageFault>
    ensures head { IfOk result (λ head. head ≡ head_on page.now) }
    ensures ends { IfOk result (λ _. FitsAtEnds page.now level place.now.entry place.now.next) }
    ensures found { WasChecked is_read last page.now
        → IfOk result (λ _. Fits last page.now level place.now.entry place.now.next) }
    ensures refused { WasChecked is_read last page.now
        → IfErr result (IsUnfit last page.now level place.now.entry place.now.next) }
{
    if is_read {
        fits(page, last, level, place)
    } else {
        fits_at_ends(page, level, place)
    }
}

// What the first bytes tell of a page that fits the place from which an entry names it, all bytes of which are looked at. It
// is refused by its reader, or else as `fits_at_ends` refuses it.
fn fits(page: &Page, last: u128, level: u32, place: &Place) -> Result<Head, PageFault>
    ensures head { IfOk result (λ head. head ≡ head_on page.now) }
    ensures found { IfOk result
        (λ _. Fits last page.now level place.now.entry place.now.next) }
    ensures ends { IfOk result (λ _. FitsAtEnds page.now level place.now.entry place.now.next) }
    ensures exact { Fits last page.now level place.now.entry place.now.next → IsOk result }
    ensures refused { IfErr result
        (IsUnfit last page.now level place.now.entry place.now.next) }
{
    check_index(last, page)?;
    fits_at_ends(page, level, place)
}

// What the first bytes tell of a page, in constant time, where they and its first and its last entry fit the place from which
// an entry names it. It is refused as WrongKind or BadCount by its head; as BadCount where it is of another level; as
// OutOfRegion where it doesn't begin with the entry's key, or doesn't end before the next one.
fn fits_at_ends(page: &Page, level: u32, place: &Place) -> Result<Head, PageFault>
    ensures head { IfOk result (λ head. head ≡ head_on page.now) }
    ensures found { IfOk result
        (λ _. FitsAtEnds page.now level place.now.entry place.now.next) }
    ensures exact { FitsAtEnds page.now level place.now.entry place.now.next → IsOk result }
    ensures refused { IfErr result
        (IsUnfitAtEnds page.now level place.now.entry place.now.next) }
{
    let head = read_head(page)?;
    if head.level != level {
        return Err(PageFault::BadCount);
    }
    if !is_equal(&first_at(page, 0), &place.entry.first) {
        return Err(PageFault::OutOfRegion);
    }
    if !ends_before(&first_at(page, head.count - 1), &place.next) {
        return Err(PageFault::OutOfRegion);
    }
    Ok(head)
}

/// The earlier one of two ends, if there is one.
pub fn earlier(a: &Option<Key>, b: &Option<Key>) -> Option<Key>
    ensures { (k : Key) → IfSome result (IsBefore k)
        ↔ (IfSome a.now (IsBefore k) × IfSome b.now (IsBefore k)) }
{
    match a {
        Some(key) if ends_before(key, b) => *a,
        _ => *b,
    }
}

/// Whether a key is before the end, if there is one.
pub fn ends_before(key: &Key, end: &Option<Key>) -> bool
    ensures { IsTrue result ↔ IfSome end.now (IsBefore key.now) }
{
    match end {
        Some(end) => key.is_before(end),
        None => true,
    }
}

// The place to which a key falls among the entries of a page, which are so many, and end before `end`.
fn fall(page: &Page, count: usize, key: &Key, end: Option<Key>) -> Place
    requires count { count ≡ (head_on page.now).count }
    requires some { 1 ≤ count }
    requires few { count ≤ MAX_ENTRIES }
    ensures { FallsTo key.now (node_on page.now).entries end result.entry result.next }
{
    place_in(page, count, slot_in(page, count, key), end)
}

/// The place in a slot, to which each key falls that falls to this slot.
pub fn place_in(page: &Page, count: usize, slot: usize, end: Option<Key>) -> Place
    requires count { count ≡ (head_on page.now).count }
    requires within { slot < count }
    requires few { count ≤ MAX_ENTRIES }
    ensures entry { result.entry ≡ entry_in slot page.now }
    ensures falls { (key : Key) → IsSlot key count page.now slot
        → FallsTo key (node_on page.now).entries end result.entry result.next }
{
    Place {
        entry: entry_at(page, slot),
        next: first_after(page, count, slot, end),
    }
}

/// The slot to which a key falls: the one behind this slot, as it mostly is where a search goes on, or else it is found by
/// halving.
pub fn slot_behind(page: &Page, count: usize, slot: usize, key: &Key) -> usize
    requires within { slot < count }
    requires few { count ≤ MAX_ENTRIES }
    ensures { IsSlot key.now count page.now result }
{
    if is_slot(page, count, slot + 1, key) {
        slot + 1
    } else {
        slot_in(page, count, key)
    }
}

// Whether a key falls to this slot, which isn't the first.
fn is_slot(page: &Page, count: usize, slot: usize, key: &Key) -> bool
    requires later { 1 ≤ slot }
    requires few { count ≤ MAX_ENTRIES }
    ensures { IsTrue result ↔ IsSlot key.now count page.now slot }
{
    slot < count
        && !key.is_before(&first_at(page, slot))
        && (slot + 1 == count || key.is_before(&first_at(page, slot + 1)))
}

/// Where the entry after that of a slot begins, or else the end.
pub fn first_after(page: &Page, count: usize, slot: usize, end: Option<Key>) -> Option<Key>
    requires count { count ≡ (head_on page.now).count }
    requires within { slot < count }
    requires few { count ≤ MAX_ENTRIES }
    ensures { result ≡ first_or (drop (slot + 1) (node_on page.now).entries) end }
{
    if slot + 1 < count {
        Some(first_at(page, slot + 1))
    } else {
        end
    }
}
