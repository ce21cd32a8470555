// How a change goes down an index, and back up: what each page on the way becomes.
ghost use Rattle.std.specs.Prelude.{◌≡◌, ◌+◌, ◌<◌, ◌≤◌, IfErr, IfOk, OnOk, length, take, drop};
ghost use Rattle.ub_index_change.specs.Changing.{OpensTo, TurnsAt};
ghost use Rattle.ub_index.specs.Descending.{IsForgotten, Steps};
ghost use Rattle.ub_index.specs.Fitting.{FallsTo};
ghost use Rattle.ub_index.specs.Index.{first_or};
ghost use Rattle.ub_page.specs.Index.{head_on, node_on};
ghost use Rattle.ub_page.specs.declared.header.TheConstants.{MAX_LEVEL};
ghost use Rattle.ub_page.specs.declared.entries.TheConstants.{MAX_ENTRIES};
ghost use Rattle.ub_store.specs.Facts.{IsHonest, page_count};

use crate::sheets::Sheets;
use crate::told::{Told, with_added};
use std::alloc::{AllocError, Global};
use ub_index::{IndexFault, Place, bring_fitting};
use ub_page::entries::read_entries;
use ub_page::{Entry, MAX_ENTRIES, Page, entry_at, slot_in};
use ub_store::{PageStore, Pager};
use ub_table::Key;

/// What a change is made of: the key that falls to the region's entry, and the one that comes behind it, or `None` where it
/// goes.
#[derive(Clone, Copy)]
pub struct Aim {
    pub key: Key,
    pub added: Option<Entry>,
}

/// The entries of a page on the way down: those before the one to which the key falls, its place, and those after it.
#[derive(Drop)]
pub struct Opened {
    pub before: Vec<Entry>,
    pub below: Place,
    pub after: Vec<Entry>,
}

/// What an entry of this level becomes, and the pages that it then leads to. Reads the pages on the way to the region's entry, and
/// forgets one that is refused; writes nothing. It calls itself once a level.
pub fn turn<S: PageStore>(
    alloc: Global,
    pager: &mut Pager<S>,
    last: u128,
    level: u32,
    place: &Place,
    aim: &Aim,
    sheets: &mut Sheets,
) -> Result<Told, IndexFault>
    requires high { level ≤ MAX_LEVEL }
    requires there { page_count pager.old.store ≤ sheets.old.next }
    ensures { TurnsAt last level aim.now.key aim.now.added place.now.entry place.now.next
        sheets.old sheets.new pager.old pager.new result }
{
    if level == 0 {
        return Ok(with_added(aim.added, &place.entry));
    }
    let opened = open(alloc, pager, last, level, place, &aim.key)?;
    let news = turn(alloc, pager, last, level - 1, &opened.below, aim, sheets)?;
    let below = opened.below.entry;
    sheets.mend(
        level,
        &place.entry,
        opened.before,
        &below,
        &opened.after,
        news,
    )
}

// The entries of the page that a place of this level names, around the one to which the key falls.
fn open<S: PageStore>(
    alloc: Global,
    pager: &mut Pager<S>,
    last: u128,
    level: u32,
    place: &Place,
    key: &Key,
) -> Result<Opened, IndexFault>
    ensures opened { IsHonest pager.old.store → IfOk result (λ o. OpensTo last
        pager.old.store.pages key.now level place.now.entry place.now.next
        o.before.items o.below.entry o.below.next o.after.items) }
    ensures few { IfOk result (λ o. length o.before.items + length o.after.items < MAX_ENTRIES) }
    ensures there { OnOk result (place.now.entry.page < page_count pager.old.store) }
    ensures forgotten { IfErr result (IsForgotten pager.new) }
    ensures effect { Steps last level place.now.entry place.now.next pager.old pager.new result }
{
    let head = bring_fitting(pager, last, level, place)?;
    let page = pager.cached(place.entry.page);
    Ok(opened_at(alloc, page, head.count, key, place.next)?)
}

// The entries of a page, which are so many and end before `end`, around the one to which the key falls.
fn opened_at(
    alloc: Global,
    page: &Page,
    count: usize,
    key: &Key,
    end: Option<Key>,
) -> Result<Opened, AllocError>
    requires count { count ≡ (head_on page.now).count }
    requires some { 1 ≤ count }
    requires few { count ≤ MAX_ENTRIES }
    ensures falls { IfOk result (λ o. (falls : FallsTo key.now (node_on page.now).entries end
        o.below.entry o.below.next) × (falls.before ≡ o.before.items) × (falls.after ≡ o.after.items)) }
    ensures few { IfOk result (λ o. length o.before.items + length o.after.items < MAX_ENTRIES) }
{
    let slot = slot_in(page, count, key);
    let held = read_entries(page, count);
    let (before, after) = around(alloc, held.as_slice(), slot)?;
    let below = Place {
        entry: entry_at(page, slot),
        next: first_of(&after, end),
    };
    Ok(Opened {
        before,
        below,
        after,
    })
}

// Where these entries begin, or else the end.
fn first_of(entries: &[Entry], end: Option<Key>) -> Option<Key>
    ensures { result ≡ first_or entries.now end }
{
    match entries.first() {
        Some(entry) => Some(entry.first),
        None => end,
    }
}

// The entries before a slot, and those after it.
fn around(
    alloc: Global,
    entries: &[Entry],
    slot: usize,
) -> Result<(Vec<Entry>, Vec<Entry>), AllocError>
    requires within { slot < length entries.now }
    requires few { length entries.now ≤ MAX_ENTRIES }
    ensures before { IfOk result (λ parts. parts.0.items ≡ take slot entries.now) }
    ensures after { IfOk result (λ parts. parts.1.items ≡ drop (slot + 1) entries.now) }
    ensures few { IfOk result (λ parts. length parts.0.items + length parts.1.items < MAX_ENTRIES) }
{
    let mut before = Vec::with_capacity(alloc, slot + 2)?;
    before.extend_from_slice(&entries[..slot])?;
    let mut after = Vec::new(alloc);
    after.extend_from_slice(&entries[slot + 1..])?;
    Ok((before, after))
}
