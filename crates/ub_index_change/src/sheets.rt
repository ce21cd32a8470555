// The pages of an index that a change spells, before one of them is put.
ghost use Rattle.std.specs.Prelude.{◌≡◌, ◌+◌, ◌<◌, ◌≤◌, ◌++◌, ◌∷◌, [], length, IfOk, IfErr, OnOk, option_copied};
ghost use Rattle.ub_index_change.specs.Changing.{AreBelow, IsNamedBy, IsAtMostOne, NeedsNoGrowth, Mends, Spreads, IsSpreadFault, named_as, sheet_of, so_far};
ghost use Rattle.ub_index_change.specs.Lowering.{spelled_page};
ghost use Rattle.ub_page.specs.declared.header.TheConstants.{MAX_LEVEL};
ghost use Rattle.ub_page.specs.declared.entries.TheConstants.{MAX_ENTRIES};

use crate::sheet::Sheet;
use crate::told::{Told, is_unchanged};
use std::alloc::{AllocError, Global};
use std::marker::Model;
use ub_index::IndexFault;
use ub_page::{Draft, Entry, MAX_ENTRIES, Page, write_index};
use ub_region::is_equal;
use ub_store::StoreFault;

/// How many entries of a page that is parted stay on it, where it has one more than a page holds.
pub const LEFT_ENTRIES: usize = 86;

/// The pages that are spelled so far, in the order in which they are put, and the number of the next page that the store gets, which
/// is above all of theirs.
#[derive(Drop)]
pub struct Sheets {
    all: Vec<Sheet>,
    next: u32,
}

impl Model for Sheets {
    ghost use Rattle.std.specs.Prelude.{◌≤◌};
    ghost use Rattle.ub_index_change.specs.Changing.{AreBelow, Spelled, so_far};

    ghost Value = { Spelled };

    ghost view = { λ s. so_far s.all.items s.next };

    ghost invariant = { λ s. (s.next ≤ 4294967295) × AreBelow s.next s.all.items };
}

impl Sheets {
    /// No page yet; the next one that the store gets has this number.
    pub fn new(alloc: Global, next: u32) -> Sheets
        ensures { result ≡ so_far [] next }
    {
        Sheets {
            all: Vec::new(alloc),
            next,
        }
    }

    /// The pages that are spelled so far.
    pub fn all(&self) -> &[Sheet]
        ensures sheets { result.now ≡ self.now.sheets }
        ensures below { AreBelow self.now.next self.now.sheets }
    {
        self.all.as_slice()
    }

    /// The number of the next page that the store gets.
    pub fn next(&self) -> u32
        ensures { result ≡ self.now.next }
    {
        self.next
    }

    /// The first page that is spelled under this number, if one is.
    pub fn find(&self, number: u32) -> Option<&Page>
        ensures { option_copied result ≡ spelled_page self.now.sheets number }
    {
        for sheet in self.all.as_slice() {
            if sheet.number == number {
                return Some(&sheet.page);
            }
        }
        None
    }

    /// The number of a page more that the store gets. BadSize comes where it would have more than 4294967295.
    pub fn take_number(&mut self) -> Result<u32, IndexFault>
        ensures taken { IfOk result (λ n. (n ≡ self.old.next) × (n < 4294967295)
            × (self.new ≡ so_far self.old.sheets (n + 1))) }
        ensures refused { IfErr result (IsSpreadFault self.old) }
    {
        let number = self.next;
        if number == u32::MAX {
            return Err(IndexFault::Store(StoreFault::BadSize));
        }
        self.next = number + 1;
        Ok(number)
    }

    /// Spells the page of these entries, at most 170, on a level of at most 16, under this number, which the store has, or gets.
    pub fn spell(&mut self, number: u32, level: u32, entries: &[Entry]) -> Result<(), AllocError>
        requires there { number < self.old.next }
        requires few { length entries.now ≤ MAX_ENTRIES }
        requires high { level ≤ MAX_LEVEL }
        ensures { OnOk result (self.new ≡ so_far
            (self.old.sheets ++ sheet_of number level entries.now ∷ []) self.old.next) }
    {
        let mut draft = Draft::new();
        write_index(entries, level, &mut draft);
        let page = *draft.page();
        self.all.push(Sheet { number, page })?;
        Ok(())
    }

    /// Spells the pages of these entries of a level, at most 171, which stand from now on where an entry led, and tells by
    /// which entries they are named. They stand on its page; where they are 171, 86 do, and the others on a new one; no page is
    /// spelled where there are none. Memory comes where memory was refused, BadSize where the store would have too many pages.
    pub fn spread(
        &mut self,
        level: u32,
        entry: &Entry,
        entries: &[Entry],
    ) -> Result<Told, IndexFault>
        requires there { entry.now.page < self.old.next }
        requires few { length entries.now ≤ MAX_ENTRIES + 1 }
        requires high { level ≤ MAX_LEVEL }
        ensures told { IfOk result (Spreads level entry.now entries.now self.old self.new) }
        ensures narrow { length entries.now ≤ MAX_ENTRIES → NeedsNoGrowth result }
        ensures refused { IfErr result (IsSpreadFault self.old) }
    {
        if entries.is_empty() {
            return Ok(Told::Gone);
        }
        if entries.len() > MAX_ENTRIES {
            return self.part(level, entry, entries);
        }
        self.spell(entry.page, level, entries)?;
        Ok(named_anew(entry, &entries[0]))
    }

    // Spells 171 entries on two pages, the second before the first.
    fn part(&mut self, level: u32, entry: &Entry, entries: &[Entry]) -> Result<Told, IndexFault>
        requires there { entry.now.page < self.old.next }
        requires full { length entries.now ≡ MAX_ENTRIES + 1 }
        requires high { level ≤ MAX_LEVEL }
        ensures told { IfOk result (Spreads level entry.now entries.now self.old self.new) }
        ensures refused { IfErr result (IsSpreadFault self.old) }
    {
        let page = self.take_number()?;
        let (left, right) = entries.split_at(LEFT_ENTRIES);
        self.spell(page, level, right)?;
        self.spell(entry.page, level, left)?;
        Ok(Told::Two(
            Entry {
                first: left[0].first,
                page: entry.page,
            },
            Entry {
                first: right[0].first,
                page,
            },
        ))
    }

    /// Spells what stands from now on where an entry led, whose page has these entries before and after one that became `news`:
    /// at most 170 with it. Nothing is spelled where that one is as it was. Refused as `spread` is.
    pub fn mend(
        &mut self,
        level: u32,
        entry: &Entry,
        before: Vec<Entry>,
        below: &Entry,
        after: &[Entry],
        news: Told,
    ) -> Result<Told, IndexFault>
        requires there { entry.now.page < self.old.next }
        requires few { length before.items + length after.now < MAX_ENTRIES }
        requires high { level ≤ MAX_LEVEL }
        ensures told { IfOk result (Mends level entry.now before.items below.now after.now news
            self.old self.new) }
        ensures narrow { IsAtMostOne news → NeedsNoGrowth result }
        ensures fits { length before.items + length after.now + 2 ≤ MAX_ENTRIES
            → NeedsNoGrowth result }
        ensures refused { IfErr result (IsSpreadFault self.old) }
    {
        if is_unchanged(&news) {
            return Ok(Told::Same);
        }
        let entries = joined(before, below, after, news)?;
        self.spread(level, entry, &entries)
    }
}

// How a page is named that an entry named, and that begins with this one now.
fn named_anew(entry: &Entry, first: &Entry) -> Told
    ensures { IsNamedBy entry.now first.now.first result }
{
    if is_equal(&first.first, &entry.first) {
        Told::Same
    } else {
        Told::One(Entry {
            first: first.first,
            page: entry.page,
        })
    }
}

// The entries of a page, one of which became `news`.
fn joined(
    before: Vec<Entry>,
    below: &Entry,
    after: &[Entry],
    news: Told,
) -> Result<Vec<Entry>, AllocError>
    ensures { IfOk result (λ entries.
        entries.items ≡ before.items ++ (named_as news below.now ++ after.now)) }
{
    let mut entries = before;
    push_named(&mut entries, news, below)?;
    entries.extend_from_slice(after)?;
    Ok(entries)
}

// Puts the entries by which one is named from now on behind the others.
fn push_named(entries: &mut Vec<Entry>, news: Told, below: &Entry) -> Result<(), AllocError>
    ensures { OnOk result (entries.new.items ≡ entries.old.items ++ named_as news below.now) }
{
    match news {
        Told::Same => entries.push(*below)?,
        Told::Gone => {}
        Told::One(one) => entries.push(one)?,
        Told::Two(left, right) => {
            entries.push(left)?;
            entries.push(right)?;
        }
    }
    Ok(())
}
