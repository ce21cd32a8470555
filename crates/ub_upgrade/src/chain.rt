// The chain of pages of an old directory, read page by page; of what was read, only this is kept: how many regions it told of, where
// the last of them begins, and which page is named next.
ghost use Rattle.std.specs.Prelude.{◌≡◌, ◌≤◌, ◌<◌, ◌+◌, ◌-◌, ◌++◌, ◌↔◌, ℕ, List, length, slice_get, IfErr, IfOk, IsTrue};
ghost use Rattle.ub_page.specs.Directory.{IsListing, directory_page};
ghost use Rattle.ub_page.specs.Entries.{AreAscending};
ghost use Rattle.ub_region.specs.declared.entry.Entry as spec;
ghost use Rattle.ub_store.specs.Facts.{StoreFacts, page_count};
ghost use Rattle.ub_upgrade.specs.Building.{IsBuildFault, IsThere};
ghost use Rattle.ub_upgrade.specs.Effects.{counted_old};
ghost use Rattle.ub_upgrade.specs.Reading.{AreBegun, AreBelow, HasPart, IsMet, IsPartFault, IsReadUpTo, TellsPart, last_first};

use crate::fault::UpgradeFault;
use std::marker::Model;
use ub_page::entries::MAX_ENTRIES;
use ub_page::{Directory, Entry, Page, read_directory};
use ub_region::{ORIGIN, is_equal};
use ub_store::{PageStore, StoreFault};
use ub_table::{Key, PageFault, Schema};

/// What a header of format 1 tells of its directory: of the schema, the page on which it begins, and how many regions it has.
#[derive(Drop)]
pub struct Heading<'a> {
    pub schema: &'a Schema,
    pub root: u32,
    pub regions: u32,
}

impl<'a> Model for Heading<'a> {
    ghost use Rattle.ub_upgrade.specs.Reading.{HeadingView};

    ghost Value = { HeadingView };

    ghost view = { λ h. record { dims = h.schema.now.dims; root = h.root; regions = h.regions } };
}

/// A place between two pages of a directory.
#[derive(Clone, Copy)]
pub struct Place {
    /// How many regions the pages before told of.
    pub met: u32,
    /// Where the last of them begins, if there is one.
    pub last: Option<Key>,
    /// The page that comes next.
    pub next: u32,
}

/// Reads the page at a place into the one that is lent: what it tells of the directory there. It fits there, and the store has each
/// region's page.
pub fn read_part<O: PageStore>(
    old: &mut O,
    heading: &Heading,
    place: &Place,
    page: &mut Page,
) -> Result<Directory, UpgradeFault>
    requires { place.now.met < heading.now.regions }
    ensures tells { TellsPart heading.now.dims (O.facts old.old)
        (heading.now.regions - place.now.met) place.now.next result }
    ensures begun { (before : List spec.Entry) → AreBegun before → IsMet before place.now
        → IfOk result (λ part. AreBegun (before ++ part.entries)) }
    ensures refused { (chain : List ℕ) (before : List spec.Entry) (new : StoreFacts)
        → IsReadUpTo (O.facts old.old) heading.now chain before place.now.next
        → IsMet before place.now
        → IfErr result (IsBuildFault heading.now (O.facts old.old) new) }
    ensures there { IfErr result (IsThere (page_count (O.facts old.old))) }
    ensures effect { O.facts old.new ≡ record (O.facts old.old) {
      failed_reads = counted_old result (O.facts old.old).failed_reads;
    } }
{
    let number = place.next;
    let count = old.pages();
    if let Err(fault) = old.read_into(number, page) {
        return Err(UpgradeFault::Old(fault));
    }
    let part = match part_on(heading, place, page) {
        Ok(part) => part,
        Err(fault) => {
            return Err(UpgradeFault::Page {
                page: number,
                fault,
            });
        }
    };
    if !are_below(part.entries(), count) {
        return Err(UpgradeFault::Old(StoreFault::NoPage));
    }
    Ok(part)
}

// Whether each of these entries names a page below this number.
fn are_below(entries: &[Entry], count: u32) -> bool
    ensures { IsTrue result ↔ AreBelow count entries.now }
{
    for entry in entries {
        if entry.page >= count {
            return false;
        }
    }
    true
}

// What this page tells of the directory at a place.
fn part_on(heading: &Heading, place: &Place, page: &Page) -> Result<Directory, PageFault>
    requires more { place.now.met < heading.now.regions }
    ensures listing { IfOk result (λ part. IsListing heading.now.dims part
        × (page.now ≡ directory_page part)) }
    ensures part { IfOk result (HasPart (heading.now.regions - place.now.met)) }
    ensures begun { (before : List spec.Entry) → AreBegun before → IsMet before place.now
        → IfOk result (λ part. AreBegun (before ++ part.entries)) }
    ensures refused { (before : List spec.Entry) → AreBegun before → IsMet before place.now
        → IfErr result (IsPartFault heading.now before page.now) }
{
    let part = read_directory(heading.schema, page)?;
    if !has_part((heading.regions - place.met) as usize, &part) {
        return Err(PageFault::BadCount);
    }
    if !goes_on(place, part.entries()) {
        return Err(PageFault::BadOrder);
    }
    Ok(part)
}

// Whether a page of the directory tells of as many regions as it must, where so many are left, and names a page unless it is
// the last.
fn has_part(left: usize, part: &Directory) -> bool
    ensures { IsTrue result ↔ HasPart left part.now }
{
    part.entries().len() == left.min(MAX_ENTRIES) && (part.next() == 0) == (left <= MAX_ENTRIES)
}

// Whether the entries of a page come after those before a place.
fn goes_on(place: &Place, entries: &[Entry]) -> bool
    requires some { 1 ≤ length entries.now }
    requires ascending { AreAscending entries.now }
    ensures { (before : List spec.Entry) → AreBegun before → IsMet before place.now
        → IsTrue result ↔ AreBegun (before ++ entries.now) }
{
    let first = &entries[0].first;
    match &place.last {
        Some(last) => last.is_before(first),
        None => is_equal(first, &ORIGIN),
    }
}

/// The place behind the page at another one, which told this.
pub fn place_behind(place: &Place, part: &Directory) -> Place
    requires few { place.now.met + length part.now.entries < 4294967296 }
    requires some { 1 ≤ length part.now.entries }
    ensures met { (before : List spec.Entry) → IsMet before place.now
        → IsMet (before ++ part.now.entries) result }
    ensures next { result.next ≡ part.now.next }
{
    let entries = part.entries();
    Place {
        met: place.met + entries.len() as u32,
        last: Some(entries[entries.len() - 1].first),
        next: part.next(),
    }
}
