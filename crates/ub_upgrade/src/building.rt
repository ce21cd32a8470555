// An index that is built of an old directory, behind all pages of the new store, level by level.
ghost use Rattle.std.specs.Prelude.{◌≤◌, ◌<◌, ℕ, List, MatchResult, IfOk};
ghost use Rattle.ub_region.specs.declared.entry.Entry as spec;
ghost use Rattle.ub_store.specs.Facts.{IsHonest, page_count};
ghost use Rattle.ub_upgrade.specs.Building.{AreLeaves, BuildsOver, HasBuilt, IsBuilt, IsPassing};
ghost use Rattle.ub_laying.specs.Levels.{PutsLevel, PutsRoot, index_pages, pages_for};
ghost use Rattle.ub_upgrade.specs.Reading.{AreBelow, IsDirectory, heading_of};

use crate::chain::{Heading, Place, place_behind, read_part};
use crate::fault::UpgradeFault;
use ub_laying::{Level, Root, add_index_page, write_levels};
use ub_store::{Page, PageStore, Pager};
use ub_table::Schema;

/// Reads the directory of a table of format 1, whose header tells of this schema, of this page on which the directory begins, and
/// of so many regions, and puts the index of the same entries behind the pages of the new store, of which there is one at least: on
/// a page for each page of the directory, and level by level on one for each 170 of the level below. Each page of the directory is
/// read once, into the page that is lent, and no other page of the old store is. Over honest stores whose old pages hold such a
/// directory only want of memory, a failure of a store, and want of numbers for pages refuse it.
///
/// Page comes where a page of the old store is refused: by its reader; as BadCount where a page of the directory has not as many
/// entries as it must (170, or on the last page the rest of those that the header counts), names no page and is not the last, or
/// names one and is; as BadOrder where its first entry does not begin after the last entry of the page before, or on the first page
/// with the least key of all. Old with NoPage comes where a page is named that the old store does not have, as a page of the
/// directory or as a region's; New with BadSize where the new store would have more than 4294967295 pages. Device comes with the
/// store that failed in this call, Memory with the one for which memory was refused. The pages that the new store had are as they
/// were, also after a fault, and others may stand after them.
pub fn build_index<O: PageStore, S: PageStore>(
    old: &mut O,
    pager: &mut Pager<S>,
    schema: &Schema,
    root: u32,
    regions: u32,
    page: &mut Page,
) -> Result<Root, UpgradeFault>
    requires root { 1 ≤ root }
    requires regions { 1 ≤ regions }
    requires first { 1 ≤ page_count pager.old.store }
    ensures built { IsHonest (O.facts old.old) → IsHonest pager.old.store
        → IfOk result (IsBuilt (heading_of schema.now.dims root regions)
        (O.facts old.old) pager.old.store pager.new.store) }
    ensures exact { (chain : List ℕ) (entries : List spec.Entry)
        → IsHonest (O.facts old.old) → IsHonest pager.old.store
        → IsDirectory (O.facts old.old).pages (heading_of schema.now.dims root regions)
        chain entries
        → AreBelow (page_count (O.facts old.old)) entries
        → MatchResult result (λ made. HasBuilt (heading_of schema.now.dims root regions)
        pager.old.store pager.new.store made entries) IsPassing }
    ensures rooted { PutsRoot (index_pages regions) pager.old.store pager.new.store result }
    ensures over { BuildsOver (heading_of schema.now.dims root regions) (O.facts old.old)
        (O.facts old.new) pager.old pager.new result }
{
    // Its contract tells the proof how many pages there can be.
    let _pages = old.pages();
    let heading = Heading {
        schema,
        root,
        regions,
    };
    let leaves = write_leaves(old, pager, &heading, page)?;
    match write_levels(pager, leaves) {
        Ok(root) => Ok(root),
        Err(fault) => Err(UpgradeFault::New(fault)),
    }
}

// Puts the lowest level of the index: a page for each page of the directory.
fn write_leaves<O: PageStore, S: PageStore>(
    old: &mut O,
    pager: &mut Pager<S>,
    heading: &Heading,
    page: &mut Page,
) -> Result<Level, UpgradeFault>
    requires root { 1 ≤ heading.now.root }
    requires small { heading.now.root < 4294967296 }
    requires regions { 1 ≤ heading.now.regions }
    requires few { heading.now.regions < 4294967296 }
    ensures level { PutsLevel (pages_for heading.now.regions) pager.old.store pager.new.store
        result }
    ensures leaves { IsHonest (O.facts old.old) → IsHonest pager.old.store
        → IfOk result (λ low. AreLeaves heading.now (O.facts old.old) pager.new.store.pages low) }
    ensures over { BuildsOver heading.now (O.facts old.old) (O.facts old.new) pager.old pager.new
        result }
{
    let first = pager.pages();
    let mut place = Place {
        met: 0,
        last: None,
        next: heading.root,
    };
    while place.met < heading.regions {
        let part = read_part(old, heading, &place, page)?;
        if let Err(fault) = add_index_page(pager, part.entries(), 1) {
            return Err(UpgradeFault::New(fault));
        }
        place = place_behind(&place, &part);
    }
    Ok(Level {
        first,
        count: pager.pages() - first,
    })
}
