// The lowest level of the index: what names the regions.
ghost use Rattle.std.specs.Prelude.{◌≡◌, ◌≤◌, ◌<◌, ◌+◌, ◌/◌, length, take, drop, IfOk};
ghost use Rattle.ub_laying.specs.Effects.{Adds};
ghost use Rattle.ub_laying.specs.Laying.{entries_from};
ghost use Rattle.ub_laying.specs.Levels.{Cut, PutsLeaves, most_leaves};
ghost use Rattle.ub_page.specs.declared.entries.TheConstants.{MAX_ENTRIES};
ghost use Rattle.ub_region.specs.Regions.{firsts_of};
ghost use Rattle.ub_store.specs.Facts.{IsHonest};

use crate::adding::add_index_page;
use crate::levels::Level;
use ub_growing::Grown;
use ub_page::{Entry, MAX_ENTRIES};
use ub_region::ORIGIN;
use ub_store::{PageStore, Pager, StoreFault};

// No entry yet.
const NO_ENTRY: Entry = Entry {
    first: ORIGIN,
    page: 0,
};

// How many entries a leaf has at least, but the last one.
const LEAST_ENTRIES: usize = MAX_ENTRIES / 2;

/// Puts the lowest level of the index of these regions, which stand on pages that follow each other from this number on: on each page
/// as many entries as the sizes tell, 85 to 170. On the last one are those that are left.
pub fn write_leaves<S: PageStore>(
    pager: &mut Pager<S>,
    grown: &Grown,
    from: u32,
    sizes: &[usize],
) -> Result<Level, StoreFault>
    requires { from + length grown.now < 4294967296 }
    ensures level { PutsLeaves (length grown.now) pager.old.store pager.new.store result }
    ensures cut { IsHonest pager.old.store
        → IfOk result (λ low. Cut pager.new.store.pages 1 low.first low.count
        (entries_from from (firsts_of grown.now))) }
    ensures effect { Adds (most_leaves (length grown.now)) pager.old pager.new result }
{
    let first = pager.pages();
    let mut entries = [NO_ENTRY; MAX_ENTRIES];
    let mut named = 0;
    while named < grown.len() {
        let leaf = (pager.pages() - first) as usize;
        let count = size_at(sizes, leaf, grown.len() - named);
        name_regions(grown, from, named, count, &mut entries);
        add_index_page(pager, &entries[..count], 1)?;
        named += count;
    }
    Ok(Level {
        first,
        count: pager.pages() - first,
    })
}

// How many entries a leaf gets where so many regions are left: as many as its size tells. Nothing is promised of the sizes, so that
// they are held here to what a page holds, and to half of that.
fn size_at(sizes: &[usize], leaf: usize, left: usize) -> usize
    requires { 1 ≤ left }
    ensures some { 1 ≤ result }
    ensures few { result ≤ MAX_ENTRIES }
    ensures within { result ≤ left }
    ensures full { result < left → MAX_ENTRIES / 2 ≤ result }
{
    let size = sizes.get(leaf).copied().unwrap_or(MAX_ENTRIES);
    size.max(LEAST_ENTRIES).min(MAX_ENTRIES).min(left)
}

// Puts the entries of so many regions, behind this many of those that stand on pages from this one on, before the others.
fn name_regions(
    grown: &Grown,
    from: u32,
    named: usize,
    count: usize,
    entries: &mut [Entry; MAX_ENTRIES],
)
    requires few { count ≤ MAX_ENTRIES }
    requires there { named + count ≤ length grown.now }
    requires small { from + (named + count) < 4294967296 }
    ensures { take count entries.new
        ≡ entries_from (from + named) (take count (drop named (firsts_of grown.now))) }
{
    for i in 0..count {
        let index = named + i;
        entries[i] = Entry {
            first: grown.first(index),
            page: from + index as u32,
        };
    }
}
