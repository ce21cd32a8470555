// How a change of an index is prepared: what it spells, and which page is the root from then on. Nothing is written.
ghost use Rattle.std.specs.Prelude.{◌≡◌, ◌≤◌, ◌⊎◌, None};
ghost use Rattle.ub_index_change.specs.Calls.{PreparesAddition, PreparesRemoval};
ghost use Rattle.ub_index_change.specs.Preparing.{PreparesFrom};
ghost use Rattle.ub_store.specs.Facts.{page_count};

use crate::change::Change;
use crate::sheets::Sheets;
use crate::told::Told;
use crate::turning::{Aim, turn};
use std::alloc::Global;
use ub_index::{Index, IndexFault, root_place};
use ub_page::Entry;
use ub_region::Region;
use ub_store::{PageStore, Pager};
use ub_table::{Key, PageFault};

/// Prepares that a region comes behind another one, with this first key, on a page that the store gets first. Nothing is written.
///
/// Refused as `Index::region_holding` is, each page on the way looked at in full, on the way to that one's first key. With
/// BadSize of the store exactly where it would have more than 4294967295 pages: the region takes one, each page of 170 entries on
/// that way one, from the lowest up to the first that has fewer, and a new root one, where all are full. With Full exactly where
/// that is room enough, and all 16 levels are full on that way. Where there is no page for the region, that is told before any is
/// read. Index and store are then as they were, and the pager has forgotten the page that is refused.
pub fn prepare_add<S: PageStore>(
    index: &Index,
    alloc: Global,
    pager: &mut Pager<S>,
    region: &Region,
    first: &Key,
) -> Result<Change, IndexFault>
    ensures { PreparesAddition index.now region.now first.now pager.old pager.new result }
{
    let start = pager.pages();
    let mut sheets = Sheets::new(alloc, start);
    let page = sheets.take_number()?;
    let aim = Aim {
        key: region.first,
        added: Some(Entry {
            first: *first,
            page,
        }),
    };
    prepare(index, alloc, pager, &aim, start, sheets)
}

/// Prepares that a region goes, which isn't the first. Nothing is written, and no page is added.
///
/// Refused as `Index::region_holding` is, each page on the way looked at in full, on the way to its first key, and where a page
/// that would be the root can't be taken; with BadCount of the root where no region would be left. Index and store are then as
/// they were, and the pager has forgotten the page that is refused.
pub fn prepare_drop<S: PageStore>(
    index: &Index,
    alloc: Global,
    pager: &mut Pager<S>,
    region: &Region,
) -> Result<Change, IndexFault>
    ensures { PreparesRemoval index.now region.now pager.old pager.new result }
{
    let start = pager.pages();
    let aim = Aim {
        key: region.first,
        added: None,
    };
    let sheets = Sheets::new(alloc, start);
    let change = prepare(index, alloc, pager, &aim, start, sheets)?;
    change.lowered(pager, index.last())
}

// Prepares a change, where the store has so many pages, and some may be spelled already: one at least that the store gets,
// where a region comes. BadCount of the root comes where nothing is left.
fn prepare<S: PageStore>(
    index: &Index,
    alloc: Global,
    pager: &mut Pager<S>,
    aim: &Aim,
    start: u32,
    sheets: Sheets,
) -> Result<Change, IndexFault>
    requires more { (aim.now.added ≡ None) ⊎ (1 ≤ sheets.next) }
    requires there { page_count pager.old.store ≤ sheets.next }
    ensures { PreparesFrom index.now aim.now.key aim.now.added start sheets pager.old pager.new
        result }
{
    let (root, levels) = index.root();
    let mut sheets = sheets;
    let place = root_place(root);
    let told = turn(alloc, pager, index.last(), levels, &place, aim, &mut sheets)?;
    if let Told::Gone = told {
        pager.forget(root);
        return Err(IndexFault::Page {
            page: root,
            fault: PageFault::BadCount,
        });
    }
    Change::settled(root, levels, told, start, sheets)
}
