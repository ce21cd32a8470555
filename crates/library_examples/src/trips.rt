// A UB-tree over any store: rows go in, a row goes out, and what meets a box is read.
ghost use Rattle.std.specs.Prelude.{◌≡◌, ◌+◌, length, IfOk, IfSome, OnOk, option_copied};
ghost use Rattle.ub_store.specs.Facts.{IsHonest, page_count};
ghost use Rattle.ub_tree.specs.Calls.{StandsAt};
ghost use Rattle.ub_tree.specs.Spans.{First, IsLater, Meets};
ghost use Rattle.ub_tree.specs.View.{IsSound, spans_of};

use crate::sorted::box_between;
use std::alloc::{AllocError, Global};
use ub_bigmin::ZBox;
use ub_page::RegionPage;
use ub_store::PageStore;
use ub_table::{Key, Name, PageFault, Schema};
use ub_tree::{ReadFault, Region, Tree, TreeFault};

/// How many columns the table has.
pub const COLUMNS: usize = 3;

/// A row: its day and its zone are dimensions, its fare is a measure.
#[derive(Clone, Copy)]
pub struct Trip {
    pub day: u32,
    pub zone: u32,
    pub fare: i64,
}

// A table of two dimensions and a measure, with at most four rows on a page.
fn schema() -> Result<Schema, PageFault>
    ensures { IfOk result (λ s. (s.dims ≡ 2) × (length s.columns ≡ COLUMNS)) }
{
    let columns = [Name::new(b"day")?, Name::new(b"zone")?, Name::new(b"fare")?];
    Schema::new(Name::new(b"trips")?, &columns, 2, 4, 0)
}

/// A tree of these rows over a store that has no pages. It is sound where the store is honest.
pub fn tree_of<S: PageStore>(alloc: Global, store: S, trips: &[Trip]) -> Result<Tree<S>, TreeFault>
    requires { page_count (S.facts store) ≡ 0 }
    ensures columns { IfOk result (λ t. length t.schema.columns ≡ COLUMNS) }
    ensures sound { IsHonest (S.facts store) → IfOk result
        (λ t. IsSound t × (t.rows ≡ length trips.now)) }
{
    let Ok(schema) = schema() else {
        return Err(TreeFault::Full);
    };
    let mut tree = match Tree::create(alloc, store, &schema) {
        Ok(tree) => tree,
        Err(refused) => return Err(refused.fault),
    };
    put(&mut tree, trips)?;
    Ok(tree)
}

// Puts rows in, one after the other. A sound tree stays sound.
fn put<S: PageStore>(tree: &mut Tree<S>, trips: &[Trip]) -> Result<(), TreeFault>
    requires dims { tree.old.schema.dims ≡ 2 }
    requires columns { length tree.old.schema.columns ≡ COLUMNS }
    ensures schema { tree.new.schema ≡ tree.old.schema }
    ensures sound { IsSound tree.old → OnOk result
        (IsSound tree.new × (tree.new.rows ≡ tree.old.rows + length trips.now)) }
{
    for trip in trips {
        tree.insert(&[trip.day, trip.zone], &[trip.fare])?;
    }
    Ok(())
}

/// The first region later than `after` that meets one of the boxes, whose rows are then in `page`; none where a sound tree has no more.
pub fn next_rows<S: PageStore>(
    tree: &mut Tree<S>,
    boxes: &[ZBox],
    after: Option<&Region>,
    page: &mut RegionPage,
) -> Result<Option<Region>, TreeFault>
    ensures found { IsSound tree.old → IfOk result
        (λ found. First (λ r. IsLater (option_copied after.entry) r × Meets boxes.now r)
        (spans_of tree.old) found) }
    ensures rows { IsSound tree.old → IfOk result
        (λ found. IfSome found (λ r. StandsAt tree.old.placed r.page page.new.region)) }
{
    let found = tree.next_meeting(boxes, after)?;
    if let Some(region) = &found {
        tree.read_region(region, page)?;
    }
    Ok(found)
}

// Adds a line for each row of a region that lies in the box.
fn add_rows(lines: &mut String, page: &RegionPage, zbox: &ZBox) -> Result<(), AllocError> {
    let shape = page.shape();
    for i in 0..page.len() {
        let row = page.row(i);
        if zbox.holds(row.key(shape).z) {
            let [day, zone, _, _] = row.dims;
            let fare = row.measures[0];
            write!(lines, "day {day} zone {zone} fare {fare}\n")?;
        }
    }
    Ok(())
}

/// Twenty trips, of five days and four zones.
pub fn trips() -> [Trip; 20] {
    let mut trips = [Trip {
        day: 0,
        zone: 0,
        fare: 0,
    }; 20];
    for i in 0..20u32 {
        let number = i + 1;
        trips[i as usize] = Trip {
            day: number % 5,
            zone: number % 4,
            fare: i64::from(number) * 100,
        };
    }
    trips
}

/// The trips of the days 1 to 3 in the zones 2 and 3, without the one that is taken out.
pub fn in_zones<S: PageStore>(alloc: Global, tree: &mut Tree<S>) -> Result<String, ReadFault> {
    let mut lines = String::new(alloc);
    // The seventh row lies at day 2 and zone 3, whose address is 13.
    tree.remove(Key { z: 13, number: 7 })?;
    let Some(zbox) = box_between([1, 2], [3, 3]) else {
        return Ok(lines);
    };
    let mut page = tree.empty_region();
    let mut after = None;
    // A tree answers no more regions than it has.
    for _ in 0..tree.regions() {
        let Some(region) = next_rows(tree, &[zbox], after.as_ref(), &mut page)? else {
            break;
        };
        add_rows(&mut lines, &page, &zbox)?;
        after = Some(region);
    }
    Ok(lines)
}
