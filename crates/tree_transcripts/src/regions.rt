use crate::reply::{NONE, UNKNOWN};
use crate::told::Told;
use crate::words::Words;
use ub_bigmin::ZBox;
use ub_page::RegionPage;
use ub_store::PageStore;
use ub_table::{Key, Schema};
use ub_tree::{Region, Tree, TreeFault};
use ub_zaddr::{Point, Shape, last};

/// Whether there is a region that ends at an address or later.
pub fn seek<S: PageStore>(tree: &mut Tree<S>, z: u128, told: &mut Told) {
    match tree.seek(z, None) {
        Ok(Some(_)) => told.put("ok"),
        Ok(None) => told.put(NONE),
        Err(fault) => told.fault(fault),
    }
}

/// The span of the region that ends at an address or later, and its first row and its last, read from its page or from another one.
/// The word for the last address is `last`; `span least on 1` is the least key alone, with no search before it.
pub fn span<S: PageStore>(tree: &mut Tree<S>, words: &mut Words<'_>, told: &mut Told) {
    match sought(tree, words) {
        Ok(Some(region)) => {
            let page = match words.word() {
                "on" => words.short(),
                _ => region.page,
            };
            held(tree, &Region { page, ..region }, told);
        }
        Ok(None) => told.put(NONE),
        Err(fault) => told.fault(fault),
    }
}

// The span of a region, and the first row and the last that its page has.
fn held<S: PageStore>(tree: &mut Tree<S>, region: &Region, told: &mut Told) {
    let mut held = tree.empty_region();
    match tree.read_region(region, &mut held) {
        Ok(()) => span_of(region, last_of(tree.schema()), &held, told),
        Err(fault) => told.fault(fault),
    }
}

// The words for them, where this is the last address.
fn span_of(region: &Region, end: u128, held: &RegionPage, told: &mut Told) {
    told.number(region.from);
    told.put("..");
    if region.to == end {
        told.put("last ");
    } else {
        told.number(region.to);
        told.put(" ");
    }
    rows(held, told);
}

// The numbers of the first row and the last of a region.
fn rows(held: &RegionPage, told: &mut Told) {
    let count = held.len();
    if count == 0 {
        return told.put("no row");
    }
    told.put("rows ");
    told.number(held.row(0).number as u128);
    told.put("..");
    told.number(held.row(count - 1).number as u128);
}

// The first region whose span ends at an address or later, by the word for that, or the region of the least key alone, on no page.
fn sought<S: PageStore>(
    tree: &mut Tree<S>,
    words: &mut Words<'_>,
) -> Result<Option<Region>, TreeFault> {
    let z = match words.word() {
        "least" => return Ok(Some(least())),
        "last" => last_of(tree.schema()),
        word => Words::new(word).number(),
    };
    tree.seek(z, None)
}

// The region of the least key alone, on no page.
fn least() -> Region {
    Region {
        first: Key { z: 0, number: 0 },
        next: None,
        from: 0,
        to: 0,
        page: 0,
    }
}

// The last address of a table.
fn last_of(schema: &Schema) -> u128 {
    last(schema.shape())
}

/// How many regions follow each other that meet the box from a corner with these coordinates on, and where the first and the last of
/// them begin; where all are walked, each is also the first one after the one before it.
pub fn meet<S: PageStore>(tree: &mut Tree<S>, low: u32, is_walk: bool, told: &mut Told) {
    let Some(corner) = box_from(low) else {
        return told.put(UNKNOWN);
    };
    match walked(tree, corner, is_walk) {
        Ok((count, first, end)) => {
            told.number(count as u128);
            told.put(" of ");
            told.number(tree.regions() as u128);
            told.put(" from ");
            told.number(first);
            told.put(" to ");
            told.number(end);
        }
        Err(fault) => told.fault(fault),
    }
}

// The same of a box, as numbers.
fn walked<S: PageStore>(
    tree: &mut Tree<S>,
    corner: ZBox,
    is_walk: bool,
) -> Result<(u32, u128, u128), TreeFault> {
    let mut after: Option<Region> = None;
    let (mut count, mut first, mut end) = (0u32, 0, 0);
    for turn in 0..=tree.regions() {
        let Some(region) = next_region(tree, corner, after.as_ref(), is_walk)? else {
            break;
        };
        if turn == 0 {
            first = region.from;
        }
        count = turn.saturating_add(1);
        end = region.from;
        after = Some(region);
    }
    Ok((count, first, end))
}

// The first region after another one that meets the box; where all regions are walked, `Full` if it isn't the first of all.
fn next_region<S: PageStore>(
    tree: &mut Tree<S>,
    corner: ZBox,
    after: Option<&Region>,
    is_walk: bool,
) -> Result<Option<Region>, TreeFault> {
    let met = tree.next_meeting(&[corner], after)?;
    if is_walk && tree.seek(0, after)? != met {
        return Err(TreeFault::Full);
    }
    Ok(met)
}

// The box of the points of two dimensions both of whose coordinates are at least this.
fn box_from(low: u32) -> Option<ZBox> {
    let shape = Shape::new(2).ok()?;
    let lo = Point::new(shape, &[low; 2]).ok()?;
    let hi = Point::new(shape, &[u32::MAX; 2]).ok()?;
    ZBox::new(shape, &lo, &hi)
}
