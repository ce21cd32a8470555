ghost use Rattle.std.specs.Prelude.{◌≡◌, ◌+◌, ◌++◌, [], ◌∷◌, map, length, ◌≤◌, IfSome, IfOk, OnOk};
ghost use Rattle.std.specs.Option.{option_to_list};
ghost use Rattle.ub_boxes.specs.Boxes as spec;
ghost use Rattle.ub_boxes.specs.Truths as truth;
ghost use Rattle.ub_boxes.specs.Truths.{shape_of};
ghost use Rattle.ub_boxes.specs.inner.Fronts.{boxes_from, widened};
ghost use Rattle.ub_boxes.specs.inner.Sides.{AreFrom, AreSides};

use crate::cover::Cover;
use crate::front::Front;
use crate::interval::{Interval, are_too_many, grid};
use crate::truths::{covers, is_of_dimensions};
use std::alloc::{AllocError, Global};
use ub_bigmin::ZBox;
use ub_query::{Cond, Items};
use ub_table::Schema;

// Adds the boxes that have a front and a run of intervals of the last dimension.
fn add_runs(
    boxes: &mut Vec<ZBox>,
    filter: Option<&Cond>,
    schema: &Schema,
    front: &Front,
    side: &[Interval],
) -> Result<(), AllocError>
    requires dims { length front.now.lo + 1 ≡ schema.now.dims }
    requires side { AreFrom 0 side.now }
    ensures { OnOk result (boxes.new.items ≡ boxes.old.items
        ++ boxes_from (truth.covers schema.now (shape_of filter.entry)) front.now (side.now ∷ [])) }
{
    let mut run: Option<Interval> = None;
    for interval in side {
        if covers(filter, schema, front.widened(*interval).lo()) {
            let low = run.map_or(interval.low, |open| open.low);
            run = Some(Interval {
                low,
                high: interval.high,
            });
        } else {
            add_run(boxes, schema, front, run)?;
            run = None;
        }
    }
    add_run(boxes, schema, front, run)
}

// Adds the box that has a front and a run, if there is one.
fn add_run(
    boxes: &mut Vec<ZBox>,
    schema: &Schema,
    front: &Front,
    run: Option<Interval>,
) -> Result<(), AllocError>
    requires dims { length front.now.lo + 1 ≡ schema.now.dims }
    requires run { IfSome run (λ r. r.low ≤ r.high) }
    ensures { OnOk result (boxes.new.items
        ≡ boxes.old.items ++ map (widened front.now) (option_to_list run)) }
{
    if let Some(interval) = run {
        boxes.push(front.widened(interval).whole(schema.shape()))?;
    }
    Ok(())
}

// Adds the boxes whose first dimensions are those of a front. Calls itself no deeper than there are sides.
fn add_boxes(
    boxes: &mut Vec<ZBox>,
    filter: Option<&Cond>,
    schema: &Schema,
    front: &Front,
    sides: &[Items<Interval>],
) -> Result<(), AllocError>
    requires dims { length front.now.lo + length sides.now ≡ schema.now.dims }
    requires sides { AreSides sides.now }
    ensures { OnOk result (boxes.new.items ≡ boxes.old.items
        ++ boxes_from (truth.covers schema.now (shape_of filter.entry)) front.now sides.now) }
{
    match sides {
        [] => {}
        [last] => add_runs(boxes, filter, schema, front, last.as_slice())?,
        [side, others @ ..] => {
            for interval in side.as_slice() {
                add_boxes(boxes, filter, schema, &front.widened(*interval), others)?;
            }
        }
    }
    Ok(())
}

// The boxes of a condition that isn't wide.
fn covered(
    alloc: Global,
    filter: Option<&Cond>,
    schema: &Schema,
    sides: &[Items<Interval>],
) -> Result<Vec<ZBox>, AllocError>
    requires dims { length sides.now ≡ schema.now.dims }
    requires sides { AreSides sides.now }
    ensures { IfOk result (λ boxes. boxes.items
        ≡ spec.boxes_on (truth.covers schema.now (shape_of filter.entry)) sides.now) }
{
    let mut boxes = Vec::new(alloc);
    add_boxes(&mut boxes, filter, schema, &Front::space(0), sides)?;
    Ok(boxes)
}

// The whole space as the one box.
fn everything(alloc: Global, schema: &Schema) -> Result<Vec<ZBox>, AllocError>
    ensures { IfOk result (λ boxes. boxes.items ≡ spec.space schema.now.dims ∷ []) }
{
    let space = Front::space(schema.dims() as usize);
    let mut boxes = Vec::new(alloc);
    boxes.push(space.whole(schema.shape()))?;
    Ok(boxes)
}

/// The boxes of a condition on the rows of a table of this schema, or of none. No selected row lies outside of them.
///
/// The cells are counted before any box is made. Takes memory for the intervals of each dimension, and for the boxes,
/// which are at most `MAX_CELLS`.
pub fn boxes(alloc: Global, filter: Option<&Cond>, schema: &Schema) -> Result<Cover, AllocError>
    ensures { IfOk result (λ c. c ≡ spec.cover_of schema.now (shape_of filter.entry)) }
{
    let sides = grid(alloc, filter, schema)?;
    let is_wide = are_too_many(&sides);
    let is_exact = !is_wide && is_of_dimensions(filter, schema);
    let boxes = if is_wide {
        everything(alloc, schema)?
    } else {
        covered(alloc, filter, schema, &sides)?
    };
    Ok(Cover::new(boxes, is_exact, is_wide))
}
