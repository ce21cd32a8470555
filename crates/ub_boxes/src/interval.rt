ghost use Rattle.std.specs.Prelude.{◌≡◌, nat_lt, IfOk};
ghost use Rattle.ub_boxes.specs.Grid as spec;
ghost use Rattle.ub_boxes.specs.inner.Sides.{AreCuts, AreSides};
ghost use Rattle.ub_boxes.specs.Truths.{shape_of};

use crate::cover::MAX_CELLS;
use crate::cuts::cuts;
use std::alloc::{AllocError, Global};
use ub_query::{Cond, Items};
use ub_table::Schema;

// The coordinates from a least to a greatest.
#[derive(Clone, Copy, PartialEq, Eq, Debug)]
pub(crate) struct Interval {
    pub(crate) low: u32,
    pub(crate) high: u32,
}

// The intervals between some cuts.
fn intervals(alloc: Global, cuts: &[u32]) -> Result<Vec<Interval>, AllocError>
    requires { AreCuts 0 cuts.now }
    ensures { IfOk result (λ is. is.items ≡ spec.intervals 0 cuts.now) }
{
    let mut intervals = Vec::new(alloc);
    let mut low = 0;
    for cut in cuts {
        let high = *cut - 1;
        intervals.push(Interval { low, high })?;
        low = *cut;
    }
    intervals.push(Interval {
        low,
        high: u32::MAX,
    })?;
    Ok(intervals)
}

// The intervals of a dimension.
#[tactic(auto, using(crate::proofs::CutFacts::are_cuts))]
fn side(
    alloc: Global,
    filter: Option<&Cond>,
    schema: &Schema,
    dim: usize,
) -> Result<Items<Interval>, AllocError>
    ensures { IfOk result (λ is. is ≡ spec.side schema.now (shape_of filter.entry) dim) }
{
    let cuts = cuts(alloc, filter, schema, dim)?;
    Ok(Items::new(intervals(alloc, &cuts)?))
}

// The intervals of each dimension.
pub(crate) fn grid(
    alloc: Global,
    filter: Option<&Cond>,
    schema: &Schema,
) -> Result<Vec<Items<Interval>>, AllocError>
    ensures { IfOk result (λ sides. sides.items ≡ spec.grid schema.now (shape_of filter.entry)) }
{
    let mut sides = Vec::new(alloc);
    for dim in 0..schema.dims() as usize {
        sides.push(side(alloc, filter, schema, dim)?)?;
    }
    Ok(sides)
}

// Whether there are too many cells to make boxes of.
pub(crate) fn are_too_many(sides: &[Items<Interval>]) -> bool
    requires { AreSides sides.now }
    ensures { result ≡ nat_lt MAX_CELLS (spec.number_of_cells sides.now) }
{
    let mut cells = 1usize;
    for side in sides {
        cells = cells.saturating_mul(side.as_slice().len());
    }
    cells > MAX_CELLS
}
