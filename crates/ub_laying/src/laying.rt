// Regions laid on pages, and an index of them.
ghost use Rattle.std.specs.Prelude.{◌≤◌, ◌<◌, ◌+◌, length};
ghost use Rattle.ub_laying.specs.Laying.{CanBeLaid, LaysRegions, most_laid};
ghost use Rattle.ub_store.specs.Facts.{page_count};

use crate::falling::leaf_sizes;
use crate::leaves::write_leaves;
use crate::levels::{Root, write_levels};
use crate::regions::write_regions;
use std::alloc::Global;
use ub_growing::Grown;
use ub_store::{PageStore, Pager, StoreFault};
use ub_table::Schema;

/// Lays these regions on pages behind those that there are, one after the other in the order of their keys, and behind them an
/// index of theirs, whose leaves have as many entries as insertions leave on them. The store has its first page already, and room
/// for them all.
///
/// Memory comes where memory was refused, Device where the store failed in this call. The pages that the store had are as they were,
/// also after a fault, and others may stand after them.
pub fn lay_regions<S: PageStore>(
    alloc: Global,
    pager: &mut Pager<S>,
    schema: &Schema,
    grown: &Grown,
) -> Result<Root, StoreFault>
    requires regions { CanBeLaid schema.now grown.now }
    requires first { 1 ≤ page_count pager.old.store }
    requires room { page_count pager.old.store + most_laid (length grown.now) < 4294967296 }
    ensures { LaysRegions schema.now grown.now pager.old pager.new result }
{
    let sizes = leaf_sizes(alloc, grown)?;
    let from = pager.pages();
    write_regions(pager, schema, grown)?;
    let leaves = write_leaves(pager, grown, from, sizes.as_slice())?;
    write_levels(pager, leaves)
}
