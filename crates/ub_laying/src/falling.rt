// How many entries the leaves of an index have where its regions come one after the other.
ghost use Rattle.std.specs.Prelude.{◌≡◌, ◌<◌, IfErr, OnOk, length};

use std::alloc::{AllocError, Global};
use ub_growing::Grown;
use ub_page::MAX_ENTRIES;
use ub_store::StoreFault;

// How many entries of a leaf stay on it where it has one more than a page holds, as in `ub_index_change`; the others stand on a new leaf
// behind it.
const LEFT_ENTRIES: usize = MAX_ENTRIES / 2 + 1;

// A leaf: the regions that it names, each by its index in the order of their keys, in that order. The interval of keys that belongs to
// the leaf begins where the region at `from` does, and goes up to the next leaf's.
#[derive(Drop)]
struct Leaf {
    from: usize,
    regions: Vec<usize>,
}

/// How many of these regions each leaf of their index names, in the order of their keys, where they were named in the order in which
/// they were made: each in the leaf in whose interval it begins, and a leaf that would have one more than a page holds fell in two. So
/// all leaves are at least half full where there are two or more. Memory comes where memory was refused. The contract says nothing of
/// the numbers.
pub fn leaf_sizes(alloc: Global, grown: &Grown) -> Result<Vec<usize>, StoreFault>
    ensures { IfErr result (λ fault. fault ≡ StoreFault.Memory) }
{
    match sizes_of(alloc, grown) {
        Ok(sizes) => Ok(sizes),
        Err(_) => Err(StoreFault::Memory),
    }
}

// The same, where only memory can be wanting.
fn sizes_of(alloc: Global, grown: &Grown) -> Result<Vec<usize>, AllocError> {
    let leaves = grow_leaves(alloc, grown)?;
    let mut sizes = Vec::with_capacity(alloc, leaves.len())?;
    for leaf in &leaves {
        sizes.push(leaf.regions.len())?;
    }
    Ok(sizes)
}

// The leaves once all regions are named, one after the other as they were made.
fn grow_leaves(alloc: Global, grown: &Grown) -> Result<Vec<Leaf>, AllocError> {
    let order = order_made(alloc, grown)?;
    let mut leaves = Vec::new(alloc);
    leaves.push(Leaf {
        from: 0,
        regions: Vec::new(alloc),
    })?;
    for made in &order {
        put_region(&mut leaves, made.1)?;
    }
    Ok(leaves)
}

// The regions in the order in which they were made: of each the number of the row that made it, and its index.
fn order_made(alloc: Global, grown: &Grown) -> Result<Vec<(u32, usize)>, AllocError> {
    let mut order = Vec::with_capacity(alloc, grown.len())?;
    for index in 0..grown.len() {
        order.push((grown.made_by(index), index))?;
    }
    order.sort_unstable();
    Ok(order)
}

// Puts the region at an index into the last of the leaves that begin no later than it. The first one begins with the first region.
fn put_region(leaves: &mut Vec<Leaf>, index: usize) -> Result<(), AllocError>
    requires { 0 < length leaves.old.items }
    ensures { OnOk result (0 < length leaves.new.items) }
{
    let behind = leaves
        .as_slice()
        .partition_point(|leaf| leaf.from <= index)
        .max(1);
    if let Some(right) = take_in(&mut leaves[behind - 1], index)? {
        leaves.insert(behind, right)?;
    }
    Ok(())
}

// Puts the region at an index into a leaf. Where that has one more than a page holds then, it keeps the first ones, and the leaf of the
// others is the result.
fn take_in(leaf: &mut Leaf, index: usize) -> Result<Option<Leaf>, AllocError> {
    let place = leaf
        .regions
        .as_slice()
        .partition_point(|other| *other < index);
    leaf.regions.insert(place, index)?;
    if leaf.regions.len() <= MAX_ENTRIES {
        return Ok(None);
    }
    let right = leaf.regions.split_off(LEFT_ENTRIES)?;
    Ok(Some(Leaf {
        from: right[0],
        regions: right,
    }))
}
