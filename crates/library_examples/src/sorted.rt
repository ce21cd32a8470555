// Jumping along a sorted list of one's own: the addresses are in a `Vec`, and no tree stands anywhere.
ghost use Rattle.std.specs.Prelude.{◌≤◌, ◌<◌, length, IfOk};
ghost use Rattle.std.specs.List.Sorted.{IsNonDecreasing, IsPartitionPoint};
ghost use Rattle.library_examples.specs.Sorted.{AreThoseIn};

use std::alloc::{AllocError, Global};
use ub_bigmin::ZBox;
use ub_zaddr::{Point, Shape, interleave_places};

/// The addresses of a list that lie in a box: all of them, and no others, in the order of the list, each as often as it stands there.
/// What lies between two of them is jumped over.
pub fn addresses_in(alloc: Global, sorted: &[u128], zbox: &ZBox) -> Result<Vec<u128>, AllocError>
    requires { IsNonDecreasing sorted.now }
    ensures { IfOk result (λ found. AreThoseIn zbox.now sorted.now found.items) }
{
    let mut found = Vec::new(alloc);
    let mut place = 0;
    while place < sorted.len() {
        let Some(next) = zbox.next_in_box(sorted[place]) else {
            break;
        };
        if next == sorted[place] {
            found.push(next)?;
            place += 1;
        } else {
            place = first_from(sorted, next);
        }
    }
    Ok(found)
}

// Where the first address from z on stands in a list; the list's length where there is none.
fn first_from(sorted: &[u128], z: u128) -> usize
    requires { IsNonDecreasing sorted.now }
    ensures within { result ≤ length sorted.now }
    ensures point { IsPartitionPoint (λ a. a < z) (λ a. z ≤ a) sorted.now result }
{
    sorted.partition_point(|address| *address < z)
}

/// The box between two points of the plane, where the first is at most the second in each coordinate.
pub fn box_between(low: [u32; 2], high: [u32; 2]) -> Option<ZBox> {
    let plane = Shape::new(2).ok()?;
    let low = Point::new(plane, &low).ok()?;
    let high = Point::new(plane, &high).ok()?;
    ZBox::new(plane, &low, &high)
}

// The addresses of the points on a diagonal of the plane, in ascending order.
fn diagonal(alloc: Global, count: u32) -> Result<Vec<u128>, AllocError>
    ensures { IfOk result (λ sorted. IsNonDecreasing sorted.items) }
{
    let mut addresses = Vec::new(alloc);
    if let Ok(plane) = Shape::new(2) {
        for x in 0..count {
            addresses.push(interleave_places(plane, &[x, count - 1 - x, 0, 0]))?;
        }
    }
    addresses.sort_unstable();
    Ok(addresses)
}

/// Which points of a diagonal lie in a box.
pub fn example(alloc: Global) -> Result<String, AllocError> {
    let mut lines = String::new(alloc);
    let sorted = diagonal(alloc, 16)?;
    if let Some(zbox) = box_between([3, 2], [9, 9]) {
        for address in addresses_in(alloc, sorted.as_slice(), &zbox)?.iter() {
            write!(lines, "{address}\n")?;
        }
    }
    Ok(lines)
}
