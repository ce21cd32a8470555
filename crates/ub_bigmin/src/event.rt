ghost use Rattle.std.specs.Prelude.{◌≡◌, ℕ, ◌*◌, ◌^◌, ◌<◌, ◌≤◌, [], ◌∷◌, IsTrue, length, slice_index, slice_set};
ghost use Rattle.ub_zaddr.specs.Address.{address, last_address, IsPoint};
ghost use Rattle.ub_bigmin.specs.Box.{Corners, IsBox, IsValueInSpan};
ghost use Rattle.ub_bigmin.specs.Extremes.{Least, Greatest};
ghost use Rattle.ub_bigmin.specs.Halves.{IsHalvedAt, IsHalfFrom, IsHalfUpTo, IsValueOf, IsUnder, IsOver, IsPart, IsStart, IsEnd, IsJoin, IsMeet};

use crate::search::load;
use crate::zbox::{ZBox, is_at_most};
use ub_zaddr::{Point, Shape, interleave, last, spread};

/// The least coordinate in this dimension among the points of the box whose address lies in the span from ..= to.
/// At the highest place where its ends differ the span falls into two halves, the addresses that agree with `from` from
/// there up and those that agree with `to`. The part of the box in a half is a box again, bounded by one end alone. The
/// second half needs no search, and the first one is asked only where its corner is less than what the second half has.
pub fn least_in_box(zbox: &ZBox, from: u128, to: u128, dim: usize) -> Option<u32>
    requires { dim < length zbox.now.lo }
    ensures { Least (IsValueInSpan (zbox.now ∷ []) from to dim) result }
{
    let to = to.min(last(zbox.shape()));
    if to < from {
        return None;
    }
    let free = free_places(from, to);
    let high = least_up_to(zbox, to, free, dim);
    if is_least(zbox, from, free, dim, high) {
        return high;
    }
    let low = least_from(zbox, from, free, dim);
    match (low, high) {
        (Some(a), Some(b)) => Some(a.min(b)),
        (Some(a), None) => Some(a),
        (None, other) => other,
    }
}

/// The greatest coordinate in this dimension among the points of the box whose address lies in the span from ..= to, by
/// the same two halves.
pub fn greatest_in_box(zbox: &ZBox, from: u128, to: u128, dim: usize) -> Option<u32>
    requires { dim < length zbox.now.lo }
    ensures { Greatest (IsValueInSpan (zbox.now ∷ []) from to dim) result }
{
    let to = to.min(last(zbox.shape()));
    if to < from {
        return None;
    }
    let free = free_places(from, to);
    let low = greatest_from(zbox, from, free, dim);
    if is_greatest(zbox, to, free, dim, low) {
        return low;
    }
    let high = greatest_up_to(zbox, to, free, dim);
    match (low, high) {
        (Some(a), Some(b)) => Some(a.max(b)),
        (Some(a), None) => Some(a),
        (None, other) => other,
    }
}

// The least coordinate among the points of the box from the address z on that agree with it from a place up. Of the
// points with one coordinate in the dimension the one that is greatest in the others has the greatest address, so those
// alone are asked for the first address from z on.
fn least_from(zbox: &ZBox, z: u128, free: u32, dim: usize) -> Option<u32>
    requires dim { dim < length zbox.now.lo }
    requires z { z ≤ last_address (length zbox.now.lo) }
    requires free { free ≤ 32 * length zbox.now.lo }
    requires shift { free < 128 }
    ensures { Least (IsValueOf zbox.now (IsHalfFrom free z) dim) result }
{
    let part = part_at(zbox, z, free)?;
    let shape = part.shape();
    let nearest = upper_edge(&part, dim).next_in_box(z)?;
    Some(point_at(shape, nearest).values()[dim])
}

// The least coordinate among the points of the box up to the address z that agree with it from a place up: that of the
// least corner, since it has the least address too.
fn least_up_to(zbox: &ZBox, z: u128, free: u32, dim: usize) -> Option<u32>
    requires dim { dim < length zbox.now.lo }
    requires z { z ≤ last_address (length zbox.now.lo) }
    requires shift { free < 128 }
    ensures { Least (IsValueOf zbox.now (IsHalfUpTo free z) dim) result }
{
    let start = start_at(zbox, z, free);
    if !is_at_most(&start, zbox.hi()) || z < interleave(zbox.shape(), &start) {
        return None;
    }
    Some(start.values()[dim])
}

// Whether the corner of that part of the box shows that none of its points that agree with z from a place up has a lesser
// coordinate than `found`.
fn is_least(zbox: &ZBox, z: u128, free: u32, dim: usize, found: Option<u32>) -> bool
    requires dim { dim < length zbox.now.lo }
    requires z { z ≤ last_address (length zbox.now.lo) }
    requires shift { free < 128 }
    ensures { IsTrue result → IsUnder zbox.now (IsHalfFrom free z) dim found }
{
    match found {
        Some(least) => least <= start_at(zbox, z, free).values()[dim],
        None => false,
    }
}

// The greatest coordinate among the points of the box from the address z on that agree with it from a place up: that of
// the greatest corner.
fn greatest_from(zbox: &ZBox, z: u128, free: u32, dim: usize) -> Option<u32>
    requires dim { dim < length zbox.now.lo }
    requires z { z ≤ last_address (length zbox.now.lo) }
    requires free { free ≤ 32 * length zbox.now.lo }
    requires shift { free < 128 }
    ensures { Greatest (IsValueOf zbox.now (IsHalfFrom free z) dim) result }
{
    let end = end_at(zbox, z, free);
    if !is_at_most(zbox.lo(), &end) || interleave(zbox.shape(), &end) < z {
        return None;
    }
    Some(end.values()[dim])
}

// Whether the corner of that part of the box shows that none of its points that agree with z from a place up has a greater
// coordinate than `found`.
fn is_greatest(zbox: &ZBox, z: u128, free: u32, dim: usize, found: Option<u32>) -> bool
    requires dim { dim < length zbox.now.lo }
    requires z { z ≤ last_address (length zbox.now.lo) }
    requires free { free ≤ 32 * length zbox.now.lo }
    requires shift { free < 128 }
    ensures { IsTrue result → IsOver zbox.now (IsHalfUpTo free z) dim found }
{
    match found {
        Some(greatest) => end_at(zbox, z, free).values()[dim] <= greatest,
        None => false,
    }
}

// The greatest coordinate among the points of the box up to the address z that agree with it from a place up, by the
// points that are least in the other dimensions.
fn greatest_up_to(zbox: &ZBox, z: u128, free: u32, dim: usize) -> Option<u32>
    requires dim { dim < length zbox.now.lo }
    requires z { z ≤ last_address (length zbox.now.lo) }
    requires free { free ≤ 32 * length zbox.now.lo }
    requires shift { free < 128 }
    ensures { Greatest (IsValueOf zbox.now (IsHalfUpTo free z) dim) result }
{
    let part = part_at(zbox, z, free)?;
    let shape = part.shape();
    let nearest = lower_edge(&part, dim).prev_in_box(z)?;
    Some(point_at(shape, nearest).values()[dim])
}

// The highest place at which the ends of a span differ, or 0 where they are one: the places below are free in each half.
fn free_places(from: u128, to: u128) -> u32
    requires { from ≤ to }
    ensures halved { IsHalvedAt from to result }
    ensures within { (n : ℕ) → to < 2 ^ n → result ≤ n }
    ensures shift { result < 128 }
{
    if from == to {
        return 0;
    }
    127 - (from ^ to).leading_zeros()
}

// The points of the box whose addresses agree with z from a place up. `None` where there are none.
fn part_at(zbox: &ZBox, z: u128, free: u32) -> Option<ZBox>
    requires z { z ≤ last_address (length zbox.now.lo) }
    requires free { free ≤ 32 * length zbox.now.lo }
    requires shift { free < 128 }
    ensures { IsPart zbox.now z free result }
{
    ZBox::new(
        zbox.shape(),
        &start_at(zbox, z, free),
        &end_at(zbox, z, free),
    )
}

// The point that all points of the box are at least whose addresses agree with z from a place up: the least corner of that
// part, where it holds any.
fn start_at(zbox: &ZBox, z: u128, free: u32) -> Point
    requires z { z ≤ last_address (length zbox.now.lo) }
    requires shift { free < 128 }
    ensures corners { IsBox (length zbox.now.lo) zbox.now }
    ensures length { length result ≡ length zbox.now.lo }
    ensures start { IsStart zbox.now z free result }
{
    let shape = zbox.shape();
    join(shape, zbox.lo(), &point_at(shape, (z >> free) << free))
}

// The point that all points of the box are at most whose addresses agree with z from a place up: the greatest corner of
// that part, where it holds any.
fn end_at(zbox: &ZBox, z: u128, free: u32) -> Point
    requires z { z ≤ last_address (length zbox.now.lo) }
    requires free { free ≤ 32 * length zbox.now.lo }
    requires shift { free < 128 }
    ensures corners { IsBox (length zbox.now.lo) zbox.now }
    ensures length { length result ≡ length zbox.now.lo }
    ensures end { IsEnd zbox.now z free result }
{
    let shape = zbox.shape();
    let highest = ((z >> free) << free) + ((1u128 << free) - 1);
    meet(shape, zbox.hi(), &point_at(shape, highest))
}

// The points of the box that are greatest in the other dimensions.
fn upper_edge(zbox: &ZBox, dim: usize) -> ZBox
    requires { dim < length zbox.now.lo }
    ensures lo { result.lo ≡ slice_set zbox.now.hi dim (slice_index zbox.now.lo dim) }
    ensures hi { result.hi ≡ zbox.now.hi }
{
    let shape = zbox.shape();
    let start = load(shape, zbox.hi(), dim, zbox.lo().values()[dim]);
    match ZBox::new(shape, &start, zbox.hi()) {
        Some(edge) => edge,
        None => unreachable!(),
    }
}

// The points of the box that are least in the other dimensions.
fn lower_edge(zbox: &ZBox, dim: usize) -> ZBox
    requires { dim < length zbox.now.lo }
    ensures lo { result.lo ≡ zbox.now.lo }
    ensures hi { result.hi ≡ slice_set zbox.now.lo dim (slice_index zbox.now.hi dim) }
{
    let shape = zbox.shape();
    let end = load(shape, zbox.lo(), dim, zbox.hi().values()[dim]);
    match ZBox::new(shape, zbox.lo(), &end) {
        Some(edge) => edge,
        None => unreachable!(),
    }
}

// The point at an address.
fn point_at(shape: Shape, z: u128) -> Point
    requires { z ≤ last_address shape }
    ensures point { IsPoint shape result }
    ensures address { address result ≡ z }
{
    match spread(shape, z) {
        Ok(point) => point,
        Err(_) => unreachable!(),
    }
}

// The greater of two points in each coordinate.
fn join(shape: Shape, p: &Point, q: &Point) -> Point
    requires p { length p.now ≡ shape }
    requires q { length q.now ≡ shape }
    ensures { IsJoin p.now q.now result }
{
    let (p, q) = (p.values(), q.values());
    let mut values = [0u32; 4];
    for i in 0..p.len() {
        values[i] = p[i].max(q[i]);
    }
    match Point::new(shape, &values[..p.len()]) {
        Ok(point) => point,
        Err(_) => unreachable!(),
    }
}

// The lesser of two points in each coordinate.
fn meet(shape: Shape, p: &Point, q: &Point) -> Point
    requires p { length p.now ≡ shape }
    requires q { length q.now ≡ shape }
    ensures { IsMeet p.now q.now result }
{
    let (p, q) = (p.values(), q.values());
    let mut values = [0u32; 4];
    for i in 0..p.len() {
        values[i] = p[i].min(q[i]);
    }
    match Point::new(shape, &values[..p.len()]) {
        Ok(point) => point,
        Err(_) => unreachable!(),
    }
}
