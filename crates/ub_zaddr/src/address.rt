ghost use Rattle.std.specs.Prelude.{◌≡◌, ℕ, ◌-◌, ◌^◌, ◌<◌, ◌≤◌, ◌↔◌, List, length, take, drop, replicate, slice_index, All, IsErr, IfOk, IfErr};
ghost use Rattle.std.specs.Int.{bit_at};
ghost use Rattle.ub_zaddr.specs.Address.{address, last_address, place, IsPoint, IsAtMost};

use crate::fault::ZFault;
use crate::gathering::{every_fourth, every_third, gathered_by_two};
use crate::point::Point;
use crate::shape::Shape;
use crate::spacing::{four_in_turn, three_in_turn, two_in_turn};

/// The greatest address of a space, 32 one bits for each dimension.
pub fn last(shape: Shape) -> u128
    ensures { result ≡ last_address shape }
{
    u128::MAX >> (128 - 32 * shape.dims())
}

/// The address of a point of this shape: the bits of its coordinates interleaved, the first dimension highest at each
/// bit (Bayer 1997; the Morton code).
pub fn interleave(shape: Shape, point: &Point) -> u128
    requires { length point.now ≡ shape }
    ensures address { result ≡ address point.now }
    ensures within { result ≤ last_address shape }
    // a point that is at least this one in each coordinate has no smaller address
    ensures order { (other : List ℕ) → IsPoint shape other → IsAtMost point.now other
        → result ≤ address other }
    // no other point of the shape has this address
    ensures one_to_one { (other : List ℕ) → IsPoint shape other → address other ≡ result → other ≡ point.now }
{
    interleave_places(shape, point.places())
}

/// The point of this shape that has the address z, by taking the bits apart. `TooLarge` above the last address.
pub fn spread(shape: Shape, z: u128) -> Result<Point, ZFault>
    ensures point { IfOk result (λ p. (length p ≡ shape) × (address p ≡ z)) }
    ensures inverse { (p : List ℕ) → IsPoint shape p → address p ≡ z → result ≡ Ok p }
    ensures refused { IsErr result ↔ (last_address shape < z) }
    ensures refusal { IfErr result (λ e. e ≡ ZFault.TooLarge) }
{
    if last(shape) < z {
        return Err(ZFault::TooLarge);
    }
    Ok(Point::of_places(shape, coordinates(shape.dims(), z)))
}

/// The address of the point of this shape whose coordinates stand in the first places. The places after them are not
/// looked at.
pub fn interleave_places(shape: Shape, places: &[u32; 4]) -> u128
    ensures { result ≡ address (take shape places.now) }
{
    match shape.dims() {
        1 => interleave_first::<1>(places),
        2 => interleave_first::<2>(places),
        3 => interleave_first::<3>(places),
        _ => interleave_first::<4>(places),
    }
}

/// The same in a space of D dimensions, for a loop over points of one space: nothing in it asks for their number.
pub fn interleave_first<const D: usize>(places: &[u32; 4]) -> u128
    requires some { 1 ≤ D }
    requires within { D ≤ 4 }
    ensures { result ≡ address (take D places.now) }
{
    match D {
        1 => u128::from(places[0]),
        2 => u128::from(two_in_turn(places[0], places[1])),
        3 => three_in_turn(places[0], places[1], places[2]),
        _ => four_in_turn(places[0], places[1], places[2], places[3]),
    }
}

// The coordinates that the bits of z hold, and 0 in the places after them.
fn coordinates(dims: u32, z: u128) -> [u32; 4]
    requires some { 1 ≤ dims }
    requires dims { dims ≤ 4 }
    requires within { z ≤ last_address dims }
    ensures bits { (i b : ℕ) → i < dims → b < 32
        → bit_at (slice_index result i) b ≡ bit_at z (place dims i b) }
    ensures words { All (λ x. x < 2 ^ 32) result }
    ensures rest { drop dims result ≡ replicate (4 - dims) 0 }
{
    match dims {
        1 => [z as u32, 0, 0, 0],
        2 => [
            gathered_by_two((z >> 1) as u64),
            gathered_by_two(z as u64),
            0,
            0,
        ],
        3 => [every_third(z >> 2), every_third(z >> 1), every_third(z), 0],
        _ => [
            every_fourth(z >> 3),
            every_fourth(z >> 2),
            every_fourth(z >> 1),
            every_fourth(z),
        ],
    }
}
