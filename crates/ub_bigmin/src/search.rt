ghost use Rattle.std.specs.Prelude.{◌≡◌, ℕ, ◌+◌, ◌*◌, ◌<◌, ◌≤◌, ◌↔◌, List, length, slice_set, IsTrue};
ghost use Rattle.std.specs.Int.{bit_at};
ghost use Rattle.ub_bigmin.specs.Around.{IsAround, AreNeighbours};
ghost use Rattle.ub_bigmin.specs.Middle.{middle};
ghost use Rattle.ub_bigmin.specs.Step.{IsStep};

use crate::zbox::ZBox;
use ub_zaddr::{Point, Shape, interleave, last};

// The neighbours of an address in a box: the greatest address up to it, and the least from it.
#[derive(Clone, Copy)]
pub struct Neighbours {
    pub below: Option<u128>,
    pub above: Option<u128>,
}

// What the search knows after some places: the part of the box that agrees with the address there has the corners
// `low` and `high`; of the rest, `below` and `above` are the nearest addresses (LITMAX and BIGMIN).
#[derive(Clone, Copy)]
pub struct Search {
    pub low: Point,
    pub high: Point,
    pub below: Option<u128>,
    pub above: Option<u128>,
}

// The search goes on at the next place, or nothing of the box is left and it has found both neighbours.
#[derive(Clone, Copy)]
pub enum Step {
    Onward(Search),
    Done(Search),
}

/// The neighbours of z in the box (BIGMIN and LITMAX by one descent from the highest place; Tropf and Herzog 1981).
pub fn find_neighbours(zbox: &ZBox, z: u128) -> Neighbours
    ensures { AreNeighbours zbox.now z result.below result.above }
{
    let shape = zbox.shape();
    if last(shape) < z {
        return Neighbours {
            below: Some(interleave(shape, zbox.hi())),
            above: None,
        };
    }
    let mut search = Search {
        low: *zbox.lo(),
        high: *zbox.hi(),
        below: None,
        above: None,
    };
    for place in (0..32 * shape.dims()).rev() {
        match take_step(zbox, z, place, search) {
            Step::Onward(next) => search = next,
            Step::Done(end) => {
                return Neighbours {
                    below: end.below,
                    above: end.above,
                };
            }
        }
    }
    Neighbours {
        below: Some(z),
        above: Some(z),
    }
}

// One place of the search: the decision table of Tropf and Herzog on the bits of the address and of the corners there,
// whose rows 010 and 110 never come. Where the corners' bits are 0 and 1, `middle` cuts their range in this dimension
// into the half whose bit is 0, up to `under`, and the half whose bit is 1, from `over` on.
fn take_step(zbox: &ZBox, z: u128, place: u32, search: Search) -> Step
    requires place { place < 32 * length zbox.now.lo }
    requires around { IsAround zbox.now z (place + 1) search.low search.high search.below
        search.above }
    ensures { IsStep zbox.now z place result }
{
    let shape = zbox.shape();
    let dims = shape.dims();
    let bit = place / dims;
    let dimension = (dims - 1 - place % dims) as usize;
    let high = search.high.values()[dimension];
    let z_bit = is_set(z, place);
    let low_bit = is_set(u128::from(search.low.values()[dimension]), bit);
    let high_bit = is_set(u128::from(high), bit);
    if low_bit != high_bit {
        let middle = middle_of(high, bit);
        let under = load(shape, &search.high, dimension, middle - 1);
        let over = load(shape, &search.low, dimension, middle);
        if z_bit {
            // 101
            Step::Onward(Search {
                low: over,
                below: Some(interleave(shape, &under)),
                ..search
            })
        } else {
            // 001
            Step::Onward(Search {
                high: under,
                above: Some(interleave(shape, &over)),
                ..search
            })
        }
    } else if z_bit == low_bit {
        // 000 and 111
        Step::Onward(search)
    } else if z_bit {
        // 100
        Step::Done(Search {
            below: Some(interleave(shape, &search.high)),
            ..search
        })
    } else {
        // 011
        Step::Done(Search {
            above: Some(interleave(shape, &search.low)),
            ..search
        })
    }
}

// Whether the bit of a number at a place is 1.
fn is_set(x: u128, place: u32) -> bool
    requires { place < 128 }
    ensures { IsTrue result ↔ (bit_at x place ≡ 1) }
{
    (x >> place) & 1 == 1
}

// The number with 0 in the bits below this one.
fn middle_of(x: u32, bit: u32) -> u32
    requires { bit < 32 }
    ensures { result ≡ middle x bit }
{
    (x >> bit) << bit
}

// The point with one coordinate replaced. LOAD(1000..) gives the low corner the middle of its range there, and
// LOAD(0111..) gives the high corner the value below the middle.
pub fn load(shape: Shape, point: &Point, dimension: usize, value: u32) -> Point
    requires shape { length point.now ≡ shape }
    requires dimension { dimension < shape }
    ensures { result ≡ slice_set point.now dimension value }
{
    let old = point.values();
    let mut values = [0u32; 4];
    values[..old.len()].copy_from_slice(old);
    values[dimension] = value;
    match Point::new(shape, &values[..old.len()]) {
        Ok(changed) => changed,
        Err(_) => unreachable!(),
    }
}
