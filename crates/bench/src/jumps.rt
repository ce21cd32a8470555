use crate::events::box_between;
use crate::generator::Generator;
use ub_bigmin::ZBox;
use ub_bigmin::laws::next_by_bits;
use ub_zaddr::{Shape, last};

/// What is called of a box and an address.
#[derive(Clone, Copy)]
pub enum Way {
    /// `next_in_box`.
    Words,
    /// Its body by bits.
    Bits,
    /// Nothing: both are only made.
    Making,
}

// The answer for one box and address.
fn answer(way: Way, space: &ZBox, z: u128) -> u128 {
    match way {
        Way::Words => space.next_in_box(z).unwrap_or(u128::MAX),
        Way::Bits => next_by_bits(space, z).unwrap_or(u128::MAX),
        Way::Making => z,
    }
}

/// The checksum of so many answers in a space of this shape.
pub fn jumped(way: Way, shape: Shape, calls: u64) -> u128 {
    let mut numbers = Generator::new(u64::from(shape.dims()));
    let mut sum = 0u128;
    for _ in 0..calls {
        let (low, high) = numbers.corners();
        let z = numbers.address() & last(shape);
        if let Some(space) = box_between(shape, &low, &high) {
            sum = sum.rotate_left(1) ^ answer(way, &space, z);
        }
    }
    sum
}
