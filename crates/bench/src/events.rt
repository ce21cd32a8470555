use crate::generator::Generator;
use ub_bigmin::{ZBox, least_value};
use ub_zaddr::{Point, Shape, last};

/// How many spans lie side by side from the first address to the last: about as many as the regions of 200,000 rows.
const SPANS: u128 = 4400;

/// The box between two corners of four dimensions, of which the shape's are taken.
pub fn box_between(shape: Shape, low: &[u32; 4], high: &[u32; 4]) -> Option<ZBox> {
    let dims = shape.dims() as usize;
    match (
        Point::new(shape, &low[..dims]),
        Point::new(shape, &high[..dims]),
    ) {
        (Ok(low), Ok(high)) => ZBox::new(shape, &low, &high),
        _ => None,
    }
}

/// The checksum of the least values of one box in spans of addresses that follow one another, as regions do, in the first
/// dimension; after the last address it begins anew.
pub fn events(shape: Shape, calls: u64) -> u128 {
    let low = [536870912, 268435456, 805306368, 134217728];
    let high = [3758096384, 4026531840, 3489660928, 4160749568];
    let Some(space) = box_between(shape, &low, &high) else {
        return 0;
    };
    let boxes = [space];
    let last = last(shape);
    let width = last / SPANS;
    let mut numbers = Generator::new(u64::from(shape.dims()));
    let mut sum = 0u128;
    let mut from = 0u128;
    for _ in 0..calls {
        let more = u128::from(numbers.coordinate() >> 20).saturating_mul(width >> 12);
        let to = from.saturating_add(width / 2).saturating_add(more);
        let value = least_value(&boxes, from, to, 0).unwrap_or(u32::MAX);
        sum = sum.rotate_left(1) ^ u128::from(value);
        from = if to < last { to.saturating_add(1) } else { 0 };
    }
    sum
}
