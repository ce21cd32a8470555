use crate::generator::Generator;
use ub_zaddr::{Point, Shape, interleave, last, spread};

/// How many points, or addresses, are gone over again and again.
const COUNT: usize = 1024;

// Points of this shape.
fn points(shape: Shape) -> Option<[Point; COUNT]> {
    let mut numbers = Generator::new(7);
    let (low, _high) = numbers.corners();
    let dims = shape.dims() as usize;
    let first = Point::new(shape, &low[..dims]).ok()?;
    let mut all = [first; COUNT];
    for point in all.iter_mut() {
        let (low, _high) = numbers.corners();
        *point = Point::new(shape, &low[..dims]).unwrap_or(first);
    }
    Some(all)
}

// Addresses of this shape.
fn numbers(shape: Shape) -> [u128; COUNT] {
    let mut numbers = Generator::new(9);
    let mut all = [0u128; COUNT];
    for z in all.iter_mut() {
        *z = numbers.address() & last(shape);
    }
    all
}

// The checksum with the addresses of all these points.
fn with_addresses(shape: Shape, points: &[Point; COUNT], sum: u128) -> u128 {
    let mut sum = sum;
    for point in points {
        if point.values().len() == shape.dims() as usize {
            sum = sum.rotate_left(1) ^ interleave(shape, point);
        }
    }
    sum
}

// The checksum with the first coordinates of the points of all these addresses.
fn with_points(shape: Shape, addresses: &[u128; COUNT], sum: u128) -> u128 {
    let mut sum = sum;
    for z in addresses {
        if let Ok(point) = spread(shape, *z) {
            let first = point.values().first().copied().unwrap_or(0);
            sum = sum.rotate_left(1) ^ u128::from(first);
        }
    }
    sum
}

/// The checksum of so many addresses of points, in rounds of 1024.
pub fn interleaved(shape: Shape, calls: u64) -> u128 {
    let Some(points) = points(shape) else {
        return 0;
    };
    let mut sum = 0u128;
    for _ in 0..calls / COUNT as u64 {
        sum = with_addresses(shape, &points, sum);
    }
    sum
}

/// The checksum of so many points of addresses, in rounds of 1024.
pub fn spread_out(shape: Shape, calls: u64) -> u128 {
    let addresses = numbers(shape);
    let mut sum = 0u128;
    for _ in 0..calls / COUNT as u64 {
        sum = with_points(shape, &addresses, sum);
    }
    sum
}
