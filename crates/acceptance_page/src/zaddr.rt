// Addresses of points, and the points of addresses.
use crate::samples::{Case, all_hold};
use ub_zaddr::{Point, Shape, ZFault, interleave, last, spread};

// What is asked of a shape.
#[derive(Clone, Copy)]
enum Ask {
    // Its last address.
    Last,
    // The address of the point with so many of these coordinates, which leads back to the point.
    Of([u32; 4], usize),
    // Whether an address is one of it.
    At(u128),
}

// How many dimensions a shape has, what is asked, and the address that is answered. The last addresses have all ones; what no shape, no
// point of a line and no address on it is, is refused.
struct Asked(u32, Ask, Result<u128, ZFault>);

static ANSWERS: &[Asked] = &[
    Asked(2, Ask::Of([1, 0, 0, 0], 2), Ok(2)),
    Asked(2, Ask::Of([0, 1, 0, 0], 2), Ok(1)),
    Asked(2, Ask::Of([2, 3, 0, 0], 2), Ok(13)),
    Asked(2, Ask::Of([3, 5, 0, 0], 2), Ok(27)),
    Asked(3, Ask::Of([1, 2, 3, 0], 3), Ok(29)),
    Asked(3, Ask::Of([0, 0, 65536, 0], 3), Ok(281474976710656)),
    Asked(4, Ask::Of([1, 2, 3, 4], 4), Ok(362)),
    Asked(
        4,
        Ask::Of([2147483648, 0, 0, 0], 4),
        Ok(170141183460469231731687303715884105728),
    ),
    Asked(1, Ask::Of([7, 8, 0, 0], 2), Err(ZFault::WrongCount)),
    Asked(1, Ask::Last, Ok(4294967295)),
    Asked(4, Ask::Last, Ok(340282366920938463463374607431768211455)),
    Asked(0, Ask::Last, Err(ZFault::BadDims)),
    Asked(5, Ask::Last, Err(ZFault::BadDims)),
    Asked(1, Ask::At(4294967295), Ok(4294967295)),
    Asked(1, Ask::At(4294967296), Err(ZFault::TooLarge)),
];

// What is answered; 0 where the address of a point doesn't lead back to it.
fn answer(dims: u32, ask: Ask) -> Result<u128, ZFault> {
    let shape = Shape::new(dims)?;
    match ask {
        Ask::Last => Ok(last(shape)),
        Ask::Of(values, count) => {
            let point = Point::new(shape, &values[..count.min(4)])?;
            let z = interleave(shape, &point);
            if spread(shape, z)? == point {
                Ok(z)
            } else {
                Ok(0)
            }
        }
        Ask::At(z) => {
            spread(shape, z)?;
            Ok(z)
        }
    }
}

impl Case<()> for Asked {
    fn holds(&self, _: &()) -> bool {
        answer(self.0, self.1) == self.2
    }
}

#[test]
fn points_and_their_addresses(rt: HostRuntime) {
    all_hold(&rt, "what is asked of shapes", &(), ANSWERS);
}
