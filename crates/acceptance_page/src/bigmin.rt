// The addresses of boxes that are nearest to one, the coordinates that boxes have within a span,
// and one way of a jump beside the other.
ghost use Rattle.std.specs.Prelude.{◌≡◌, ◌<◌, length, All, IfOk, IfSome};

use crate::samples::{Case, all_hold, holds};
use ub_bigmin::laws::{next_by_bits, next_by_words, prev_by_bits, prev_by_words};
use ub_bigmin::{ZBox, greatest_value, least_value, next_in_any};
use ub_zaddr::{Point, Shape, interleave};

// An address, whether the first box holds it, the nearest ones of that box at or above it and at or below it, and the nearest one at or
// above it of any of the boxes.
struct Near(u128, bool, Option<u128>, Option<u128>, Option<u128>);

// A span, and the least and the greatest first coordinate that the boxes have there.
struct Span(u128, u128, Option<u32>, Option<u32>);

// Two boxes of so many dimensions, by their corners, of which the first alone is looked at where there is to be one; addresses near
// them, and spans.
struct Boxes {
    dims: u32,
    corners: [([u32; 4], [u32; 4]); 2],
    count: usize,
    near: &'static [Near],
    spans: &'static [Span],
}

// From the first point to the last.
const WHOLE: ([u32; 4], [u32; 4]) = ([0; 4], [4_294_967_295; 4]);

static BOXES: &[Boxes] = &[
    // From (2,2) to (6,3).
    Boxes {
        dims: 2,
        corners: [([2, 2, 0, 0], [6, 3, 0, 0]), ([2, 2, 0, 0], [6, 3, 0, 0])],
        count: 1,
        near: &[
            Near(19, false, Some(36), Some(15), Some(36)),
            Near(0, false, Some(12), None, Some(12)),
            Near(46, false, None, Some(45), None),
            Near(11, false, Some(12), None, Some(12)),
            Near(12, true, Some(12), Some(12), Some(12)),
            Near(45, true, Some(45), Some(45), Some(45)),
            Near(u128::MAX, false, None, Some(45), None),
        ],
        spans: &[
            Span(13, 35, Some(2), Some(3)),
            Span(16, 35, None, None),
            Span(16, 36, Some(4), Some(4)),
            Span(40, 45, Some(6), Some(6)),
        ],
    },
    // From (6,3) to (6,3), and from (2,2) to (3,3).
    Boxes {
        dims: 2,
        corners: [([6, 3, 0, 0], [6, 3, 0, 0]), ([2, 2, 0, 0], [3, 3, 0, 0])],
        count: 2,
        near: &[
            Near(13, false, Some(45), None, Some(13)),
            Near(16, false, Some(45), None, Some(45)),
            Near(46, false, None, Some(45), None),
        ],
        spans: &[Span(15, 45, Some(3), Some(6))],
    },
    // The last address is its own neighbour in the box of all points.
    Boxes {
        dims: 4,
        corners: [WHOLE, WHOLE],
        count: 1,
        near: &[Near(
            u128::MAX,
            true,
            Some(u128::MAX),
            Some(u128::MAX),
            Some(u128::MAX),
        )],
        spans: &[],
    },
];

// The box of so many dimensions between two corners, of which the coordinates behind these aren't looked at.
pub(crate) fn box_between(dims: u32, lo: &[u32; 4], hi: &[u32; 4]) -> Option<ZBox>
    ensures dims { IfSome result (λ b. length b.lo ≡ dims) }
    ensures some { IfSome result (λ b. 0 < length b.lo) }
{
    let Ok(shape) = Shape::new(dims) else {
        return None;
    };
    let count = shape.dims() as usize;
    let (Ok(lo), Ok(hi)) = (
        Point::new(shape, &lo[..count]),
        Point::new(shape, &hi[..count]),
    ) else {
        return None;
    };
    ZBox::new(shape, &lo, &hi)
}

// Whether a box has these corners.
fn has_corners(zbox: &ZBox, lo: &[u32; 4], hi: &[u32; 4]) -> bool {
    let count = (zbox.shape().dims() as usize).min(4);
    (zbox.lo().values() == &lo[..count]) & (zbox.hi().values() == &hi[..count])
}

// Whether these are the addresses nearest to boxes, the first of which is given too.
fn are_near(first: &ZBox, boxes: &[ZBox], near: &[Near]) -> bool {
    for row in near {
        let is_right = (first.holds(row.0) == row.1)
            & (first.next_in_box(row.0) == row.2)
            & (first.prev_in_box(row.0) == row.3)
            & (next_in_any(boxes, row.0) == row.4);
        if !is_right {
            return false;
        }
    }
    true
}

// Whether boxes have these least and greatest first coordinates within spans.
fn have_values(boxes: &[ZBox], spans: &[Span]) -> bool
    requires { All (λ b. 0 < length b.lo) boxes.now }
{
    for span in spans {
        let is_right = (least_value(boxes, span.0, span.1, 0) == span.2)
            & (greatest_value(boxes, span.0, span.1, 0) == span.3);
        if !is_right {
            return false;
        }
    }
    true
}

impl Case<()> for Boxes {
    fn holds(&self, _: &()) -> bool {
        let [(lo, hi), (other_lo, other_hi)] = &self.corners;
        let (Some(first), Some(other)) = (
            box_between(self.dims, lo, hi),
            box_between(self.dims, other_lo, other_hi),
        ) else {
            return false;
        };
        let are_right = if self.count == 1 {
            are_near(&first, &[first], self.near) & have_values(&[first], self.spans)
        } else {
            are_near(&first, &[first, other], self.near) & have_values(&[first, other], self.spans)
        };
        are_right & (first.shape().dims() == self.dims) & has_corners(&first, lo, hi)
    }
}

// The coordinates of the boxes that both ways of a jump are compared on: each up to 7, and those at
// the ends and in the middle of the 32 bits.
const SMALL: [u32; 8] = [0, 1, 2, 3, 4, 5, 6, 7];

const ENDS: [u32; 4] = [0, 1, 2147483648, 4294967295];

// The point number n of those with all coordinates among these.
fn places_among(values: &[u32], n: usize) -> [u32; 4]
    requires { 0 < length values.now }
{
    let mut rest = n;
    let mut places = [0u32; 4];
    for dim in 0..4usize {
        places[dim] = values[rest % values.len()];
        rest /= values.len();
    }
    places
}

// Whether the jumps by words and by bits from this address lead to the same neighbours.
fn agrees(zbox: &ZBox, z: u128) -> bool {
    let mut turns = 0;
    let next = next_by_words(zbox, z, &mut turns);
    turns = 0;
    let prev = prev_by_words(zbox, z, &mut turns);
    next == next_by_bits(zbox, z) && prev == prev_by_bits(zbox, z)
}

// From how many of the first points with these coordinates, and of the address 64, both ways agree.
fn agreements_in(zbox: &ZBox, values: &[u32], points: usize) -> u64
    requires { 0 < length values.now }
{
    let shape = zbox.shape();
    let mut count = u64::from(agrees(zbox, 64));
    for n in 0..points {
        if let Ok(point) = Point::new(shape, &places_among(values, n)[..shape.dims() as usize]) {
            let z = interleave(shape, &point);
            count = count.wrapping_add(u64::from(agrees(zbox, z)));
        }
    }
    count
}

// How many dimensions and which coordinates points have, how many of them are corners, from which to which pair of corners boxes are
// taken (the number of the lower one, times how many there are, and that of the upper one), and how often both ways agree there.
struct Agreement(u32, &'static [u32], usize, usize, usize, u64);

// 36 pairs of corners up to 7 in each of two dimensions, and the 65 addresses up to 64; 10 pairs at the ends in each of three, 4
// coordinates there, and the address 64; and in four dimensions, where the lower corner has the least of the 4 coordinates in the last
// one, 4 pairs there, and 10 in the others; then 3, 2 and 1 pairs.
static AGREEMENTS: &[Agreement] = &[
    Agreement(2, &SMALL, 64, 0, 64 * 64, 84240),
    Agreement(3, &ENDS, 64, 0, 64 * 64, 65000),
    Agreement(4, &ENDS, 256, 0, 64 * 256, 1028000),
    Agreement(4, &ENDS, 256, 64 * 256, 256 * 256, 1542000),
];

// In how many of these boxes, and from how many addresses there both ways agree.
fn agreements(dims: u32, values: &[u32], points: usize, from: usize, to: usize) -> u64
    requires values { 0 < length values.now }
    requires points { 0 < points }
{
    let mut count = 0u64;
    for pair in from..to {
        let low = places_among(values, pair / points);
        let high = places_among(values, pair % points);
        if let Some(zbox) = box_between(dims, &low, &high) {
            count = count.wrapping_add(agreements_in(&zbox, values, points));
        }
    }
    count
}

impl Case<()> for Agreement {
    fn holds(&self, _: &()) -> bool {
        if self.1.is_empty() || self.2 == 0 {
            return false;
        }
        agreements(self.0, self.1, self.2, self.3, self.4) == self.5
    }
}

// There is no box from the last point to the first.
#[test]
fn boxes_and_their_neighbours(rt: HostRuntime) {
    all_hold(&rt, "boxes", &(), BOXES);
    holds(
        &rt,
        "no box",
        box_between(4, &[4294967295; 4], &[0; 4]).is_none(),
    );
    all_hold(&rt, "how often words and bits agree", &(), AGREEMENTS);
}
