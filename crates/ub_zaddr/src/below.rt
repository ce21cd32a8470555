// Two points compared by their addresses, which aren't made: the dimension in which the points differ at the highest bit decides,
// and of several at that bit the first, whose bit stands highest in an address (T. Chan, Closest-point problems simplified, 2002).
ghost use Rattle.std.specs.Prelude.{◌≡◌, ◌≤◌, ◌↔◌, IsTrue, take};
ghost use Rattle.ub_zaddr.specs.Address.{is_below};
ghost use Rattle.ub_zaddr.specs.Higher.{IsHigher};

use crate::shape::Shape;

/// Whether the point of this shape in the first places has a lower address than the other; where they are one point, what is
/// told of that. The places after them are not looked at.
pub fn is_below_places(shape: Shape, point: &[u32; 4], other: &[u32; 4], same: bool) -> bool
    ensures { result ≡ is_below (take shape point.now) (take shape other.now) same }
{
    match shape.dims() {
        1 => is_below_first::<1>(point, other, same),
        2 => is_below_first::<2>(point, other, same),
        3 => is_below_first::<3>(point, other, same),
        _ => is_below_first::<4>(point, other, same),
    }
}

/// The same in a space of D dimensions, for a loop over points of one space: nothing in it asks for their number, and no
/// step of it is left out, so that several pairs can be compared at once.
#[inline(always)]
pub fn is_below_first<const D: usize>(point: &[u32; 4], other: &[u32; 4], same: bool) -> bool
    requires some { 1 ≤ D }
    requires within { D ≤ 4 }
    ensures { result ≡ is_below (take D point.now) (take D other.now) same }
{
    let mut highest = 0;
    let mut below = same;
    for i in 0..D {
        let differing = point[i] ^ other[i];
        if is_higher(differing, highest) {
            highest = differing;
            below = point[i] < other[i];
        }
    }
    below
}

// Whether the highest bit of x is above all bits of y: y is then less than x, and doesn't have that bit.
#[inline(always)]
fn is_higher(x: u32, y: u32) -> bool
    ensures { IsTrue result ↔ IsHigher x y }
{
    (y < x) & (y < (y ^ x))
}
