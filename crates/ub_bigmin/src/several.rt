ghost use Rattle.std.specs.Prelude.{◌<◌, length, All};
ghost use Rattle.ub_bigmin.specs.Box.{HoldsAny, IsValueInSpan};
ghost use Rattle.ub_bigmin.specs.Extremes.{LeastFrom, Least, Greatest};

use crate::event::{greatest_in_box, least_in_box};
use crate::zbox::ZBox;

/// The least address of all the boxes that is not below z. `None` exactly where there is none.
pub fn next_in_any(boxes: &[ZBox], z: u128) -> Option<u128>
    ensures { LeastFrom (HoldsAny boxes.now) z result }
{
    let mut least: Option<u128> = None;
    for zbox in boxes {
        if let Some(found) = zbox.next_in_box(z) {
            least = Some(least.map_or(found, |other| other.min(found)));
        }
    }
    least
}

/// The least coordinate in this dimension among the points of the boxes whose address lies in the span from ..= to.
/// `None` exactly where no address of the span lies in a box.
pub fn least_value(boxes: &[ZBox], from: u128, to: u128, dim: usize) -> Option<u32>
    requires { All (λ b. dim < length b.lo) boxes.now }
    ensures { Least (IsValueInSpan boxes.now from to dim) result }
{
    let mut least: Option<u32> = None;
    for zbox in boxes {
        if let Some(found) = least_in_box(zbox, from, to, dim) {
            least = Some(least.map_or(found, |other| other.min(found)));
        }
    }
    least
}

/// The greatest coordinate in this dimension among the points of the boxes whose address lies in the span from ..= to.
/// `None` exactly where no address of the span lies in a box.
pub fn greatest_value(boxes: &[ZBox], from: u128, to: u128, dim: usize) -> Option<u32>
    requires { All (λ b. dim < length b.lo) boxes.now }
    ensures { Greatest (IsValueInSpan boxes.now from to dim) result }
{
    let mut greatest: Option<u32> = None;
    for zbox in boxes {
        if let Some(found) = greatest_in_box(zbox, from, to, dim) {
            greatest = Some(greatest.map_or(found, |other| other.max(found)));
        }
    }
    greatest
}
