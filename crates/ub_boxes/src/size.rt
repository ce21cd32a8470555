ghost use Rattle.std.specs.Prelude.{◌≡◌, ◌<◌, ◌^◌, ◌↔◌, IsNone};
ghost use Rattle.std.specs.Option.{SomeIff};
ghost use Rattle.ub_boxes.specs.Points as spec;

use crate::cover::Cover;
use ub_bigmin::ZBox;

// How many points a box has. `None` exactly where they are 2^128.
fn size(space: &ZBox) -> Option<u128>
    ensures { SomeIff result (spec.size space.now < 2 ^ 128) (spec.size space.now) }
{
    let lo = space.lo().values();
    let hi = space.hi().values();
    let mut size = 1u128;
    for dim in 0..lo.len() {
        size = size.checked_mul(u128::from(hi[dim] - lo[dim]) + 1)?;
    }
    Some(size)
}

/// How many points some boxes have together. `None` exactly where they are 2^128 or more.
pub fn total(boxes: &[ZBox]) -> Option<u128>
    ensures { SomeIff result (spec.total boxes.now < 2 ^ 128) (spec.total boxes.now) }
{
    let mut total = 0u128;
    for space in boxes {
        total = total.checked_add(size(space)?)?;
    }
    Some(total)
}

/// How many points the boxes of a cover have together. `None` exactly where they are 2^128.
pub fn points(cover: &Cover) -> Option<u128>
    ensures some { SomeIff result (spec.total cover.now.boxes < 2 ^ 128)
        (spec.total cover.now.boxes) }
    ensures none { IsNone result ↔ (spec.total cover.now.boxes ≡ 2 ^ 128) }
{
    total(cover.boxes())
}
