ghost use Rattle.std.specs.Prelude.{◌≡◌};
ghost use Rattle.ub_index.specs.Searching.{Aims};

use ub_bigmin::{ZBox, next_in_any};
use ub_table::Key;

/// What a search for a region that is later than another one is after.
#[derive(Clone, Copy)]
pub enum Goal<'a> {
    /// This address, or a later one.
    Address(u128),
    /// An address in one of these boxes.
    Boxes(&'a [ZBox]),
}

/// The least such address from a key on, if there is one.
pub fn aimed_at(goal: &Goal, from: &Key) -> Option<u128>
    ensures { Aims goal.now from.now result }
{
    match goal {
        Goal::Address(z) => Some(*z),
        Goal::Boxes(boxes) => next_in_any(boxes, from.z),
    }
}
