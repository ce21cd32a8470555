ghost use Rattle.std.specs.Prelude.{◌≡◌};
ghost use Rattle.ub_tetris.specs.inner.Firsts.{first_of};

use crate::place::Held;

/// A row that is held in memory of its own, beside the first of its values: so what a heap moves
/// is small, and few of its comparisons go to the row.
///
/// The greatest of some is the first to be given: the one of the least values, and where
/// these are equal, of the least row number.
#[derive(Drop)]
pub struct Ranked {
    /// The first of the values; 0 where there are none.
    pub first: i64,
    /// The row and its values.
    pub held: Box<Held>,
    ghost first_is: { first ≡ first_of held.value.values.items },
}

impl Ranked {
    /// A row that stands in memory of its own, beside the first of its values.
    pub fn new(held: Box<Held>) -> Ranked
        ensures { result.held ≡ held }
    {
        let first = first_of(held.values.as_slice());
        Ranked { first, held }
    }
}

// The first of some values; 0 where there are none.
fn first_of(values: &[i64]) -> i64
    ensures { result ≡ first_of values.now }
{
    match values.first() {
        Some(first) => *first,
        None => 0,
    }
}
