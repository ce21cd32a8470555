ghost use Rattle.std.specs.Prelude.{◌≡◌, ◌+◌, ◌<◌};
ghost use Rattle.ub_table.specs.Keys.{precedes};

use ub_zaddr::{Shape, interleave_places};

/// The greatest number that a row can have.
pub const MAX_ROW_NUMBER: u32 = 16_777_215;

/// One row of a table: its number, from 1 in the order of insertion, its coordinates, and its measures.
///
/// Places that the schema does not use are 0.
#[derive(Clone, Copy, PartialEq, Eq, Debug)]
pub struct Row {
    /// The row number, from 1 to `MAX_ROW_NUMBER`.
    pub number: u32,
    /// The coordinates, in the order of the columns.
    pub dims: [u32; 4],
    /// The values of the measures, in the order of the columns.
    pub measures: [i64; 4],
}

/// Where a row stands in the order of the tree: by address, then by row number.
#[derive(Clone, Copy, PartialEq, Eq, Debug)]
pub struct Key {
    /// The row's address.
    pub z: u128,
    /// The row number.
    pub number: u32,
}

impl Row {
    ghost use Rattle.std.specs.Prelude.{◌≡◌, ◌+◌, ◌<◌};
    ghost use Rattle.ub_table.specs.Region.{key_of};

    /// The key of this row in a space of this shape: the address of its coordinates, and its number.
    pub fn key(&self, shape: Shape) -> Key
        ensures { result ≡ key_of shape self.now }
    {
        Key {
            z: interleave_places(shape, &self.dims),
            number: self.number,
        }
    }
}

impl Key {
    /// Whether this key is before the other: by address, then by row number.
    pub fn is_before(&self, other: &Key) -> bool
        ensures { result ≡ precedes self.now other.now }
    {
        self.z < other.z || (self.z == other.z && self.number < other.number)
    }
}
