ghost use Rattle.std.specs.Prelude.{◌≡◌};
ghost use Rattle.ub_table.specs.Keys.{is_same};
ghost use Rattle.ub_region.specs.Rows.{separator};

use ub_table::Key;

/// Whether two keys are one: by row number first, in which most differ.
pub fn is_equal(a: &Key, b: &Key) -> bool
    ensures { result ≡ is_same a.now b.now }
{
    a.number == b.number && a.z == b.z
}

/// The first key of a region whose first row has the key `right`, where that of the row before is `left`: it begins with
/// an address of its own, if it can.
pub fn first_between(left: &Key, right: &Key) -> Key
    ensures { result ≡ separator left.now right.now }
{
    if left.z < right.z {
        Key {
            z: right.z,
            number: 0,
        }
    } else {
        *right
    }
}
