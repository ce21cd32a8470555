ghost use Rattle.std.specs.Prelude.{◌≡◌, ◌<◌, ◌≤ℤ◌, length, neg_ℤ, pos};
ghost use Rattle.ub_table.specs.Table.{column_value};
ghost use Rattle.ub_table.specs.declared.value.TheConstants.{SHIFT};
ghost use Rattle.ub_table.specs.Value as spec;

use crate::axes::Axes;
use crate::row::Row;
use crate::schema::Schema;

/// How far the values of a signed dimension stand below its coordinates: half of all coordinates.
pub const SHIFT: i64 = 2147483648;

impl Schema {
    /// The dimensions: how many they are, and which of them are signed.
    pub fn axes(&self) -> Axes
        ensures { result ≡ spec.axes_of self.now }
    {
        Axes {
            dims: self.dims,
            signed: self.signed,
        }
    }

    /// The value that a coordinate of a dimension stands for.
    pub fn value(&self, dim: usize, coordinate: u32) -> i64
        ensures value { result ≡ spec.value self.now dim coordinate }
        ensures low { neg_ℤ (pos 2147483648) ≤ℤ result }
        ensures high { result ≤ℤ pos 4294967295 }
    {
        i64::from(coordinate) - shift(self.axes(), dim)
    }

    /// The coordinate that stands for a number in a dimension, if the dimension has that value.
    pub fn coordinate(&self, dim: usize, value: i128) -> Option<u32>
        ensures { result ≡ spec.coordinate self.now dim value }
    {
        coordinate_at(self.axes(), dim, value)
    }

    /// Whether a column can hold a number: a dimension where it has that value, a measure where 64
    /// bits with sign hold it.
    pub fn fits(&self, column: usize, value: i128) -> bool
        requires { column < length self.now.columns }
        ensures { result ≡ spec.fits self.now column value }
    {
        fits_at(self.axes(), column, value)
    }

    /// The value of a row in a column: what its coordinate stands for in a dimension, else its
    /// measure.
    pub fn value_of(&self, row: &Row, column: usize) -> i64
        requires { column < length self.now.columns }
        ensures value { result ≡ column_value self.now row.now column }
        ensures low { neg_ℤ (pos 9223372036854775808) ≤ℤ result }
        ensures high { result ≤ℤ pos 9223372036854775807 }
    {
        let dims = self.dims() as usize;
        if column < dims {
            self.value(column, row.dims[column])
        } else {
            row.measures[column - dims]
        }
    }
}

// Values and coordinates of a table of which only the dimensions are known; of a schema they are its own calls.

// Whether a mask has the bit of a dimension.
fn is_signed(signed: u32, dim: usize) -> bool
    ensures { result ≡ spec.is_signed signed dim }
{
    dim < 32 && (signed >> dim) & 1 == 1
}

// How far the values of a dimension stand below its coordinates.
#[tactic(auto, unfolding(crate::specs::Value::shift))]
fn shift(axes: Axes, dim: usize) -> i64
    ensures is { result ≡ spec.shift axes dim }
    ensures low { pos 0 ≤ℤ result }
    ensures high { result ≤ℤ SHIFT }
{
    if is_signed(axes.signed, dim) {
        SHIFT
    } else {
        0
    }
}

/// The coordinate that stands for a number in a dimension, if the dimension has that value.
pub fn coordinate_at(axes: Axes, dim: usize, value: i128) -> Option<u32>
    ensures { result ≡ spec.coordinate_at axes dim value }
{
    u32::try_from(value.checked_add(i128::from(shift(axes, dim)))?).ok()
}

/// Whether a column can hold a number: a dimension where it has that value, else a measure where 64 bits with sign hold
/// it.
pub fn fits_at(axes: Axes, column: usize, value: i128) -> bool
    ensures { result ≡ spec.fits_at axes column value }
{
    if column < axes.dims as usize {
        coordinate_at(axes, column, value).is_some()
    } else {
        i128::from(i64::MIN) <= value && value <= i128::from(i64::MAX)
    }
}
