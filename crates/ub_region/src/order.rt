// The keys of rows that stand in columns, compared without their addresses.
ghost use Rattle.std.specs.Prelude.{◌≡◌, ◌+◌, ◌<◌, ◌≤◌, ◌↔◌, IsTrue, map};
ghost use Rattle.std.specs.List.{range_with_len};
ghost use Rattle.ub_region.specs.Columns.{key_in};
ghost use Rattle.ub_table.specs.Keys.{precedes, AreKeysAscending};
ghost use Rattle.ub_table.specs.Region.{key_of};

use crate::columns::{Dims, Numbers, point_at};
use ub_table::{MAX_ROWS, Row};
use ub_zaddr::{Shape, is_below_first, is_below_places};

/// Whether of so many rows the key of each is before that of the next, by the loop for their number of dimensions.
pub fn are_ascending(shape: Shape, numbers: &Numbers, dims: &Dims, count: usize) -> bool
    requires { count ≤ MAX_ROWS }
    ensures { IsTrue result
        ↔ AreKeysAscending (map (key_in shape numbers.now dims.now) (range_with_len 0 count)) }
{
    match shape.dims() {
        1 => are_ascending_in::<1>(numbers, dims, count),
        2 => are_ascending_in::<2>(numbers, dims, count),
        3 => are_ascending_in::<3>(numbers, dims, count),
        _ => are_ascending_in::<4>(numbers, dims, count),
    }
}

// The same in a space of D dimensions. No pair ends the loop, so that several can be compared at once.
fn are_ascending_in<const D: usize>(numbers: &Numbers, dims: &Dims, count: usize) -> bool
    requires some { 1 ≤ D }
    requires within { D ≤ 4 }
    requires few { count ≤ MAX_ROWS }
    ensures { IsTrue result
        ↔ AreKeysAscending (map (key_in D numbers.now dims.now) (range_with_len 0 count)) }
{
    let mut ascending = true;
    for i in 0..count.saturating_sub(1) {
        ascending &= is_before_next::<D>(numbers, dims, i);
    }
    ascending
}

// Whether the key of the row at an index is before that of the next.
fn is_before_next<const D: usize>(numbers: &Numbers, dims: &Dims, i: usize) -> bool
    requires some { 1 ≤ D }
    requires within { D ≤ 4 }
    requires at { i + 1 < MAX_ROWS }
    ensures { result
        ≡ precedes (key_in D numbers.now dims.now i) (key_in D numbers.now dims.now (i + 1)) }
{
    let is_less = numbers[i] < numbers[i + 1];
    is_below_first::<D>(&point_at(dims, i), &point_at(dims, i + 1), is_less)
}

/// Whether the key of the row at an index is after that of another row.
pub fn is_after(shape: Shape, numbers: &Numbers, dims: &Dims, i: usize, row: &Row) -> bool
    requires { i < MAX_ROWS }
    ensures { result ≡ precedes (key_of shape row.now) (key_in shape numbers.now dims.now i) }
{
    let is_less = row.number < numbers[i];
    is_below_places(shape, &row.dims, &point_at(dims, i), is_less)
}

/// Whether the key of the row at an index is before that of another row.
pub fn is_before(shape: Shape, numbers: &Numbers, dims: &Dims, i: usize, row: &Row) -> bool
    requires { i < MAX_ROWS }
    ensures { result ≡ precedes (key_in shape numbers.now dims.now i) (key_of shape row.now) }
{
    let is_less = numbers[i] < row.number;
    is_below_places(shape, &point_at(dims, i), &row.dims, is_less)
}
