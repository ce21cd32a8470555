// Comparisons of eight lanes at a time, and of a whole column.
ghost use Rattle.std.specs.Prelude.{◌≡◌, ◌-◌, ◌^◌, ◌≤◌, length, map, nat_le, take};
ghost use Rattle.std.specs.Simd.Lanes.{mask_l};
ghost use Rattle.ub_region.specs.Lanes.{IsMaskOf, IsMaskBelow};

use crate::columns::Dims;
use std::simd::prelude::*;
use ub_table::MAX_ROWS;

// How many values are compared at a time.
const LANES: usize = 8;

/// Which lanes of a column's chunk lie in `lo ..= hi`: bit i is 1 exactly where lane i does.
pub fn within(column: u32x8, lo: u32, hi: u32) -> u8
    ensures { IsMaskOf lo hi column result }
{
    (at_least(column, lo) & at_most(column, hi)) as u8
}

// The lanes that are at least this.
fn at_least(column: u32x8, lo: u32) -> u64
    ensures { result ≡ mask_l (map (λ x. nat_le lo x) column) }
{
    column.simd_ge(u32x8::splat(lo)).to_bitmask()
}

// The lanes that are at most this.
fn at_most(column: u32x8, hi: u32) -> u64
    ensures { result ≡ mask_l (map (λ x. nat_le x hi) column) }
{
    column.simd_le(u32x8::splat(hi)).to_bitmask()
}

// Which of so many rows lie between the bounds in each dimension.
pub(crate) fn mask_between(dims: &Dims, len: usize, lo: &[u32], hi: &[u32]) -> u64
    requires few { len ≤ MAX_ROWS }
    requires same { length lo.now ≡ length hi.now }
    requires within { length lo.now ≤ 4 }
    ensures { IsMaskBelow len dims.now lo.now hi.now (length lo.now) result }
{
    let mut mask = u64::MAX;
    for dim in 0..lo.len() {
        mask &= mask_of(&dims[dim], len, lo[dim], hi[dim]);
    }
    mask
}

// Which of the first so many values of a column lie in lo ..= hi. All of its places are compared, and then those behind are left out.
fn mask_of(column: &[u32; MAX_ROWS], len: usize, lo: u32, hi: u32) -> u64
    requires { len ≤ MAX_ROWS }
    ensures { IsMaskOf lo hi (take len column.now) result }
{
    mask_of_all(column, lo, hi) & places_below(len)
}

// Which values of a column lie in lo ..= hi, eight at a time. How often the loop goes on is known, so that it is compiled to none.
fn mask_of_all(column: &[u32], lo: u32, hi: u32) -> u64
    requires { length column.now ≡ MAX_ROWS }
    ensures { IsMaskOf lo hi column.now result }
{
    let mut mask = 0;
    for chunk in 0..MAX_ROWS / LANES {
        let lanes = u32x8::from_slice(&column[LANES * chunk..]);
        mask |= u64::from(within(lanes, lo, hi)) << (LANES * chunk);
    }
    mask
}

/// The mask of the first `len` places, 64 at most.
pub fn places_below(len: usize) -> u64
    requires { len ≤ MAX_ROWS }
    ensures { result ≡ 2 ^ len - 1 }
{
    if len < MAX_ROWS {
        (1 << len) - 1
    } else {
        u64::MAX
    }
}
