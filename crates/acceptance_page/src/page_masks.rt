// Masks of regions of every length and every number of dimensions, row by row beside membership.
ghost use Rattle.std.specs.Prelude.{◌≤◌};

use crate::bigmin::box_between;
use crate::samples::{holds, region_page, row, table};
use ub_page::RegionPage;
use ub_table::{Key, Row, Schema};

// The least coordinate, the two in the middle, and the greatest.
const VALUES: [u32; 4] = [0, 2_147_483_647, 2_147_483_648, 4_294_967_295];

// The bounds that two of them are.
const BOUNDS: [(u32, u32); 10] = [
    (0, 0),
    (0, 2_147_483_647),
    (2_147_483_647, 2_147_483_648),
    (0, 4_294_967_295),
    (2_147_483_648, 4_294_967_295),
    (2_147_483_647, 2_147_483_647),
    (0, 2_147_483_648),
    (2_147_483_648, 2_147_483_648),
    (2_147_483_647, 4_294_967_295),
    (4_294_967_295, 4_294_967_295),
];

// The point of so many dimensions with coordinates of VALUES that has this rank by address. The rank tells of each coordinate the
// highest bit, and behind these of each whether its other bits are ones.
fn point_of_rank(dims: u32, rank: u32) -> [u32; 4]
    requires { dims ≤ 4 }
{
    let mut point = [0; 4];
    for dim in 0..dims {
        let place = dims - 1 - dim;
        let high = (rank >> (dims + place)) % 2;
        let rest = (rank >> place) % 2;
        point[dim as usize] = VALUES[(2 * high + rest) as usize];
    }
    point
}

// 64 rows in the order of their keys, at all points of up to three dimensions with such coordinates,
// and at every fourth of four.
fn rows_of(dims: u32) -> [Row; 64]
    requires { dims ≤ 4 }
{
    let mut rows = [row(1, 0, 0, 0); 64];
    for i in 0..64u32 {
        let rank = match dims {
            1 => i / 16,
            2 => i / 4,
            3 => i,
            _ => 4 * i + i % 4,
        };
        rows[i as usize].number = i + 1;
        rows[i as usize].dims = point_of_rank(dims, rank);
    }
    rows
}

// The box whose bounds in the first dimension are those of this number, and in the others those
// that follow.
fn corners(number: usize) -> ([u32; 4], [u32; 4]) {
    let mut lo = [0; 4];
    let mut hi = [0; 4];
    for dim in 0..4usize {
        let (from, to) = BOUNDS[(number % 10 + 3 * dim) % 10];
        lo[dim] = from;
        hi[dim] = to;
    }
    (lo, hi)
}

// The mask for these corners of the region whose page has these rows, if as many are read.
fn mask(schema: &Schema, rows: &[Row], lo: &[u32; 4], hi: &[u32; 4]) -> Option<u64> {
    let (dims, measures) = (schema.dims() as usize, schema.measures() as usize);
    let zbox = box_between(schema.dims(), lo, hi)?;
    let page = region_page(dims, measures, Key { z: 0, number: 0 }, rows);
    match RegionPage::read(schema, &page) {
        Ok(region) if region.len() == rows.len() => Some(region.mask(&zbox)),
        _ => None,
    }
}

// Whether a row is within these corners in the first dimensions.
fn is_inside(dims: u32, row: &Row, lo: &[u32; 4], hi: &[u32; 4]) -> bool {
    let mut is_inside = true;
    for dim in 0..4usize {
        let is_between = (lo[dim] <= row.dims[dim]) & (row.dims[dim] <= hi[dim]);
        is_inside &= (dims as usize <= dim) | is_between;
    }
    is_inside
}

// The same by membership, row by row.
fn membership(dims: u32, rows: &[Row], lo: &[u32; 4], hi: &[u32; 4]) -> u64 {
    let mut mask = 0;
    let mut bit = 1u64;
    for row in rows {
        if is_inside(dims, row, lo, hi) {
            mask |= bit;
        }
        bit = bit.wrapping_mul(2);
    }
    mask
}

// Whether these rows have the masks that membership tells.
fn are_as_told(schema: &Schema, rows: &[Row]) -> bool {
    for number in 0..10usize {
        let (lo, hi) = corners(number);
        let told = membership(schema.dims(), rows, &lo, &hi);
        if mask(schema, rows, &lo, &hi) != Some(told) {
            return false;
        }
    }
    true
}

// Whether the masks of the first rows are as told, of as many as there can be, and as few.
fn are_as_told_in(schema: &Schema, rows: &[Row; 64]) -> bool {
    for len in 0..=64usize {
        if !are_as_told(schema, &rows[..len]) {
            return false;
        }
    }
    true
}

#[test]
fn masks_are_membership(rt: HostRuntime) {
    for dims in 1..=4u32 {
        let schema = table(&b"xyzw"[..dims as usize], dims, 64).expect(&rt, "a table");
        holds(&rt, "masks", are_as_told_in(&schema, &rows_of(dims)));
    }
}

// The mask of the rows (1,1) and (0,2) tells of the second alone, which has a first coordinate of 0.
#[test]
fn a_mask_tells_the_second(rt: HostRuntime) {
    let schema = table(b"xy", 2, 64).expect(&rt, "a table");
    let rows = [row(1, 1, 1, 0), row(4, 0, 2, 0)];
    let told = mask(&schema, &rows, &[0; 4], &[0, 3, 0, 0]);
    holds(&rt, "a mask", told == Some(0b10));
}
