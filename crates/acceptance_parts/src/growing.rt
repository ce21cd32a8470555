// Regions worked out by hand, with two rows on a page: three rows split into the first two by their keys and the last one.
ghost use Rattle.std.specs.Prelude.{◌≤◌, length};

use crate::cases::Case;
use std::alloc::{AllocError, Global};
use ub_growing::{Grown, grow};
use ub_table::{Key, Row};
use ub_zaddr::Shape;

// A region: the address and the number of its first key, the number of the row that made it, and those of its rows.
type Worked = (u128, u32, u32, &'static [u32]);

// The dimensions of a space, the points of rows that are put in one after the other, numbered from 1 on, and the regions that they make.
pub(crate) struct Growth(u32, &'static [[u32; 2]], &'static [Worked]);

pub(crate) static GROWN: &[Growth] = &[
    // At the addresses 3, 13, 10, 4 and 13. The third row splits the first region at 10 and 13, the fourth at 4 and 10, and the last one
    // goes to the region that begins with 13.
    Growth(
        2,
        &[[1, 1], [2, 3], [3, 0], [0, 2], [2, 3]],
        &[(0, 0, 0, &[1, 4]), (10, 0, 4, &[3]), (13, 0, 3, &[2, 5])],
    ),
    // Rows that ascend: each third one is the only one of a region, which the next one fills.
    Growth(
        1,
        &[
            [1, 0],
            [2, 0],
            [3, 0],
            [4, 0],
            [5, 0],
            [6, 0],
            [7, 0],
            [8, 0],
            [9, 0],
            [10, 0],
        ],
        &[
            (0, 0, 0, &[1, 2]),
            (3, 0, 3, &[3, 4]),
            (5, 0, 5, &[5, 6]),
            (7, 0, 7, &[7, 8]),
            (9, 0, 9, &[9, 10]),
        ],
    ),
    // Rows that descend: from the third on each leaves the greatest of the first region alone.
    Growth(
        1,
        &[
            [10, 0],
            [9, 0],
            [8, 0],
            [7, 0],
            [6, 0],
            [5, 0],
            [4, 0],
            [3, 0],
            [2, 0],
            [1, 0],
        ],
        &[
            (0, 0, 0, &[10, 9]),
            (3, 0, 10, &[8]),
            (4, 0, 9, &[7]),
            (5, 0, 8, &[6]),
            (6, 0, 7, &[5]),
            (7, 0, 6, &[4]),
            (8, 0, 5, &[3]),
            (9, 0, 4, &[2]),
            (10, 0, 3, &[1]),
        ],
    ),
    // Rows at one address, which their numbers part.
    Growth(
        1,
        &[[7, 0]; 9],
        &[
            (0, 0, 0, &[1, 2]),
            (7, 3, 3, &[3, 4]),
            (7, 5, 5, &[5, 6]),
            (7, 7, 7, &[7, 8]),
            (7, 9, 9, &[9]),
        ],
    ),
    // No rows are one region.
    Growth(1, &[], &[(0, 0, 0, &[])]),
];

// The regions of rows at these points.
fn grow_points(alloc: Global, dims: u32, points: &[[u32; 2]]) -> Result<Grown, AllocError>
    requires { length points.now ≤ 400 }
{
    let Ok(shape) = Shape::new(dims) else {
        return Err(AllocError);
    };
    let mut rows = Vec::new(alloc);
    for i in 0..points.len() {
        let [x, y] = points[i];
        rows.push(Row {
            number: i as u32 + 1,
            dims: [x, y, 0, 0],
            measures: [0; 4],
        })?;
    }
    grow(alloc, shape, 2, rows)
}

// Whether rows have just these numbers.
fn have_numbers(rows: &[Row], numbers: &[u32]) -> bool {
    if rows.len() != numbers.len() {
        return false;
    }
    for i in 0..rows.len() {
        if rows[i].number != numbers[i] {
            return false;
        }
    }
    true
}

// Whether the regions are those that were worked out.
fn are(grown: &Grown, regions: &[Worked]) -> bool {
    if grown.len() != regions.len() {
        return false;
    }
    for i in 0..regions.len() {
        let (z, number, made_by, rows) = regions[i];
        if grown.first(i) != (Key { z, number })
            || grown.made_by(i) != made_by
            || !have_numbers(grown.rows(i), rows)
        {
            return false;
        }
    }
    true
}

impl Case for Growth {
    fn holds(&self, alloc: Global) -> bool {
        if self.1.len() > 400 {
            return false;
        }
        match grow_points(alloc, self.0, self.1) {
            Ok(grown) => are(&grown, self.2),
            Err(_) => false,
        }
    }
}

// Where the row of a number stands on the line: the first 200 rows at the even places 2 to 400, and then 200 at the odd ones.
fn place_of(number: u32) -> u32 {
    if number <= 200 {
        2 * number
    } else {
        2 * number.min(400) - 401
    }
}

// The first place of the region at an index, and how many it has. The first 200 rows make regions of two places each, as 6 and 8. The
// odd place between them leaves the greater one alone, and the next odd place comes to that one. At the front 1 leaves 4 alone,
// and then 3 itself.
fn places_at(index: u32) -> (u32, usize) {
    match index {
        0 => (1, 2),
        1 => (3, 1),
        2..200 => (2 * index, 2),
        _ => (400, 1),
    }
}

// Whether the region at an index has just the rows of its places, in their order, and begins with the first of these; the first
// region with 0.
fn is_many_at(grown: &Grown, index: usize) -> bool {
    if index > 200 || index >= grown.len() {
        return false;
    }
    let (from, count) = places_at(index as u32);
    let rows = grown.rows(index);
    if rows.len() != count {
        return false;
    }
    for i in 0..rows.len() {
        let place = rows[i].dims[0];
        if place as usize != from as usize + i || place_of(rows[i].number) != place {
            return false;
        }
    }
    grown.first(index).z == if index == 0 { 0 } else { u128::from(from) }
}

// Whether there are 201 regions, and each is as it should be.
fn are_many(grown: &Grown) -> bool {
    for index in 0..grown.len() {
        if !is_many_at(grown, index) {
            return false;
        }
    }
    grown.len() == 201
}

// Whether the regions of rows that come to the even places, and then to the odd ones, are as they should be.
pub(crate) fn is_many(alloc: Global) -> bool {
    let mut points = [[0, 0]; 400];
    for i in 0..400u32 {
        points[i as usize] = [place_of(i + 1), 0];
    }
    match grow_points(alloc, 1, &points) {
        Ok(grown) => are_many(&grown),
        Err(_) => false,
    }
}
