// The boxes of conditions, where they are many, and of a signed dimension; and how many points they have.
use crate::cases::{Case, table};
use std::alloc::{AllocError, Global};
use ub_boxes::{Cover, boxes, points, total};
use ub_query::{Cond, Operator};
use ub_table::Schema;

fn compare(column: usize, operator: Operator, value: u8) -> Cond {
    Cond::Compare {
        column,
        operator,
        value: i128::from(value),
    }
}

fn either(alloc: Global, a: Cond, b: Cond) -> Result<Cond, AllocError> {
    Ok(Cond::Or(Box::new(alloc, a)?, Box::new(alloc, b)?))
}

// a = 64, or one of a and b is 2, 4, .. or 62.
fn many(alloc: Global) -> Result<Cond, AllocError> {
    let mut some = compare(0, Operator::Equal, 64);
    for half in 1..=31u8 {
        let evens = either(
            alloc,
            compare(0, Operator::Equal, 2 * half),
            compare(1, Operator::Equal, 2 * half),
        )?;
        some = either(alloc, some, evens)?;
    }
    Ok(some)
}

// A condition.
#[derive(Clone, Copy)]
enum Filter {
    // None.
    All,
    // The one of many cells.
    Many,
    // a <= 2 OR b >= 2.
    Corner,
    // A comparison of the first dimension.
    Compare(Operator, i128),
}

fn filter_of(alloc: Global, filter: Filter) -> Result<Option<Cond>, AllocError> {
    match filter {
        Filter::All => Ok(None),
        Filter::Many => Ok(Some(many(alloc)?)),
        Filter::Corner => {
            let low = compare(0, Operator::AtMost, 2);
            Ok(Some(either(alloc, low, compare(1, Operator::AtLeast, 2))?))
        }
        Filter::Compare(operator, value) => Ok(Some(Cond::Compare {
            column: 0,
            operator,
            value,
        })),
    }
}

// The dimensions of a table, the mask of those that are signed, a condition, how many boxes it has, how many points the boxes but the first
// have, and how many all of them have, if that can be told.
pub(crate) struct Covered(&'static [u8], u32, Filter, usize, u128, Option<u128>);

pub(crate) static COVERED: &[Covered] = &[
    // The space of four dimensions has 2^128 points.
    Covered(b"abcd", 0, Filter::All, 1, 0, None),
    // Beside the first box there are (2^32 - 3) * (2^32 - 2) points, and 3 * 2^32 in it.
    Covered(
        b"ab",
        0,
        Filter::Corner,
        2,
        18_446_744_052_234_715_142,
        Some(18_446_744_065_119_617_030),
    ),
    // 65 times 63 cells. Beside each of the 32 values of a, b is free; beside the 33 gaps between them it has 31 values. The first gap is of
    // 0 and 1.
    Covered(
        b"ab",
        0,
        Filter::Many,
        1055,
        270_582_938_654,
        Some(270_582_938_656),
    ),
    // Of a signed dimension. The literal, or the number after it, is no value: there is no cut, and the comparison holds everywhere, or
    // nowhere.
    Covered(
        b"a",
        1,
        Filter::Compare(Operator::AtMost, 2_147_483_647),
        1,
        0,
        Some(4_294_967_296),
    ),
    Covered(
        b"a",
        1,
        Filter::Compare(Operator::Greater, 2_147_483_647),
        0,
        0,
        Some(0),
    ),
    Covered(
        b"a",
        1,
        Filter::Compare(Operator::AtLeast, -2_147_483_648),
        1,
        0,
        Some(4_294_967_296),
    ),
    Covered(
        b"a",
        1,
        Filter::Compare(Operator::Less, -2_147_483_648),
        0,
        0,
        Some(0),
    ),
    Covered(
        b"a",
        1,
        Filter::Compare(Operator::Equal, 2_147_483_648),
        0,
        0,
        Some(0),
    ),
    Covered(
        b"a",
        1,
        Filter::Compare(Operator::NotEqual, -2_147_483_649),
        1,
        0,
        Some(4_294_967_296),
    ),
    Covered(
        b"a",
        1,
        Filter::Compare(Operator::AtMost, i128::MAX),
        1,
        0,
        Some(4_294_967_296),
    ),
    Covered(
        b"a",
        1,
        Filter::Compare(Operator::Greater, i128::MAX),
        0,
        0,
        Some(0),
    ),
    Covered(
        b"a",
        1,
        Filter::Compare(Operator::AtLeast, i128::MIN),
        1,
        0,
        Some(4_294_967_296),
    ),
    Covered(
        b"a",
        1,
        Filter::Compare(Operator::Less, i128::MIN),
        0,
        0,
        Some(0),
    ),
    // The first cut that there is, the last one, and those round zero.
    Covered(
        b"a",
        1,
        Filter::Compare(Operator::Greater, -2_147_483_648),
        1,
        0,
        Some(4_294_967_295),
    ),
    Covered(
        b"a",
        1,
        Filter::Compare(Operator::AtMost, 2_147_483_646),
        1,
        0,
        Some(4_294_967_295),
    ),
    Covered(
        b"a",
        1,
        Filter::Compare(Operator::Less, 0),
        1,
        0,
        Some(2_147_483_648),
    ),
    Covered(b"a", 1, Filter::Compare(Operator::Equal, -1), 1, 0, Some(1)),
    Covered(
        b"a",
        1,
        Filter::Compare(Operator::NotEqual, 0),
        2,
        2_147_483_647,
        Some(4_294_967_295),
    ),
];

// Whether a cover has so many boxes and points, and says all of its condition.
fn is_cover(cover: &Cover, case: &Covered) -> bool {
    (cover.boxes().len() == case.3)
        & (total(cover.boxes().get(1..).unwrap_or(&[])) == Some(case.4))
        & (total(cover.boxes()) == case.5)
        & (points(cover) == case.5)
        & cover.is_exact()
        & !cover.is_wide()
}

// Whether the boxes of a condition are such a one.
fn is_covered(alloc: Global, filter: Option<&Cond>, schema: &Schema, case: &Covered) -> bool {
    match boxes(alloc, filter, schema) {
        Ok(cover) => is_cover(&cover, case),
        Err(_) => false,
    }
}

impl Case for Covered {
    fn holds(&self, alloc: Global) -> bool {
        let dims = self.0.len().min(4) as u32;
        let Ok(schema) = table(self.0, dims, self.1) else {
            return false;
        };
        match filter_of(alloc, self.2) {
            Ok(filter) => is_covered(alloc, filter.as_ref(), &schema, self),
            Err(_) => false,
        }
    }
}
