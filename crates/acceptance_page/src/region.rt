// The rows of a region in memory, which are put in, taken out, split and joined.
ghost use Rattle.std.specs.Prelude.{◌≤◌};

use crate::samples::{Case, all_hold, row};
use std::mem::swap;
use ub_region::RegionPage;
use ub_table::{Key, Row};
use ub_zaddr::Shape;

// The key that the first region of a table begins with.
const ORIGIN: Key = Key { z: 0, number: 0 };

// Rows of a space of four dimensions in the order of their keys: the number, the coordinates, and
// the address, in which bit k of the coordinates stands at the bits 4 * k + 3 to 4 * k. Three of
// them are at one address.
static SAMPLES: [(u32, [u32; 4], u128); 7] = [
    (7, [0, 0, 0, 1], 1),
    (2, [0, 1, 0, 2], 20),
    (3, [1, 2, 3, 4], 362),
    (5, [1, 2, 3, 4], 362),
    (6, [1, 2, 3, 4], 362),
    (1, [8, 0, 1, 0], 32_770),
    (4, [0, 16, 0, 5], 262_401),
];

// The places in SAMPLES of a page's rows and of one more, whichever of them is put in among the others, how many of them stay in the left
// half, and the first key of the right one.
struct Halves(&'static [usize], usize, Key);

// Two, three and four rows on a page.
static HALVES: &[Halves] = &[
    Halves(&[0, 1, 2], 2, Key { z: 362, number: 0 }),
    Halves(&[1, 2, 3], 2, Key { z: 362, number: 5 }),
    Halves(&[2, 3, 4], 2, Key { z: 362, number: 6 }),
    Halves(
        &[3, 4, 5],
        2,
        Key {
            z: 32_770,
            number: 0,
        },
    ),
    Halves(&[0, 1, 2, 6], 2, Key { z: 362, number: 0 }),
    Halves(&[1, 2, 3, 4], 2, Key { z: 362, number: 5 }),
    Halves(
        &[0, 1, 2, 5, 6],
        3,
        Key {
            z: 32_770,
            number: 0,
        },
    ),
    Halves(&[1, 2, 3, 4, 5], 3, Key { z: 362, number: 6 }),
];

// Four places.
const FOUR: &[usize] = &[0, 1, 3, 6];

// The key of an address and a number.
fn key(z: u128, number: u32) -> Key {
    Key { z, number }
}

// The row at a place of SAMPLES, and its address.
fn sample(place: usize) -> (Row, u128) {
    let (number, dims, z) = SAMPLES[place % 7];
    let m = i64::from(number);
    let measures = [
        m,
        m.wrapping_neg(),
        i64::MIN.wrapping_add(m),
        i64::MAX.wrapping_sub(m),
    ];
    (
        Row {
            number,
            dims,
            measures,
        },
        z,
    )
}

// Puts a row in at an index, where there is room for it.
fn put(region: &mut RegionPage, index: usize, row: &Row) -> bool {
    if 64 <= region.len() || region.len() < index {
        return false;
    }
    region.insert_at(index, row);
    true
}

// Takes the row at an index out, where there is one.
fn take_out(region: &mut RegionPage, index: usize) -> bool {
    if region.len() <= index {
        return false;
    }
    region.remove_at(index);
    true
}

// A region of the rows of these places.
fn region_of(shape: Shape, places: &[usize]) -> RegionPage {
    let mut region = RegionPage::empty(shape);
    for place in places {
        let end = region.len();
        put(&mut region, end, &sample(*place).0);
    }
    region
}

// Whether a region of four dimensions has this first key, and the rows of these places with their
// keys.
fn is_region(region: &RegionPage, first: Key, places: &[usize]) -> bool {
    if region.len() != places.len() {
        return false;
    }
    for i in 0..region.len() {
        let (row, z) = sample(places[i]);
        if region.row(i) != row || region.key(i) != key(z, row.number) {
            return false;
        }
    }
    region.first() == first && region.shape().dims() == 4
}

// Splits the rows of a region, two or more, with one more at an index.
fn split(left: &mut RegionPage, index: usize, row: &Row, right: &mut RegionPage) -> bool {
    if left.len() < 2 || left.len() < index {
        return false;
    }
    left.split_with(index, row, right);
    true
}

// Joins a region with the next one of its space, and tells whether a page holds both.
fn join(region: &mut RegionPage, next: &RegionPage, page_rows: u32) -> bool {
    page_rows <= 64 && next.shape() == region.shape() && region.join(next, page_rows)
}

// Whether the rows of these places are split so where the one at this index is put in among the others. The region of the right half was
// one of another space before.
fn are_halves(shape: Shape, other: Shape, halves: &Halves, index: usize) -> bool {
    let places = halves.0;
    let count = halves.1.min(places.len());
    if places.len() <= index {
        return false;
    }
    let mut left = region_of(shape, places);
    let mut right = region_of(other, FOUR);
    take_out(&mut left, index)
        & split(&mut left, index, &sample(places[index]).0, &mut right)
        & is_region(&left, ORIGIN, &places[..count])
        & is_region(&right, halves.2, &places[count..])
}

// In a space, beside another one.
impl Case<[Shape; 2]> for Halves {
    fn holds(&self, shapes: &[Shape; 2]) -> bool {
        for index in 0..self.0.len() {
            if !are_halves(shapes[0], shapes[1], self, index) {
                return false;
            }
        }
        true
    }
}

// The row at an index of a line: their numbers begin with 1, and they are at every second address.
fn on_line(i: usize) -> Row
    requires { i ≤ 128 }
{
    row(i as u32 + 1, 2 * i as u32, 0, i as i64)
}

// Whether a region has this first key, and so many rows of the line from an index on.
fn is_line(region: &RegionPage, first: Key, from: usize, count: usize) -> bool
    requires { from ≤ 64 }
{
    for i in 0..region.len() {
        let row = on_line(from + i);
        let z = u128::from(row.dims[0]);
        if region.row(i) != row || region.key(i) != key(z, row.number) {
            return false;
        }
    }
    region.len() == count && region.first() == first
}

// A region of 64 of the first 65 rows of the line, all but the one at an index.
fn line_without(line: Shape, index: usize) -> RegionPage {
    let mut region = RegionPage::empty(line);
    for i in 0..65usize {
        let end = region.len();
        if i != index {
            put(&mut region, end, &on_line(i));
        }
    }
    region
}

// Where a page of 64 rows is split by a 65th one: the halves are joined only once they have a row less.
struct Full(usize);

// At each end, beside these, and in the middle.
static FULL: &[Full] = &[Full(0), Full(1), Full(32), Full(33), Full(63), Full(64)];

impl Case<Shape> for Full {
    fn holds(&self, line: &Shape) -> bool {
        let index = self.0.min(64);
        let mut left = line_without(*line, index);
        let mut right = RegionPage::empty(*line);
        split(&mut left, index, &on_line(index), &mut right)
            & is_line(&left, ORIGIN, 0, 33)
            & is_line(&right, key(66, 0), 33, 32)
            & !join(&mut left, &right, 64)
            & take_out(&mut left, 0)
            & is_line(&left, ORIGIN, 1, 32)
            & join(&mut left, &right, 64)
            & is_line(&left, ORIGIN, 1, 64)
    }
}

// Three regions, the first of which is changed.
#[derive(Drop)]
struct Regions {
    first: RegionPage,
    second: RegionPage,
    third: RegionPage,
}

// A call of a region.
enum Call {
    // The first region is taken to be that of these places.
    Take(&'static [usize]),
    // The second region is the first from then on, the third the second, and the first the third.
    Turn,
    // The row of a place is put in at an index.
    Put(usize, usize),
    // The row at an index is taken out.
    Out(usize),
    // A row of this address and number is taken out, or there is none.
    Remove(u128, u32, bool),
    // Whether the rows are few where pages hold so many.
    Few(u32, bool),
    // With the row of a place at an index more, the right half of the rows goes to the second region.
    Split(usize, usize),
    // Whether the second region is joined where pages hold so many.
    Join(u32, bool),
    // The rows of these places are put behind.
    Append(&'static [usize]),
    // The first key, and the rows of these places.
    Is(Key, &'static [usize]),
}

// Puts the rows of these places behind those of a region, where there is room for them.
fn append(region: &mut RegionPage, places: &[usize]) -> bool {
    let next = region_of(region.shape(), places);
    if next.shape() != region.shape() || 64 < region.len() + next.len() {
        return false;
    }
    region.append(&next);
    true
}

impl Regions {
    // Whether a call is answered so.
    fn answers(&mut self, call: &Call) -> bool {
        match call {
            Call::Take(places) => {
                self.first = region_of(self.first.shape(), places);
                true
            }
            Call::Turn => {
                swap(&mut self.first, &mut self.second);
                swap(&mut self.second, &mut self.third);
                true
            }
            Call::Put(index, place) => put(&mut self.first, *index, &sample(*place).0),
            Call::Out(index) => take_out(&mut self.first, *index),
            Call::Remove(z, number, wanted) => self.first.remove(&key(*z, *number)) == *wanted,
            Call::Few(page_rows, wanted) => self.first.are_few(*page_rows) == *wanted,
            Call::Split(index, place) => {
                let row = sample(*place).0;
                split(&mut self.first, *index, &row, &mut self.second)
            }
            Call::Join(page_rows, wanted) => {
                join(&mut self.first, &self.second, *page_rows) == *wanted
            }
            Call::Append(places) => append(&mut self.first, places),
            Call::Is(first, places) => is_region(&self.first, *first, places),
        }
    }
}

// Calls of three regions of a space of four dimensions that have no rows at first.
struct Calls(&'static [Call]);

impl Case<Shape> for Calls {
    fn holds(&self, shape: &Shape) -> bool {
        let mut regions = Regions {
            first: RegionPage::empty(*shape),
            second: RegionPage::empty(*shape),
            third: RegionPage::empty(*shape),
        };
        for call in self.0 {
            if !regions.answers(call) {
                return false;
            }
        }
        true
    }
}

// Where the right half of a half begins.
const BEGIN: Key = Key { z: 362, number: 5 };

// A right half that is split again begins where it did, and also once rows are taken out of it, put in and joined. The region of a right
// half was another one before. And the rows of some places stand behind those of others.
static SPLIT_AGAIN: &[Calls] = &[
    Calls(&[
        Call::Take(FOUR),
        Call::Turn,
        Call::Turn,
        Call::Take(&[1, 2, 3]),
        Call::Split(3, 4),
        Call::Is(ORIGIN, &[1, 2]),
        Call::Turn,
        Call::Split(2, 6),
        Call::Is(BEGIN, &[3, 4]),
        Call::Turn,
        Call::Is(
            Key {
                z: 262_401,
                number: 0,
            },
            &[6],
        ),
        Call::Turn,
        Call::Is(ORIGIN, &[1, 2]),
        Call::Turn,
        Call::Remove(362, 6, true),
        Call::Is(BEGIN, &[3]),
        Call::Put(1, 5),
        Call::Is(BEGIN, &[3, 5]),
        Call::Join(3, true),
        Call::Is(BEGIN, &[3, 5, 6]),
        Call::Turn,
        Call::Turn,
        Call::Join(5, true),
        Call::Is(ORIGIN, &[1, 2, 3, 5, 6]),
    ]),
    Calls(&[
        Call::Append(&[]),
        Call::Is(ORIGIN, &[]),
        Call::Take(&[0, 1]),
        Call::Append(&[]),
        Call::Is(ORIGIN, &[0, 1]),
        Call::Take(&[]),
        Call::Append(&[2, 6]),
        Call::Is(ORIGIN, &[2, 6]),
        Call::Take(&[0]),
        Call::Append(&[1, 4, 5]),
        Call::Is(ORIGIN, &[0, 1, 4, 5]),
        Call::Take(&[0, 1, 2]),
        Call::Append(&[6]),
        Call::Is(ORIGIN, &[0, 1, 2, 6]),
    ]),
];

// A row is taken out of a region, and put in again: the first of them, the second, the third, the last. And rows are taken out by their
// keys, where they are, and only then: by number and address both, among others of one address, and to the last one.
static TAKEN_OUT: &[Calls] = &[
    Calls(&[
        Call::Take(FOUR),
        Call::Out(0),
        Call::Is(ORIGIN, &[1, 3, 6]),
        Call::Put(0, 0),
        Call::Is(ORIGIN, FOUR),
        Call::Out(1),
        Call::Is(ORIGIN, &[0, 3, 6]),
        Call::Put(1, 1),
        Call::Is(ORIGIN, FOUR),
        Call::Out(2),
        Call::Is(ORIGIN, &[0, 1, 6]),
        Call::Put(2, 3),
        Call::Is(ORIGIN, FOUR),
        Call::Out(3),
        Call::Is(ORIGIN, &[0, 1, 3]),
        Call::Put(3, 6),
        Call::Is(ORIGIN, FOUR),
    ]),
    Calls(&[
        Call::Take(&[0, 2, 3, 4]),
        Call::Remove(362, 7, false),
        Call::Is(ORIGIN, &[0, 2, 3, 4]),
        Call::Remove(20, 3, false),
        Call::Is(ORIGIN, &[0, 2, 3, 4]),
        Call::Remove(361, 3, false),
        Call::Is(ORIGIN, &[0, 2, 3, 4]),
        Call::Remove(362, 0, false),
        Call::Is(ORIGIN, &[0, 2, 3, 4]),
        Call::Remove(362, 5, true),
        Call::Is(ORIGIN, &[0, 2, 4]),
        Call::Remove(362, 5, false),
        Call::Is(ORIGIN, &[0, 2, 4]),
        Call::Remove(1, 7, true),
        Call::Is(ORIGIN, &[2, 4]),
        Call::Remove(362, 6, true),
        Call::Is(ORIGIN, &[2]),
        Call::Remove(362, 3, true),
        Call::Is(ORIGIN, &[]),
        Call::Remove(362, 3, false),
        Call::Is(ORIGIN, &[]),
    ]),
];

// No row, one and two are told to be few, or not. Two regions of a row each are joined where a page holds two, and not where it holds one;
// and the one before with these where it holds three, and not where it holds two.
static FEW: &[Calls] = &[
    Calls(&[
        Call::Few(2, true),
        Call::Few(3, true),
        Call::Take(&[0]),
        Call::Few(2, false),
        Call::Few(3, false),
        Call::Few(4, true),
        Call::Take(&[0, 1]),
        Call::Few(4, false),
        Call::Few(5, false),
        Call::Few(6, true),
    ]),
    Calls(&[
        Call::Take(&[0]),
        Call::Turn,
        Call::Take(&[2]),
        Call::Turn,
        Call::Take(&[5]),
        Call::Turn,
        Call::Turn,
        Call::Join(1, false),
        Call::Is(ORIGIN, &[2]),
        Call::Join(2, true),
        Call::Is(ORIGIN, &[2, 5]),
        Call::Turn,
        Call::Turn,
        Call::Join(2, false),
        Call::Is(ORIGIN, &[0]),
        Call::Join(3, true),
        Call::Is(ORIGIN, &[0, 2, 5]),
        Call::Turn,
        Call::Is(ORIGIN, &[2, 5]),
        Call::Turn,
        Call::Is(ORIGIN, &[5]),
    ]),
];

#[test]
fn rows_are_put_in_and_taken_out(rt: HostRuntime) {
    let shape = Shape::new(4).expect(&rt, "four dimensions");
    let line = Shape::new(1).expect(&rt, "one dimension");
    all_hold(&rt, "halves of a page and a row", &[shape, line], HALVES);
    all_hold(
        &rt,
        "halves of a half, and rows appended",
        &shape,
        SPLIT_AGAIN,
    );
    all_hold(&rt, "rows taken out and put in", &shape, TAKEN_OUT);
    all_hold(&rt, "few rows, and few rows joined", &shape, FEW);
    all_hold(&rt, "halves of a full page", &line, FULL);
}
