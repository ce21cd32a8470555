// What several of these tests start from.
use std::process::Abort;
use ub_page::Page;
use ub_table::{Key, Name, PageFault, Row, Schema};

// A row of a table of cases: what is asked of something, and what is to be answered.
pub(crate) trait Case<T> {
    // Whether it is answered so.
    fn holds(&self, of: &T) -> bool;
}

// Asserts that all cases hold of this, by what they show and the place of the first one that doesn't.
pub(crate) fn all_hold<T, C: Case<T>>(rt: &impl Abort, shown: &str, of: &T, cases: &[C]) {
    for i in 0..cases.len() {
        assert!(rt; cases[i].holds(of), "{shown}: case {i}");
    }
}

// Asserts that something is so, by what it shows.
pub(crate) fn holds(rt: &impl Abort, shown: &str, is_so: bool) {
    assert!(rt; is_so, "{shown}");
}

// A table t whose columns have these letters for names, and the first of them are its dimensions.
pub(crate) fn table(letters: &[u8], dims: u32, page_rows: u32) -> Result<Schema, PageFault> {
    signed_table(letters, dims, page_rows, 0)
}

// The same where the dimensions whose bits this mask has are signed.
pub(crate) fn signed_table(
    letters: &[u8],
    dims: u32,
    page_rows: u32,
    signed: u32,
) -> Result<Schema, PageFault> {
    let name = Name::new(b"t")?;
    let count = letters.len().min(8);
    let mut columns = [name; 8];
    for i in 0..count {
        columns[i] = Name::new(&letters[i..=i])?;
    }
    Schema::new(name, &columns[..count], dims, page_rows, signed)
}

// A table t of the dimensions x and y and the measure m, with two rows on a page.
pub(crate) fn plane() -> Result<Schema, PageFault> {
    table(b"xym", 2, 2)
}

// A row of it.
pub(crate) fn row(number: u32, x: u32, y: u32, m: i64) -> Row {
    Row {
        number,
        dims: [x, y, 0, 0],
        measures: [m, 0, 0, 0],
    }
}

// Whether this is the table t of two dimensions x and y and a measure m, with two rows on a page, where the dimensions whose bits this
// mask has are signed.
pub(crate) fn is_plane(schema: &Schema, signed: u32) -> bool {
    let numbers = [
        schema.dims(),
        schema.measures(),
        schema.page_rows(),
        schema.signed(),
    ];
    let [x, y, m] = schema.columns() else {
        return false;
    };
    (numbers == [2, 1, 2, signed])
        & (schema.name().bytes() == b"t".as_slice())
        & (x.bytes() == b"x".as_slice())
        & (y.bytes() == b"y".as_slice())
        & (m.bytes() == b"m".as_slice())
}

// Puts these bytes into a page, one after the other.
fn change(page: &mut Page, changes: &[(usize, u8)]) {
    for (place, byte) in changes {
        page[*place % 4096] = *byte;
    }
}

// A page of zeros but for these bytes, and then for these.
pub(crate) fn page_of(bytes: &[(usize, u8)], changes: &[(usize, u8)]) -> Page {
    let mut page = [0; 4096];
    change(&mut page, bytes);
    change(&mut page, changes);
    page
}

// Puts a number into a page, on so many bytes from an offset on, the highest byte first.
fn poke(page: &mut [u8], at: usize, width: u32, number: u128) {
    let mut rest = number;
    for i in 0..width {
        let place = at.wrapping_add((width - 1 - i) as usize);
        if place < page.len() {
            page[place] = (rest % 256) as u8;
        }
        rest /= 256;
    }
}

// A number of 64 bits in two's complement.
fn word(x: i64) -> u128 {
    let size = u128::from(x.unsigned_abs());
    if x < 0 { (1 << 64) - size } else { size }
}

// A page that is written from its beginning on.
#[derive(Drop)]
struct Ink {
    page: Page,
    at: usize,
}

impl Ink {
    // Puts a number on so many bytes.
    fn put(&mut self, width: u32, number: u128) {
        poke(&mut self.page, self.at, width, number);
        self.at = self.at.wrapping_add(width as usize);
    }

    // Puts a column of rows.
    fn put_column(&mut self, rows: &[Row], column: usize) {
        for row in rows {
            let (width, number) = cell_of(row, column);
            self.put(width, number);
        }
    }
}

// The bytes and the number of a row's column: its number, four coordinates, and four measures.
fn cell_of(row: &Row, column: usize) -> (u32, u128) {
    match column {
        0 => (4, u128::from(row.number)),
        1..=4 => (4, u128::from(row.dims[column - 1])),
        _ => (8, word(row.measures[column.saturating_sub(5).min(3)])),
    }
}

// The page of a region, by hand: so many dimensions and measures, the first key, and these rows, 64 at most.
pub(crate) fn region_page(dims: usize, measures: usize, first: Key, rows: &[Row]) -> Page {
    let rows = &rows[..rows.len().min(64)];
    let mut ink = Ink {
        page: [0; 4096],
        at: 0,
    };
    ink.put(1, 0x52);
    ink.put(1, dims as u128);
    ink.put(1, measures as u128);
    ink.put(1, rows.len() as u128);
    ink.put(16, first.z);
    ink.put(4, u128::from(first.number));
    for column in 0..9usize {
        if column <= dims || (5 <= column && column - 5 < measures) {
            ink.put_column(rows, column);
        }
    }
    ink.page
}
