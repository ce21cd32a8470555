// Regions that are written and read. Which pages are refused, and why, is text of `tree_transcripts` ('What the reader of a region
// refuses').
use crate::samples::{holds, page_of, plane, region_page, row, table};
use ub_page::{Draft, Page, RegionPage};
use ub_table::{Key, PageFault, Row, Schema};

// The bytes of a page of two rows from the address 0 on.
const LOW: &[(usize, u8)] = &[
    (0, 0x52),
    (1, 2),
    (2, 1),
    (3, 2),
    (27, 1),
    (31, 4),
    (35, 1),
    (43, 1),
    (47, 2),
    (55, 10),
    (63, 7),
];

// And of two rows from the address 13 on.
const HIGH: &[(usize, u8)] = &[
    (0, 0x52),
    (1, 2),
    (2, 1),
    (3, 2),
    (19, 13),
    (27, 2),
    (31, 5),
    (35, 2),
    (39, 2),
    (43, 3),
    (47, 3),
    (55, 20),
    (63, 1),
];

// The key that the first region of a table begins with.
const ORIGIN: Key = Key { z: 0, number: 0 };

// Whether a region has this first key and these rows.
fn is_region(region: &RegionPage, first: Key, rows: &[Row]) -> bool {
    if region.len() != rows.len() {
        return false;
    }
    for i in 0..region.len() {
        if rows[i] != region.row(i) {
            return false;
        }
    }
    region.first() == first
}

// Writes the region that a page tells of, and tells whether it has this first key and these rows.
fn is_told(schema: &Schema, page: &Page, first: Key, rows: &[Row], draft: &mut Draft) -> bool {
    match RegionPage::read(schema, page) {
        Ok(region) => {
            region.write(schema, draft);
            is_region(&region, first, rows)
        }
        Err(_) => false,
    }
}

// Whether this first key and these rows are read from a page, and written so over a page of three rows.
fn is_written(schema: &Schema, page: &Page, first: Key, rows: &[Row]) -> bool {
    let three = [row(1, 0, 0, 1), row(2, 0, 0, 2), row(3, 0, 0, -1)];
    let longer = region_page(2, 1, ORIGIN, &three);
    let mut draft = Draft::new();
    match table(b"xym", 2, 4) {
        Ok(larger) => {
            is_told(&larger, &longer, ORIGIN, &three, &mut draft)
                & (draft.page() == &longer)
                & is_told(schema, page, first, rows, &mut draft)
                & (draft.page() == page)
        }
        Err(_) => false,
    }
}

// Whether a page of these bytes is written and read as these rows from an address on, and a region
// takes them in.
fn is_kept(
    region: &mut RegionPage,
    schema: &Schema,
    bytes: &[(usize, u8)],
    z: u128,
    rows: &[Row; 2],
) -> bool {
    let page = page_of(bytes, &[]);
    let first = Key { z, number: 0 };
    is_written(schema, &page, first, rows)
        & region.fill(schema, &page).is_ok()
        & is_region(region, first, rows)
}

// Whether a region of no rows takes in a page, then another one, and has no rows once a page is refused.
fn takes_in(schema: &Schema) -> bool {
    let mut region = RegionPage::empty(schema.shape());
    let is_empty = region.len() == 0;
    let low = [row(1, 1, 1, 10), row(4, 0, 2, 7)];
    let is_low = is_kept(&mut region, schema, LOW, 0, &low);
    let high = [row(2, 2, 3, 20), row(5, 2, 3, 1)];
    let is_high = is_kept(&mut region, schema, HIGH, 13, &high);
    let refused = region.fill(schema, &page_of(LOW, &[(19, 4)])) == Err(PageFault::OutOfRegion);
    is_empty & is_low & is_high & refused & is_region(&region, ORIGIN, &[])
}

// Whether the region of the first page tells its keys.
fn tells_keys(region: &RegionPage) -> bool {
    if region.len() != 2 {
        return false;
    }
    let keys = [Key { z: 3, number: 1 }, Key { z: 4, number: 4 }];
    (region.numbers() == [1, 4].as_slice())
        & (region.key(0) == keys[0])
        & (region.key(1) == keys[1])
}

// Numbers and coordinates of rows, and where each goes into the region of the first page, by address and number: nowhere, where the region
// has the key.
static PLACES: &[(u32, u32, u32, Option<usize>)] = &[
    (9, 1, 0, Some(0)),
    (0, 1, 1, Some(0)),
    (1, 1, 1, None),
    (2, 1, 1, Some(1)),
    (3, 0, 2, Some(1)),
    (4, 0, 2, None),
    (1, 2, 0, Some(2)),
];

// Whether rows go there.
fn tells_places(schema: &Schema) -> bool {
    let Ok(region) = RegionPage::read(schema, &page_of(LOW, &[])) else {
        return false;
    };
    for place in PLACES {
        if region.place_of(&row(place.0, place.1, place.2, 0)) != place.3 {
            return false;
        }
    }
    tells_keys(&region)
}

// 64 rows of a table of four dimensions and four measures, in the order of their keys.
fn widest_rows() -> [Row; 64] {
    let mut rows = [row(16_777_215, 0, 0, 0); 64];
    for i in 0..64u32 {
        let number = if i == 63 { 16_777_215 } else { i + 1 };
        rows[i as usize] = Row {
            number,
            dims: [0, u32::MAX, 7, i],
            measures: [i64::MIN, i64::MAX, -1, i64::from(i)],
        };
    }
    rows
}

// Whether a full page is written and read.
fn holds_full_pages(schema: &Schema) -> bool {
    let rows = widest_rows();
    let first = Key {
        z: 0,
        number: 16_777_215,
    };
    let page = region_page(4, 4, first, &rows);
    is_written(schema, &page, first, &rows)
}

#[test]
fn regions_are_written_and_read(rt: HostRuntime) {
    let schema = plane().expect(&rt, "a plane");
    holds(
        &rt,
        "one page after the other is taken in",
        takes_in(&schema),
    );
    holds(&rt, "keys and places", tells_places(&schema));
    let widest = table(b"abcdefgh", 4, 64).expect(&rt, "a table");
    holds(&rt, "full pages", holds_full_pages(&widest));
}
