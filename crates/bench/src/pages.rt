use crate::events::box_between;
use crate::generator::Generator;
use crate::table::table;
use ub_bigmin::ZBox;
use ub_page::{Page, RegionPage};
use ub_table::{PageFault, Schema};
use ub_zaddr::{Shape, last, spread};

/// How many rows stand on the page.
const ROWS: u32 = 64;

// Puts a number into a page, on so many bytes from an offset on, the highest byte first.
fn poke(page: &mut [u8], at: usize, width: u32, number: u128) {
    let mut rest = number;
    for i in 0..width {
        let place = at.wrapping_add((width - 1 - i) as usize);
        if place < page.len() {
            page[place] = (rest % 256) as u8;
        }
        rest /= 256;
    }
}

// Puts a row into a page: after so many, the point of this address, and this measure.
fn poke_row(page: &mut Page, shape: Shape, after: u32, z: u128, measure: u32) {
    let row = after as usize;
    poke(page, 24 + 4 * row, 4, u128::from(after) + 1);
    let mut column = 280usize;
    if let Ok(point) = spread(shape, z) {
        for value in point.values() {
            poke(page, column.wrapping_add(4 * row), 4, u128::from(*value));
            column = column.wrapping_add(256);
        }
    }
    poke(page, column.wrapping_add(8 * row), 8, u128::from(measure));
}

// The page of 64 rows of this shape with a measure, by hand: the numbers, each dimension, and the measure. They stand at addresses
// that lie about as far apart as there is room for.
fn page_of(shape: Shape) -> Page {
    let mut page = [0; 4096];
    poke(
        &mut page,
        0,
        4,
        0x5200_0140 + (u128::from(shape.dims()) << 16),
    );
    let mut numbers = Generator::new(64);
    let width = last(shape) / u128::from(ROWS);
    let mut z = 0u128;
    for after in 0..ROWS {
        poke_row(&mut page, shape, after, z, numbers.coordinate());
        let more = u128::from(numbers.coordinate() >> 20).saturating_mul(width >> 13);
        z = z.saturating_add(width / 2).saturating_add(more);
    }
    page
}

// The page's rows in the box, one bit for each: this region takes them in.
fn filtered(
    schema: &Schema,
    page: &Page,
    zbox: &ZBox,
    region: &mut RegionPage,
) -> Result<u64, PageFault> {
    if zbox.lo().values().len() != schema.dims() as usize {
        return Ok(0);
    }
    region.fill(schema, page)?;
    Ok(region.mask(zbox))
}

/// The checksum of the masks of a page with 64 rows, which is read into one region and filtered by one box so many times.
pub fn read_and_filter(dims: u32, calls: u64) -> Result<u64, PageFault> {
    let schema = table(dims, (dims as usize).saturating_add(1), ROWS)?;
    let shape = schema.shape();
    // The middle half of each dimension.
    let Some(zbox) = box_between(shape, &[1 << 30; 4], &[3 << 30; 4]) else {
        return Ok(0);
    };
    let page = page_of(shape);
    let mut region = RegionPage::empty(shape);
    let mut sum = 0u64;
    for _ in 0..calls {
        sum = sum.rotate_left(1) ^ filtered(&schema, &page, &zbox, &mut region)?;
    }
    Ok(sum)
}
