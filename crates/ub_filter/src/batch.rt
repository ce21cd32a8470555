ghost use Rattle.std.specs.Prelude.{◌≡◌, ◌-◌, ◌^◌, ◌<◌, ◌≤◌, length, map, slice_index_or, take};
ghost use Rattle.ub_filter.specs.Batch.{rows_at};
ghost use Rattle.ub_table.specs.Table.{column_value};

use ub_page::RegionPage;
use ub_query::RowBatch;
use ub_region::masks::places_below;
use ub_table::{MAX_ROWS, Row, Schema};

/// The rows of a page at the places of a mask, for a sink that takes them at once: bit i is that of place i. Bits behind the
/// page's rows mean nothing.
#[derive(Drop)]
pub(crate) struct PageBatch<'a> {
    pub(crate) page: &'a RegionPage,
    pub(crate) mask: u64,
}

impl<'a> RowBatch for PageBatch<'a> {
    ghost use Rattle.ub_filter.specs.Batch.{rows_at};

    ghost rows = { λ b. rows_at b.mask b.page.now.region.rows };

    fn count(&self) -> usize {
        count_at(self.page, self.mask)
    }

    fn put_values(&self, schema: &Schema, column: usize, values: &mut [i64; MAX_ROWS]) {
        if count_at(self.page, self.mask) == self.page.len() {
            put_all(self.page, schema, column, values);
        } else {
            put_at(self.page, self.mask, schema, column, values);
        }
    }
}

// How many rows of a page stand at the places of a mask.
fn count_at(page: &RegionPage, mask: u64) -> usize
    ensures count { result ≡ length (rows_at mask page.now.region.rows) }
    ensures few { result ≤ MAX_ROWS }
{
    (mask & places_below(page.len())).count_ones() as usize
}

// Puts the values of all rows of a page in a column into the first places of a list. The loop has no test, so that it is compiled
// to a copy of the column by wide words.
fn put_all(page: &RegionPage, schema: &Schema, column: usize, values: &mut [i64; MAX_ROWS])
    requires { column < length schema.now.columns }
    ensures long { length values.new ≡ MAX_ROWS }
    ensures values { take (length page.now.region.rows) values.new
        ≡ map (λ row. column_value schema.now row column) page.now.region.rows }
{
    for place in 0..page.len() {
        values[place] = value_in(schema, &page.row(place), column);
    }
}

// The same of those at the places of a mask. The loop goes from one 1 of the mask to the next, so that it asks nothing of a row;
// it stands by itself, since then the column is chosen before it.
#[inline(never)]
fn put_at(
    page: &RegionPage,
    mask: u64,
    schema: &Schema,
    column: usize,
    values: &mut [i64; MAX_ROWS],
)
    requires { column < length schema.now.columns }
    ensures long { length values.new ≡ MAX_ROWS }
    ensures values { take (length (rows_at mask page.now.region.rows)) values.new
        ≡ map (λ row. column_value schema.now row column) (rows_at mask page.now.region.rows) }
{
    let mut left = mask & places_below(page.len());
    for count in 0..count_at(page, mask) {
        let place = left.trailing_zeros() as usize;
        values[count] = value_in(schema, &page.row(place), column);
        left &= left - 1;
    }
}

// The value of a row in a column. As `pick` names each place, no more of a row that is made for it is read than that column.
#[inline(always)]
fn value_in(schema: &Schema, row: &Row, column: usize) -> i64
    requires { column < length schema.now.columns }
    ensures { result ≡ column_value schema.now row.now column }
{
    let dims = schema.dims() as usize;
    if column < dims {
        schema.value(column, pick(&row.dims, column))
    } else {
        pick(&row.measures, column - dims)
    }
}

// One of four values.
#[inline(always)]
fn pick<T: Copy>(values: &[T; 4], index: usize) -> T
    requires { index < 4 }
    ensures { (d : T) → result ≡ slice_index_or values.now index d }
{
    match index {
        0 => values[0],
        1 => values[1],
        2 => values[2],
        _ => values[3],
    }
}
