// The rows of a region's page in columns of host order: their numbers, dimensions and measures, each column in 64 places. Where
// a page was read, a column that the schema doesn't have is blank. What stands in the places behind the last row means nothing.
ghost use Rattle.std.specs.Prelude.{◌≡◌, ℕ, ◌+◌, ◌*◌, ◌<◌, ◌≤◌, ◌-◌, [], pos, drop, length, map, replicate, take, slice_index_or};
ghost use Rattle.std.specs.List.{insert, range_with_len};
ghost use Rattle.std.specs.Int.{w64, cast_signed};
ghost use Rattle.ub_bytes.specs.Bytes.{number_at};
ghost use Rattle.ub_region.specs.Columns.{block, blank_dims, blank_measures, point_in, values_in, key_in, row_in};

use byteorder::{BigEndian, ByteOrder};
use ub_bytes::Page;
use ub_table::{Key, MAX_ROWS, Row};
use ub_zaddr::{Shape, interleave_places};

/// The number of each row.
pub type Numbers = [u32; MAX_ROWS];

/// The first dimension of each row, then the second, and so on.
pub type Dims = [[u32; MAX_ROWS]; 4];

/// The first measure of each row, then the second, and so on.
pub type Measures = [[i64; MAX_ROWS]; 4];

/// Puts in a column the numbers of so many rows of a page.
pub fn read_numbers(numbers: &mut Numbers, page: &Page, count: usize)
    requires { count ≤ MAX_ROWS }
    ensures { numbers.new
        ≡ map (λ i. number_at 4 (24 + 4 * i) page.now) (range_with_len 0 MAX_ROWS) }
{
    read_dim(numbers, page, 0, 24, count);
}

/// Puts in the columns the dimensions of so many rows, the first of which begin at an offset of the
/// page.
pub fn read_dims(columns: &mut Dims, page: &Page, dims: usize, offset: usize, count: usize)
    requires dims { dims ≤ 4 }
    requires offset { offset ≤ 280 }
    requires count { count ≤ MAX_ROWS }
    ensures { columns.new ≡ block 4 blank_dims (λ d. map
        (λ i. number_at 4 (offset + 4 * (count * d + i)) page.now) (range_with_len 0 MAX_ROWS)) dims }
{
    blank_from(columns, dims, 0);
    for dim in 0..dims {
        read_dim(&mut columns[dim], page, dim, offset, count);
    }
}

// One dimension of them. All places of the column are read, since a loop whose length is known is compiled to wide words alone.
// What comes to stand behind the last row is what the page has there.
fn read_dim(column: &mut [u32; MAX_ROWS], page: &Page, dim: usize, offset: usize, count: usize)
    requires dim { dim < 4 }
    requires offset { offset ≤ 280 }
    requires count { count ≤ MAX_ROWS }
    ensures { column.new ≡ map (λ i. number_at 4 (offset + 4 * (count * dim + i)) page.now)
        (range_with_len 0 MAX_ROWS) }
{
    let start = offset + 4 * (count * dim);
    BigEndian::read_u32_into(&page[start..start + 4 * MAX_ROWS], column);
}

/// Puts in the columns the measures of so many rows, the first of which begin at an offset of the
/// page.
pub fn read_measures(
    columns: &mut Measures,
    page: &Page,
    measures: usize,
    offset: usize,
    count: usize,
)
    requires measures { measures ≤ 4 }
    requires offset { offset ≤ 1304 }
    requires count { count ≤ MAX_ROWS }
    ensures { columns.new ≡ block 4 blank_measures (λ m. map
        (λ i. cast_signed w64 (number_at 8 (offset + 8 * (count * m + i)) page.now))
        (range_with_len 0 MAX_ROWS)) measures }
{
    blank_from(columns, measures, 0);
    for measure in 0..measures {
        read_measure(&mut columns[measure], page, measure, offset, count);
    }
}

// One measure of them, in the same way.
fn read_measure(
    column: &mut [i64; MAX_ROWS],
    page: &Page,
    measure: usize,
    offset: usize,
    count: usize,
)
    requires measure { measure < 4 }
    requires offset { offset ≤ 1304 }
    requires count { count ≤ MAX_ROWS }
    ensures { column.new
        ≡ map (λ i. cast_signed w64 (number_at 8 (offset + 8 * (count * measure + i)) page.now))
        (range_with_len 0 MAX_ROWS) }
{
    let start = offset + 8 * (count * measure);
    BigEndian::read_i64_into(&page[start..start + 8 * MAX_ROWS], column);
}

// Blanks the columns from an index on.
fn blank_from<T: Copy>(columns: &mut [[T; MAX_ROWS]; 4], from: usize, blank: T)
    requires { from ≤ 4 }
    ensures long { length columns.new ≡ 4 }
    ensures blank { drop from columns.new ≡ replicate (4 - from) (replicate MAX_ROWS blank) }
{
    for column in from..4 {
        columns[column] = [blank; MAX_ROWS];
    }
}

/// The dimensions of the row at an index.
pub fn point_at(dims: &Dims, i: usize) -> [u32; 4]
    requires { i < MAX_ROWS }
    ensures { result ≡ point_in dims.now i }
{
    [dims[0][i], dims[1][i], dims[2][i], dims[3][i]]
}

// The measures of the row at an index.
fn values_at(measures: &Measures, i: usize) -> [i64; 4]
    requires { i < MAX_ROWS }
    ensures { result ≡ values_in measures.now i }
{
    [
        measures[0][i],
        measures[1][i],
        measures[2][i],
        measures[3][i],
    ]
}

/// The key of the row at an index: its address is made here.
pub fn key_at(shape: Shape, numbers: &Numbers, dims: &Dims, i: usize) -> Key
    requires { i < MAX_ROWS }
    ensures { result ≡ key_in shape numbers.now dims.now i }
{
    Key {
        z: interleave_places(shape, &point_at(dims, i)),
        number: numbers[i],
    }
}

/// The row at an index of the columns.
pub fn row_at(numbers: &Numbers, dims: &Dims, measures: &Measures, i: usize) -> Row
    requires { i < MAX_ROWS }
    ensures { result ≡ row_in numbers.now dims.now measures.now i }
{
    Row {
        number: numbers[i],
        dims: point_at(dims, i),
        measures: values_at(measures, i),
    }
}

/// Puts a value in at an index of the first so many of a column, before those that stand from there on.
pub fn put_in<T: Copy>(column: &mut [T; MAX_ROWS], len: usize, index: usize, value: T)
    requires room { len < MAX_ROWS }
    requires within { index ≤ len }
    ensures long { length column.new ≡ MAX_ROWS }
    ensures put { take (len + 1) column.new ≡ insert (take len column.old) index value }
    ensures below { (j : ℕ) (d : T) → j < index
        → slice_index_or column.new j d ≡ slice_index_or column.old j d }
    ensures at { (d : T) → slice_index_or column.new index d ≡ value }
    ensures above { (j : ℕ) (d : T) → index ≤ j → j < len
        → slice_index_or column.new (j + 1) d ≡ slice_index_or column.old j d }
{
    if index < len {
        column.copy_within(index..len, index + 1);
    }
    column[index] = value;
}

/// Puts the dimensions of a row in at an index of the first so many.
pub fn put_point(columns: &mut Dims, len: usize, index: usize, point: &[u32; 4])
    requires room { len < MAX_ROWS }
    requires within { index ≤ len }
    ensures long { (d : ℕ) → d < 4 → length (slice_index_or columns.new d []) ≡ MAX_ROWS }
    ensures below { (j : ℕ) → j < index → point_in columns.new j ≡ point_in columns.old j }
    ensures at { point_in columns.new index ≡ point.now }
    ensures above { (j : ℕ) → index ≤ j → j < len
        → point_in columns.new (j + 1) ≡ point_in columns.old j }
{
    put_in(&mut columns[0], len, index, point[0]);
    put_in(&mut columns[1], len, index, point[1]);
    put_in(&mut columns[2], len, index, point[2]);
    put_in(&mut columns[3], len, index, point[3]);
}

/// Puts the measures of a row in at an index of the first so many.
pub fn put_values(columns: &mut Measures, len: usize, index: usize, values: &[i64; 4])
    requires room { len < MAX_ROWS }
    requires within { index ≤ len }
    ensures below { (j : ℕ) → j < index → values_in columns.new j ≡ values_in columns.old j }
    ensures at { values_in columns.new index ≡ values.now }
    ensures above { (j : ℕ) → index ≤ j → j < len
        → values_in columns.new (j + 1) ≡ values_in columns.old j }
{
    put_in(&mut columns[0], len, index, values[0]);
    put_in(&mut columns[1], len, index, values[1]);
    put_in(&mut columns[2], len, index, values[2]);
    put_in(&mut columns[3], len, index, values[3]);
}

/// Takes out what stands at an index of the first so many of a column: those behind it follow.
pub fn take_out<T: Copy>(column: &mut [T; MAX_ROWS], len: usize, index: usize)
    requires few { len ≤ MAX_ROWS }
    requires within { index < len }
    ensures long { length column.new ≡ MAX_ROWS }
    ensures below { (j : ℕ) (d : T) → j < index
        → slice_index_or column.new j d ≡ slice_index_or column.old j d }
    ensures above { (j : ℕ) (d : T) → index ≤ j → j + 1 < len
        → slice_index_or column.new j d ≡ slice_index_or column.old (j + 1) d }
{
    column.copy_within(index + 1..len, index);
}

/// Takes out the dimensions at an index of the first so many.
pub fn take_point_out(columns: &mut Dims, len: usize, index: usize)
    requires few { len ≤ MAX_ROWS }
    requires within { index < len }
    ensures long { (d : ℕ) → d < 4 → length (slice_index_or columns.new d []) ≡ MAX_ROWS }
    ensures below { (j : ℕ) → j < index → point_in columns.new j ≡ point_in columns.old j }
    ensures above { (j : ℕ) → index ≤ j → j + 1 < len
        → point_in columns.new j ≡ point_in columns.old (j + 1) }
{
    take_out(&mut columns[0], len, index);
    take_out(&mut columns[1], len, index);
    take_out(&mut columns[2], len, index);
    take_out(&mut columns[3], len, index);
}

/// Takes out the measures at an index of the first so many.
pub fn take_values_out(columns: &mut Measures, len: usize, index: usize)
    requires few { len ≤ MAX_ROWS }
    requires within { index < len }
    ensures below { (j : ℕ) → j < index → values_in columns.new j ≡ values_in columns.old j }
    ensures above { (j : ℕ) → index ≤ j → j + 1 < len
        → values_in columns.new j ≡ values_in columns.old (j + 1) }
{
    take_out(&mut columns[0], len, index);
    take_out(&mut columns[1], len, index);
    take_out(&mut columns[2], len, index);
    take_out(&mut columns[3], len, index);
}

/// Puts so many values of another column, from an index of it on, in the place of those from an index on.
pub fn copy_in<T: Copy>(
    column: &mut [T; MAX_ROWS],
    at: usize,
    other: &[T; MAX_ROWS],
    from: usize,
    count: usize,
)
    requires room { at + count ≤ MAX_ROWS }
    requires there { from + count ≤ MAX_ROWS }
    ensures long { length column.new ≡ MAX_ROWS }
    ensures below { (j : ℕ) (d : T) → j < at
        → slice_index_or column.new j d ≡ slice_index_or column.old j d }
    ensures copied { (j : ℕ) (d : T) → j < count
        → slice_index_or column.new (at + j) d ≡ slice_index_or other.now (from + j) d }
{
    let values = &other[..];
    let places = &mut column[..];
    places[at..at + count].copy_from_slice(&values[from..from + count]);
}

/// Puts so many dimensions of other columns, from an index of them on, in the place of those from an index on.
pub fn copy_points(columns: &mut Dims, at: usize, other: &Dims, from: usize, count: usize)
    requires room { at + count ≤ MAX_ROWS }
    requires there { from + count ≤ MAX_ROWS }
    ensures long { (d : ℕ) → d < 4 → length (slice_index_or columns.new d []) ≡ MAX_ROWS }
    ensures below { (j : ℕ) → j < at → point_in columns.new j ≡ point_in columns.old j }
    ensures copied { (j : ℕ) → j < count
        → point_in columns.new (at + j) ≡ point_in other.now (from + j) }
{
    copy_in(&mut columns[0], at, &other[0], from, count);
    copy_in(&mut columns[1], at, &other[1], from, count);
    copy_in(&mut columns[2], at, &other[2], from, count);
    copy_in(&mut columns[3], at, &other[3], from, count);
}

/// Puts so many measures of other columns, from an index of them on, in the place of those from an index on.
pub fn copy_values(columns: &mut Measures, at: usize, other: &Measures, from: usize, count: usize)
    requires room { at + count ≤ MAX_ROWS }
    requires there { from + count ≤ MAX_ROWS }
    ensures below { (j : ℕ) → j < at → values_in columns.new j ≡ values_in columns.old j }
    ensures copied { (j : ℕ) → j < count
        → values_in columns.new (at + j) ≡ values_in other.now (from + j) }
{
    copy_in(&mut columns[0], at, &other[0], from, count);
    copy_in(&mut columns[1], at, &other[1], from, count);
    copy_in(&mut columns[2], at, &other[2], from, count);
    copy_in(&mut columns[3], at, &other[3], from, count);
}
