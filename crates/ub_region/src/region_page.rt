ghost use Rattle.std.specs.Prelude.{◌≡◌, ◌+◌, ◌-◌, ◌*◌, ◌≤◌, ◌<◌, [], ◌++◌, ◌↔◌, ℕ, Ok, Some, length, map, take, drop, slice_get, IsTrue, IsOk, IfOk, IfErr, OnOk, OnErr};
ghost use Rattle.std.specs.Int.{bit_at};
ghost use Rattle.std.specs.List.{AllByRecursion, insert};
ghost use Rattle.ub_bytes.specs.Bytes.{number_at, layout, padded};
ghost use Rattle.ub_region.specs.Columns.{end_with, dims_in, measures_in, IsRowNumber};
ghost use Rattle.ub_region.specs.RegionPage.{head_fields, region_page, region_on, empty_region, IsRegionKind, HasCounts, HasRows, HasOrder, HasFirst, IsRegionFault, IsRowInside};
ghost use Rattle.ub_table.specs.Keys.{is_same, precedes, AreKeysAscending};
ghost use Rattle.ub_table.specs.Region.{RegionRows, key_of, keys_of, measures_of, IsNumbered, IsFirst, AreFrom, IsRegion};
ghost use Rattle.ub_table.specs.declared.row.Key.{Key as KeyView};

use crate::columns::{
    Dims, Measures, Numbers, copy_in, copy_points, copy_values, key_at, put_in, put_point,
    put_values, read_dims, read_measures, read_numbers, row_at, take_out, take_point_out,
    take_values_out,
};
use crate::masks::mask_between;
use crate::order;
use crate::region::ORIGIN;
use std::marker::Model;
use ub_bigmin::ZBox;
use ub_bytes::page::{is_blank_from, u8_at, u32_at, u128_at};
use ub_bytes::{Draft, Page};
use ub_table::{Key, MAX_ROW_NUMBER, MAX_ROWS, PageFault, Row, Schema};
use ub_zaddr::{Shape, last};

// 'R', with which each page of a region begins.
const KIND: u8 = 0x52;

/// A region's page that has been read: the first key, and the rows in the order of their keys, none before the first key.
///
/// The rows stand in columns of host order. Each is made when it is asked for, and so is each key: rows are compared without.
#[derive(Drop)]
pub struct RegionPage {
    shape: Shape,
    first: Key,
    numbers: Numbers,
    dims: Dims,
    measures: Measures,
    len: usize,
}

impl Model for RegionPage {
    ghost use Rattle.ub_region.specs.Held.{held, AreColumns};
    ghost use Rattle.ub_region.specs.RegionPage.{RegionView};

    ghost Value = { RegionView };

    ghost view = { held };

    ghost invariant = { AreColumns };
}

impl RegionPage {
    /// The region that the page tells of. Otherwise the first of these that holds: `WrongKind` (the first byte is not
    /// 'R'), `BadCount` (the numbers of dimensions and measures are not the schema's, or there are more rows than the
    /// schema's page holds), `BadRow` (a row's number is not 1 to 16777215, or the first key's is above that, or its
    /// address is above the last of the schema's space), `BadOrder` (the rows' keys do not ascend), `OutOfRegion` (a
    /// row's key is before the first key), `BadPadding` (a byte that no field uses is not zero). Takes no memory.
    pub fn read(schema: &Schema, page: &Page) -> Result<RegionPage, PageFault>
        ensures dims { IfOk result (λ r. r.dims ≡ schema.now.dims) }
        ensures on { IfOk result (λ r. r.region ≡ region_on schema.now page.now) }
        ensures found { IfOk result
            (λ r. IsRegion schema.now r.region × (page.now ≡ region_page schema.now r.region)) }
        ensures exact { (region : RegionRows) → IsRegion schema.now region
            → page.now ≡ region_page schema.now region
            → result ≡ Ok (record { dims = schema.now.dims; region = region }) }
        ensures refused { IfErr result (IsRegionFault schema.now page.now) }
    {
        let mut region = RegionPage::empty(schema.shape());
        region.fill(schema, page)?;
        Ok(region)
    }

    /// A region of no rows from the first address on, for `fill`. Takes no memory.
    pub fn empty(shape: Shape) -> RegionPage
        ensures { result ≡ empty_region shape }
    {
        RegionPage::from_first(shape, ORIGIN)
    }

    // A region of no rows from a first key on.
    fn from_first(shape: Shape, first: Key) -> RegionPage
        ensures { result ≡ record { dims = shape; region = record { first = first; rows = [] } } }
    {
        RegionPage {
            shape,
            first,
            numbers: [0; MAX_ROWS],
            dims: [[0; MAX_ROWS]; 4],
            measures: [[0; MAX_ROWS]; 4],
            len: 0,
        }
    }

    /// Puts the region that the page tells of in the place of this one, so that no region moves. It is refused as by
    /// `read`, and then a region of no rows stands here. Takes no memory.
    pub fn fill(&mut self, schema: &Schema, page: &Page) -> Result<(), PageFault>
        ensures dims { self.new.dims ≡ schema.now.dims }
        ensures on { OnOk result (self.new.region ≡ region_on schema.now page.now) }
        ensures found { OnOk result (IsRegion schema.now self.new.region
            × (page.now ≡ region_page schema.now self.new.region)) }
        ensures exact { (region : RegionRows) → IsRegion schema.now region
            → page.now ≡ region_page schema.now region
            → IsOk result × (self.new ≡ record { dims = schema.now.dims; region = region }) }
        ensures refused { IfErr result (IsRegionFault schema.now page.now) }
        ensures empty { OnErr result (self.new ≡ empty_region schema.now.dims) }
    {
        match self.take_in(schema, page) {
            Ok(()) => Ok(()),
            Err(fault) => {
                self.restart(schema.shape(), ORIGIN);
                Err(fault)
            }
        }
    }

    // Takes in what stands on the page, where all of it is in range and in order.
    fn take_in(&mut self, schema: &Schema, page: &Page) -> Result<(), PageFault>
        ensures dims { OnOk result (self.new.dims ≡ schema.now.dims) }
        ensures on { OnOk result (self.new.region ≡ region_on schema.now page.now) }
        ensures found { OnOk result (IsRegion schema.now self.new.region
            × (page.now ≡ region_page schema.now self.new.region)) }
        ensures exact { (region : RegionRows) → IsRegion schema.now region
            → page.now ≡ region_page schema.now region
            → IsOk result × (self.new ≡ record { dims = schema.now.dims; region = region }) }
        ensures refused { IfErr result (IsRegionFault schema.now page.now) }
    {
        self.take_in_fields(schema, page)?;
        if !is_blank_from(page, end_of(schema, self.len())) {
            return Err(PageFault::BadPadding);
        }
        Ok(())
    }

    // Takes in what its fields tell, where that is in range and in order.
    fn take_in_fields(&mut self, schema: &Schema, page: &Page) -> Result<(), PageFault>
        ensures region { OnOk result ((self.new.dims ≡ schema.now.dims)
            × (self.new.region ≡ region_on schema.now page.now)) }
        ensures range { OnOk result
            (IsRegionKind page.now × HasCounts schema.now page.now × HasRows schema.now page.now) }
        ensures order { OnOk result (HasOrder schema.now page.now × HasFirst schema.now page.now) }
        ensures refused { IfErr result (IsRegionFault schema.now page.now) }
    {
        if u8_at(page, 0) != KIND {
            return Err(PageFault::WrongKind);
        }
        if !has_counts(schema, page) {
            return Err(PageFault::BadCount);
        }
        self.take_in_columns(schema, page);
        if !has_rows(schema.shape(), self) {
            return Err(PageFault::BadRow);
        }
        if !self.is_ascending() {
            return Err(PageFault::BadOrder);
        }
        if !self.is_from_first() {
            return Err(PageFault::OutOfRegion);
        }
        Ok(())
    }

    // Takes in the first key and the rows that stand on the page.
    fn take_in_columns(&mut self, schema: &Schema, page: &Page)
        requires { number_at 1 3 page.now ≤ MAX_ROWS }
        ensures dims { self.new.dims ≡ schema.now.dims }
        ensures region { self.new.region ≡ region_on schema.now page.now }
    {
        let len = usize::from(u8_at(page, 3));
        let used = schema.dims() as usize;
        let offset = 24 + 4 * len;
        self.shape = schema.shape();
        self.first = Key {
            z: u128_at(page, 4),
            number: u32_at(page, 20),
        };
        read_dims(&mut self.dims, page, used, offset, len);
        read_measures(
            &mut self.measures,
            page,
            schema.measures() as usize,
            offset + 4 * (len * used),
            len,
        );
        read_numbers(&mut self.numbers, page, len);
        self.len = len;
    }

    /// The region's first key: no row of it is before.
    pub fn first(&self) -> Key
        ensures { result ≡ self.now.region.first }
    {
        self.first
    }

    /// The shape of its space.
    pub fn shape(&self) -> Shape
        ensures { result ≡ self.now.dims }
    {
        self.shape
    }

    /// How many rows there are: at most 64.
    pub fn len(&self) -> usize
        ensures len { result ≡ length self.now.region.rows }
        ensures few { result ≤ MAX_ROWS }
    {
        self.numbers().len()
    }

    /// The row at an index, from 0, of those there are.
    pub fn row(&self, i: usize) -> Row
        requires { i < length self.now.region.rows }
        ensures { slice_get self.now.region.rows i ≡ Some result }
    {
        row_at(&self.numbers, &self.dims, &self.measures, i)
    }

    /// The numbers of the rows, in the order of their keys: at most 64.
    pub fn numbers(&self) -> &[u32]
        ensures numbers { result.now ≡ map (λ row. row.number) self.now.region.rows }
        ensures few { length result.now ≤ MAX_ROWS }
    {
        &self.numbers[..self.len]
    }

    /// The key of the row at an index, from 0, of those there are: its address, which is made here, and its number.
    pub fn key(&self, i: usize) -> Key
        requires { i < length self.now.region.rows }
        ensures { slice_get (keys_of self.now.dims self.now.region.rows) i ≡ Some result }
    {
        key_at(self.shape, &self.numbers, &self.dims, i)
    }

    /// Whether the key of the row at an index, from 0, of those there are, is after that of another row.
    pub(crate) fn is_after(&self, i: usize, row: &Row) -> bool
        requires { i < length self.now.region.rows }
        ensures { (key : KeyView)
            → slice_get (keys_of self.now.dims self.now.region.rows) i ≡ Some key
            → result ≡ precedes (key_of self.now.dims row.now) key }
    {
        order::is_after(self.shape, &self.numbers, &self.dims, i, row)
    }

    /// Whether the key of the row at an index, from 0, of those there are, is before that of another row.
    pub(crate) fn is_before(&self, i: usize, row: &Row) -> bool
        requires { i < length self.now.region.rows }
        ensures { (key : KeyView)
            → slice_get (keys_of self.now.dims self.now.region.rows) i ≡ Some key
            → result ≡ precedes key (key_of self.now.dims row.now) }
    {
        order::is_before(self.shape, &self.numbers, &self.dims, i, row)
    }

    /// Whether the row at an index, from 0, of those there are, has this key: by number first, in which most differ.
    pub(crate) fn has_at(&self, i: usize, key: &Key) -> bool
        requires { i < length self.now.region.rows }
        ensures { (own : KeyView)
            → slice_get (keys_of self.now.dims self.now.region.rows) i ≡ Some own
            → result ≡ is_same key.now own }
    {
        key.number == self.numbers()[i] && key.z == self.key(i).z
    }

    // Whether the key of each row is before that of the next.
    fn is_ascending(&self) -> bool
        ensures { IsTrue result
            ↔ AreKeysAscending (keys_of self.now.dims self.now.region.rows) }
    {
        order::are_ascending(self.shape, &self.numbers, &self.dims, self.len)
    }

    // Whether no row, of rows in order, is before the first key.
    fn is_from_first(&self) -> bool
        requires { AreKeysAscending (keys_of self.now.dims self.now.region.rows) }
        ensures { IsTrue result
            ↔ AreFrom self.now.region.first (keys_of self.now.dims self.now.region.rows) }
    {
        let len = self.len();
        len == 0 || !self.key(0).is_before(&self.first)
    }

    /// Which rows lie in a box of the region's shape: bit i is 1 exactly where there is a row at index i, from 0, and it
    /// lies in the box. Takes no memory.
    pub fn mask(&self, zbox: &ZBox) -> u64
        requires { length zbox.now.lo ≡ self.now.dims }
        ensures { (i : ℕ) → (bit_at result i ≡ 1) ↔ IsRowInside self.now zbox.now i }
    {
        mask_between(&self.dims, self.len, zbox.lo().values(), zbox.hi().values())
    }

    /// Puts a row in at an index, from 0, before those that stand from there on. There is room for one. Takes no memory.
    pub fn insert_at(&mut self, index: usize, row: &Row)
        requires room { length self.old.region.rows < MAX_ROWS }
        requires within { index ≤ length self.old.region.rows }
        ensures { self.new ≡ record {
          dims = self.old.dims;
          region = record {
            first = self.old.region.first;
            rows = insert self.old.region.rows index row.now;
          };
        } }
    {
        let len = self.len;
        put_in(&mut self.numbers, len, index, row.number);
        put_point(&mut self.dims, len, index, &row.dims);
        put_values(&mut self.measures, len, index, &row.measures);
        self.len += 1;
    }

    /// Takes out the row at an index, from 0, of those there are. Takes no memory.
    pub fn remove_at(&mut self, index: usize)
        requires { index < length self.old.region.rows }
        ensures { self.new ≡ record {
          dims = self.old.dims;
          region = record {
            first = self.old.region.first;
            rows = take index self.old.region.rows ++ drop (index + 1) self.old.region.rows;
          };
        } }
    {
        let len = self.len;
        take_out(&mut self.numbers, len, index);
        take_point_out(&mut self.dims, len, index);
        take_values_out(&mut self.measures, len, index);
        self.len -= 1;
    }

    // Puts so many rows of another region of the same space, from an index of them on, in the place of its own from an
    // index on. A page has room for them.
    pub(crate) fn take_over(&mut self, at: usize, other: &RegionPage, from: usize, count: usize)
        requires space { other.now.dims ≡ self.old.dims }
        requires within { at ≤ length self.old.region.rows }
        requires there { from + count ≤ length other.now.region.rows }
        requires room { at + count ≤ MAX_ROWS }
        ensures { self.new ≡ record {
          dims = self.old.dims;
          region = record {
            first = self.old.region.first;
            rows = take at self.old.region.rows ++ take count (drop from other.now.region.rows);
          };
        } }
    {
        copy_in(&mut self.numbers, at, &other.numbers, from, count);
        copy_points(&mut self.dims, at, &other.dims, from, count);
        copy_values(&mut self.measures, at, &other.measures, from, count);
        self.len = at + count;
    }

    // Keeps so many of the rows, the first ones.
    pub(crate) fn truncate(&mut self, count: usize)
        requires { count ≤ length self.old.region.rows }
        ensures { self.new ≡ record {
          dims = self.old.dims;
          region = record {
            first = self.old.region.first;
            rows = take count self.old.region.rows;
          };
        } }
    {
        self.len = count;
    }

    // Leaves no rows, in a space of this shape, from a first key on.
    pub(crate) fn restart(&mut self, shape: Shape, first: Key)
        ensures { self.new ≡ record { dims = shape; region = record { first = first; rows = [] } } }
    {
        self.shape = shape;
        self.first = first;
        self.len = 0;
    }

    // Gives it another first key. The keys are not compared.
    pub(crate) fn start_at(&mut self, first: Key)
        ensures { self.new ≡ record {
          dims = self.old.dims;
          region = record { first = first; rows = self.old.region.rows };
        } }
    {
        self.first = first;
    }

    // The region of these rows from a first key on. The keys are not compared.
    fn of(shape: Shape, first: Key, rows: &[Row]) -> RegionPage
        requires { length rows.now ≤ MAX_ROWS }
        ensures { result ≡ record {
          dims = shape;
          region = record { first = first; rows = rows.now };
        } }
    {
        let mut region = RegionPage::from_first(shape, first);
        for row in rows {
            let end = region.len();
            region.insert_at(end, row);
        }
        region
    }

    /// Writes the page of the region, which is one of the schema's, over what was written before. Takes no memory.
    pub fn write(&self, schema: &Schema, draft: &mut Draft)
        requires { IsRegion schema.now self.now.region }
        ensures { padded draft.new ≡ region_page schema.now self.now.region }
    {
        let count = self.len;
        draft.clear();
        put_head(draft, schema, self.first, count);
        draft.put_words(&self.numbers, count);
        put_dims(draft, &self.dims, schema.dims() as usize, count);
        put_measures(draft, &self.measures, schema.measures() as usize, count);
    }
}

/// Writes the page of a region over what was written before: its first key and its rows. They are a region of the schema's:
/// no more rows than its pages hold, in the order of their keys, none before the first key, and every number in its range;
/// so the reader takes the page. Of each row it holds the number, and what the schema's columns hold. Takes no memory.
pub fn write_region(schema: &Schema, first: Key, rows: &[Row], draft: &mut Draft)
    requires { IsRegion schema.now (record { first = first; rows = rows.now }) }
    ensures page { padded draft.new
        ≡ region_page schema.now (record { first = first; rows = rows.now }) }
    ensures reads_back { region_on schema.now (padded draft.new)
        ≡ record { first = first; rows = rows.now } }
{
    RegionPage::of(schema.shape(), first, rows).write(schema, draft);
}

// Puts the kind of the page, how many dimensions, measures and rows there are, and the first key.
fn put_head(draft: &mut Draft, schema: &Schema, first: Key, count: usize)
    requires few { count ≤ MAX_ROWS }
    requires blank { draft.old ≡ [] }
    ensures bytes { draft.new
        ≡ layout (head_fields schema.now.dims (measures_of schema.now) count first) }
    ensures len { length draft.new ≡ 24 }
{
    draft.put_u8(KIND);
    draft.put_u8(schema.dims() as u8);
    draft.put_u8(schema.measures() as u8);
    draft.put_u8(count as u8);
    draft.put_u128(first.z);
    draft.put_u32(first.number);
}

// The first dimension of the first so many rows, then the second, and so on.
fn put_dims(draft: &mut Draft, columns: &Dims, dims: usize, count: usize)
    requires dims { dims ≤ 4 }
    requires count { count ≤ MAX_ROWS }
    requires room { length draft.old + 4 * (count * dims) ≤ 4096 }
    ensures bytes { draft.new ≡ draft.old ++ dims_in columns.now dims count }
    ensures len { length draft.new ≡ length draft.old + 4 * (count * dims) }
{
    for dim in 0..dims {
        draft.put_words(&columns[dim], count);
    }
}

// The first measure of the first so many rows, then the second, and so on.
fn put_measures(draft: &mut Draft, columns: &Measures, measures: usize, count: usize)
    requires measures { measures ≤ 4 }
    requires count { count ≤ MAX_ROWS }
    requires room { length draft.old + 8 * (count * measures) ≤ 4096 }
    ensures { draft.new ≡ draft.old ++ measures_in columns.now measures count }
{
    for measure in 0..measures {
        draft.put_measure(&columns[measure], count);
    }
}

// Whether the page tells of the schema's dimensions and measures, and of no more rows than its pages hold.
fn has_counts(schema: &Schema, page: &Page) -> bool
    ensures { IsTrue result ↔ HasCounts schema.now page.now }
{
    u32::from(u8_at(page, 1)) == schema.dims()
        && u32::from(u8_at(page, 2)) == schema.measures()
        && u32::from(u8_at(page, 3)) <= schema.page_rows()
}

// How many bytes of a page so many rows use.
fn end_of(schema: &Schema, count: usize) -> usize
    requires { count ≤ MAX_ROWS }
    ensures { result ≡ end_with schema.now count }
{
    let dims = schema.dims() as usize;
    let measures = schema.measures() as usize;
    24 + 4 * count + 4 * (count * dims) + 8 * (count * measures)
}

// Whether the first key and the rows' numbers are in range.
fn has_rows(shape: Shape, region: &RegionPage) -> bool
    requires { region.now.dims ≡ shape }
    ensures { IsTrue result
        ↔ (IsFirst shape region.now.region.first × AllByRecursion IsNumbered region.now.region.rows) }
{
    is_first(shape, &region.first()) && are_numbered(region.numbers())
}

fn is_first(shape: Shape, key: &Key) -> bool
    ensures { IsTrue result ↔ IsFirst shape key.now }
{
    key.z <= last(shape) && key.number <= MAX_ROW_NUMBER
}

fn are_numbered(numbers: &[u32]) -> bool
    ensures { IsTrue result ↔ AllByRecursion IsRowNumber numbers.now }
{
    let mut are_numbered = true;
    for number in numbers {
        are_numbered &= (*number >= 1) & (*number <= MAX_ROW_NUMBER);
    }
    are_numbered
}
