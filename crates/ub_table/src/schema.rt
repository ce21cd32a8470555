ghost use Rattle.std.specs.Prelude.{◌≡◌, ◌-◌, ◌<◌, ◌≤◌, ◌^◌, ◌↔◌, length, IsTrue, IsOk, IfOk, IsErrOf};
ghost use Rattle.ub_table.specs.Schema.{AreCounts, AreDistinct, AreNumbers, IsMask};

use crate::columns::Columns;
use crate::fault::PageFault;
use crate::name::Name;
use ub_zaddr::Shape;

/// The most rows that a region's page has.
pub const MAX_ROWS: usize = 64;

/// What a table is called and made of: its name, its columns (dimensions first, then measures), how many of them are
/// dimensions (1 to 4; 0 to 4 are measures), how many rows a region page holds (2 to 64), and which dimensions are signed.
#[derive(Drop)]
pub struct Schema {
    /// The table's name.
    pub name: Name,
    /// The columns, dimensions first.
    pub columns: Columns,
    /// How many columns are dimensions.
    pub dims: u32,
    /// How many rows a region page holds.
    pub page_rows: u32,
    /// Which dimensions are signed: bit i is that of dimension i.
    pub signed: u32,
    ghost counts: { AreCounts (length columns) dims page_rows },
    ghost mask: { IsMask dims signed },
    ghost distinct: { AreDistinct columns },
}

impl Schema {
    /// The schema of these parts, where there are 1 to 4 dimensions, 0 to 4 measures after them, and 2 to 64 rows on a
    /// page, and dimensions alone are signed, bit i of the mask for dimension i (`BadCount` otherwise), and no two columns
    /// have one name (`BadName` otherwise). Takes no memory.
    pub fn new(
        name: Name,
        columns: &[Name],
        dims: u32,
        page_rows: u32,
        signed: u32,
    ) -> Result<Schema, PageFault>
        ensures valid { IsOk result
            ↔ (AreNumbers (length columns.now) dims page_rows signed × AreDistinct columns.now) }
        ensures parts { IfOk result (λ s. (s.name ≡ name) × (s.columns ≡ columns.now)
            × (s.dims ≡ dims) × (s.page_rows ≡ page_rows) × (s.signed ≡ signed)) }
        ensures bad_count { IsErrOf result PageFault.BadCount
            ↔ (¬ (AreNumbers (length columns.now) dims page_rows signed)) }
        ensures bad_name { IsErrOf result PageFault.BadName
            ↔ (AreNumbers (length columns.now) dims page_rows signed × ¬ (AreDistinct columns.now)) }
    {
        if !are_numbers(columns.len(), dims, page_rows, signed) {
            return Err(PageFault::BadCount);
        }
        if !are_distinct(columns) {
            return Err(PageFault::BadName);
        }
        Ok(Schema {
            name,
            columns: Columns::from_slice(columns),
            dims,
            page_rows,
            signed,
        })
    }

    /// The table's name.
    pub fn name(&self) -> &Name
        ensures { result.now ≡ self.now.name }
    {
        &self.name
    }

    /// The columns, dimensions first: 1 to 8 of them, no two of one name.
    pub fn columns(&self) -> &[Name]
        ensures columns { result.now ≡ self.now.columns }
        ensures some { 1 ≤ length result.now }
        ensures few { length result.now ≤ 8 }
        ensures distinct { AreDistinct result.now }
    {
        self.columns.as_slice()
    }

    /// How many of the columns are dimensions: 1 to 4.
    pub fn dims(&self) -> u32
        ensures dims { result ≡ self.now.dims }
        ensures some { 1 ≤ result }
        ensures few { result ≤ 4 }
        ensures within { result ≤ length self.now.columns }
    {
        self.dims
    }

    /// How many of the columns are measures: 0 to 4.
    pub fn measures(&self) -> u32
        ensures measures { result ≡ length self.now.columns - self.now.dims }
        ensures few { result ≤ 4 }
    {
        self.columns.len() as u32 - self.dims
    }

    /// The dimensions, as the shape of a space.
    pub fn shape(&self) -> Shape
        ensures { result ≡ self.now.dims }
    {
        match Shape::new(self.dims()) {
            Ok(shape) => shape,
            Err(_) => unreachable!(),
        }
    }

    /// The same schema.
    pub fn copy(&self) -> Schema
        ensures { result ≡ self.now }
    {
        Schema {
            name: self.name,
            columns: Columns::from_slice(self.columns()),
            dims: self.dims,
            page_rows: self.page_rows,
            signed: self.signed,
        }
    }

    /// How many rows a region page holds: 2 to 64.
    pub fn page_rows(&self) -> u32
        ensures page_rows { result ≡ self.now.page_rows }
        ensures some { 2 ≤ result }
        ensures few { result ≤ MAX_ROWS }
    {
        self.page_rows
    }

    /// Which of the dimensions are signed: bit i is that of dimension i.
    pub fn signed(&self) -> u32
        ensures signed { result ≡ self.now.signed }
        ensures mask { IsMask self.now.dims result }
        ensures few { result < 16 }
    {
        self.signed
    }
}

fn are_numbers(columns: usize, dims: u32, page_rows: u32, signed: u32) -> bool
    ensures { IsTrue result ↔ AreNumbers columns dims page_rows signed }
{
    are_counts(columns, dims, page_rows) && is_mask(dims, signed)
}

fn are_counts(columns: usize, dims: u32, page_rows: u32) -> bool
    ensures { IsTrue result ↔ AreCounts columns dims page_rows }
{
    let first = dims as usize;
    (1..=4).contains(&first)
        && (first..=first + 4).contains(&columns)
        && (2..=MAX_ROWS).contains(&(page_rows as usize))
}

/// Whether a mask has bits for so many dimensions alone.
pub fn is_mask(dims: u32, signed: u32) -> bool
    requires { dims ≤ 4 }
    ensures { IsTrue result ↔ IsMask dims signed }
{
    signed >> dims == 0
}

fn are_distinct(columns: &[Name]) -> bool
    ensures { IsTrue result ↔ AreDistinct columns.now }
{
    for (i, name) in columns.iter().enumerate() {
        if columns[..i].contains(name) {
            return false;
        }
    }
    true
}
