use crate::cells::Cells;
use crate::row_set::RowSet;
use std::alloc::{AllocError, Global};
use std::marker::Model;
use ub_query::{Cell, Item};
use ub_table::{Row, Schema};

/// The rows of an answer, in order. Of a query of rows they are held as rows, and each cell is made where it is read; of one
/// with groups their cells are held. A contract sees the list of the lists of cells.
#[derive(Drop)]
pub struct ResultSet {
    source: Source,
}

// Where the cells come from.
#[derive(Drop)]
enum Source {
    Rows(RowSet),
    Cells(Cells),
}

impl Model for ResultSet {
    ghost use Rattle.std.specs.Prelude.{List};
    ghost use Rattle.ub_answer.specs.inner.Results.{cells_of};
    ghost use Rattle.ub_query.specs.declared.cell.Cell.{Cell};

    ghost Value = { List (List Cell) };

    ghost view = { λ s. cells_of s.source };
}

impl ResultSet {
    ghost use Rattle.std.specs.Prelude.{◌≡◌, ◌==◌, ◌<◌, ◌≤◌, [], Some, length, slice_get, slice_index_or, IfOk};
    ghost use Rattle.std.specs.List.{All};
    ghost use Rattle.ub_answer.specs.Held.{lines};
    ghost use Rattle.ub_query.specs.Posed.{IsItemOver};

    /// These rows, each with a cell for each of the items. Takes no memory.
    pub fn of_rows(rows: Vec<Row>, schema: &Schema, items: &[Item]) -> ResultSet
        requires over { All (λ item. IsItemOver (length schema.now.columns) item) items.now }
        requires few { length items.now ≤ 8 }
        ensures { result ≡ lines schema.now items.now rows.items }
    {
        ResultSet {
            source: Source::Rows(RowSet::new(rows, schema, items)),
        }
    }

    /// The rows of these cells. Takes no memory.
    pub fn of_cells(cells: Cells) -> ResultSet
        ensures { result ≡ cells }
    {
        ResultSet {
            source: Source::Cells(cells),
        }
    }

    /// No rows. Takes no memory.
    pub fn none(alloc: Global) -> ResultSet
        ensures { result ≡ [] }
    {
        ResultSet::of_cells(Cells::none(alloc))
    }

    /// How many rows there are.
    pub fn len(&self) -> usize
        ensures { result ≡ length self.now }
    {
        match &self.source {
            Source::Rows(rows) => rows.len(),
            Source::Cells(cells) => cells.len(),
        }
    }

    /// Whether there is no row.
    pub fn is_empty(&self) -> bool
        ensures { result ≡ (length self.now == 0) }
    {
        self.len() == 0
    }

    /// How many cells each row has.
    pub fn width(&self) -> usize
        ensures { All (λ cells. length cells ≡ result) self.now }
    {
        match &self.source {
            Source::Rows(rows) => rows.width(),
            Source::Cells(cells) => cells.width(),
        }
    }

    /// The cell at a place of a row, both counted from 0.
    pub fn cell(&self, index: usize, place: usize) -> Cell
        requires row { index < length self.now }
        requires place { place < length (slice_index_or self.now index []) }
        ensures { slice_get (slice_index_or self.now index []) place ≡ Some result }
    {
        match &self.source {
            Source::Rows(rows) => rows.cell(index, place),
            Source::Cells(cells) => cells.cell(index, place),
        }
    }

    /// The cells of all rows: those that are held, or made of the rows.
    pub fn into_cells(self, alloc: Global) -> Result<Cells, AllocError>
        ensures { IfOk result (λ cells. cells ≡ self) }
    {
        match self.source {
            Source::Rows(rows) => rows.cells(alloc),
            Source::Cells(cells) => Ok(cells),
        }
    }
}
