ghost use Rattle.std.specs.Prelude.{◌≡◌, ◌+◌, ◌≤◌, length, take, drop};

use std::alloc::{AllocError, Global};
use std::marker::Model;
use ub_query::Cell;

/// Rows of cells, all of them in one vector, row after row. A contract sees the list of rows.
#[derive(Drop)]
pub struct Cells {
    cells: Vec<Cell>,
    width: usize,
    count: usize,
}

impl Model for Cells {
    ghost use Rattle.std.specs.Prelude.{◌≡◌, ◌*◌, List, length};
    ghost use Rattle.ub_answer.specs.inner.Cut.{cut};
    ghost use Rattle.ub_query.specs.declared.cell.Cell.{Cell};

    ghost Value = { List (List Cell) };

    ghost view = { λ c. cut c.count c.width c.cells.items };

    ghost invariant = { λ c. length c.cells.items ≡ c.count * c.width };
}

impl Cells {
    ghost use Rattle.std.specs.Prelude.{◌≡◌, ◌==◌, ◌<◌, ◌*◌, ◌++◌, [], Some, length, slice_get, slice_index_or, is_ok, if◌then◌else◌};
    ghost use Rattle.std.specs.List.{All, AllByRecursion};
    ghost use Rattle.ub_answer.specs.Shaped.{HaveOneWidth};
    ghost use Rattle.ub_answer.specs.inner.Cut.{cut};
    ghost use Rattle.ub_query.specs.Meaning.{limited};

    /// So many rows of so many cells each, which stand one after the other.
    pub fn new(cells: Vec<Cell>, width: usize, count: usize) -> Cells
        requires { length cells.items ≡ count * width }
        ensures rows { result ≡ cut count width cells.items }
        ensures wide { AllByRecursion (λ cells. length cells ≡ width) result }
    {
        Cells {
            cells,
            width,
            count,
        }
    }

    /// No rows. Takes no memory.
    pub fn none(alloc: Global) -> Cells
        ensures { result ≡ [] }
    {
        Cells {
            cells: Vec::new(alloc),
            width: 0,
            count: 0,
        }
    }

    /// Puts the rows of other cells after those that there are, and keeps as many of all as the limit says. Where memory is
    /// refused the rows stay as they were.
    pub fn extend(&mut self, more: &Cells, limit: Option<u64>) -> Result<(), AllocError>
        requires wide { HaveOneWidth self.old more.now }
        ensures { self.new ≡ (if is_ok result
            then limited limit (self.old ++ more.now) else self.old) }
    {
        self.cells.extend_from_slice(more.cells.as_slice())?;
        self.width = width_of(self.count, self.width, more.width);
        self.count += more.count;
        self.keep_first(limit);
        Ok(())
    }

    // Lets all rows but the first n go where LIMIT n stands.
    fn keep_first(&mut self, limit: Option<u64>)
        ensures { self.new ≡ limited limit self.old }
    {
        if let Some(most) = limit {
            self.count = self.count.min(most as usize);
            self.cells.truncate(self.count * self.width);
        }
    }

    /// How many rows there are.
    pub fn len(&self) -> usize
        ensures { result ≡ length self.now }
    {
        self.count
    }

    /// Whether there is no row.
    pub fn is_empty(&self) -> bool
        ensures { result ≡ (length self.now == 0) }
    {
        self.count == 0
    }

    /// How many cells each row has.
    pub fn width(&self) -> usize
        ensures { All (λ cells. length cells ≡ result) self.now }
    {
        self.width
    }

    /// The cell at a place of a row, both counted from 0.
    pub fn cell(&self, index: usize, place: usize) -> Cell
        requires row { index < length self.now }
        requires place { place < length (slice_index_or self.now index []) }
        ensures { slice_get (slice_index_or self.now index []) place ≡ Some result }
    {
        self.row(index)[place]
    }

    /// The cells of a row, counted from 0.
    pub fn row(&self, index: usize) -> &[Cell]
        requires { index < length self.now }
        ensures { slice_get self.now index ≡ Some result.now }
    {
        let cells = self.cells.as_slice();
        piece(cells, index * self.width, self.width)
    }
}

// The width of so many rows, or where there are none that of others.
fn width_of(count: usize, width: usize, other: usize) -> usize
    ensures none { count ≡ 0 → result ≡ other }
    ensures some { 1 ≤ count → result ≡ width }
{
    if count == 0 { other } else { width }
}

// So many cells from one on.
fn piece(cells: &[Cell], from: usize, width: usize) -> &[Cell]
    requires { from + width ≤ length cells.now }
    ensures { result.now ≡ take width (drop from cells.now) }
{
    &cells[from..from + width]
}
