ghost use Rattle.std.specs.Prelude.{◌≡◌, ◌<◌, ◌≤◌, ◌++◌, Some, length, map, slice_get, IfOk, OnOk};
ghost use Rattle.std.specs.List.{All};
ghost use Rattle.ub_answer.specs.Held.{lines};
ghost use Rattle.ub_query.specs.Cells as sql;
ghost use Rattle.ub_query.specs.Posed.{IsItemOver};

use crate::cells::Cells;
use crate::tally::MAX_ITEMS;
use crate::values::row_cell;
use std::alloc::{AllocError, Global};
use std::marker::Model;
use ub_query::{Cell, Item};
use ub_table::{Row, Schema};

/// The rows of the answer of a query of rows, and the items that make cells of them. No cell is held: each is made where it is
/// read. A contract sees the list of the rows' cells.
#[derive(Drop)]
pub struct RowSet {
    rows: Vec<Row>,
    schema: Schema,
    // The places that no item uses hold another one.
    items: [Item; MAX_ITEMS],
    width: usize,
}

impl Model for RowSet {
    ghost use Rattle.std.specs.Prelude.{◌≡◌, ◌≤◌, List, length, take};
    ghost use Rattle.std.specs.List.{All};
    ghost use Rattle.ub_answer.specs.Held.{lines};
    ghost use Rattle.ub_query.specs.Posed.{IsItemOver};
    ghost use Rattle.ub_query.specs.declared.cell.Cell.{Cell};

    ghost Value = { List (List Cell) };

    ghost view = { λ s. lines s.schema (take s.width s.items) s.rows.items };

    ghost invariant = { λ s. (s.width ≤ 8) × (length (take s.width s.items) ≡ s.width)
        × All (λ item. IsItemOver (length s.schema.columns) item) (take s.width s.items) };
}

impl RowSet {
    ghost use Rattle.std.specs.Prelude.{◌≡◌, ◌<◌, ◌≤◌, [], Some, length, slice_get, slice_index_or, IfOk};
    ghost use Rattle.std.specs.List.{All};
    ghost use Rattle.ub_answer.specs.Held.{lines};
    ghost use Rattle.ub_query.specs.Posed.{IsItemOver};

    /// These rows, with the items of their query. Takes no memory.
    pub fn new(rows: Vec<Row>, schema: &Schema, items: &[Item]) -> RowSet
        requires over { All (λ item. IsItemOver (length schema.now.columns) item) items.now }
        requires few { length items.now ≤ MAX_ITEMS }
        ensures { result ≡ lines schema.now items.now rows.items }
    {
        let mut all = [Item::Count; MAX_ITEMS];
        all[..items.len()].copy_from_slice(items);
        RowSet {
            rows,
            schema: schema.copy(),
            items: all,
            width: items.len(),
        }
    }

    /// How many rows there are.
    pub fn len(&self) -> usize
        ensures { result ≡ length self.now }
    {
        self.rows.len()
    }

    /// How many cells each row has.
    pub fn width(&self) -> usize
        ensures { All (λ cells. length cells ≡ result) self.now }
    {
        self.width
    }

    /// The cell at a place of a row, both counted from 0.
    pub fn cell(&self, index: usize, place: usize) -> Cell
        requires row { index < length self.now }
        requires place { place < length (slice_index_or self.now index []) }
        ensures { slice_get (slice_index_or self.now index []) place ≡ Some result }
    {
        let items = &self.items[..self.width];
        cell_at(&self.schema, items, &self.rows.as_slice()[index], place)
    }

    /// The cells of all rows.
    pub fn cells(&self, alloc: Global) -> Result<Cells, AllocError>
        ensures { IfOk result (λ cells. cells ≡ self.now) }
    {
        let items = &self.items[..self.width];
        cells_of_rows(alloc, &self.schema, items, self.rows.as_slice())
    }
}

// The cell of a row for the item at a place.
fn cell_at(schema: &Schema, items: &[Item], row: &Row, place: usize) -> Cell
    requires over { All (λ item. IsItemOver (length schema.now.columns) item) items.now }
    requires within { place < length items.now }
    ensures { slice_get (map (sql.row_cell schema.now row.now) items.now) place ≡ Some result }
{
    row_cell(schema, row, items[place])
}

// Each row reduced to the cells of the items.
fn cells_of_rows(
    alloc: Global,
    schema: &Schema,
    items: &[Item],
    rows: &[Row],
) -> Result<Cells, AllocError>
    requires { All (λ item. IsItemOver (length schema.now.columns) item) items.now }
    ensures { IfOk result (λ cells. cells ≡ lines schema.now items.now rows.now) }
{
    let mut cells = Vec::new(alloc);
    for row in rows {
        push_row(&mut cells, schema, items, row)?;
    }
    Ok(Cells::new(cells, items.len(), rows.len()))
}

// Puts the cells of a row after those that there are; where memory is refused, some of them.
fn push_row(
    cells: &mut Vec<Cell>,
    schema: &Schema,
    items: &[Item],
    row: &Row,
) -> Result<(), AllocError>
    requires { All (λ item. IsItemOver (length schema.now.columns) item) items.now }
    ensures { OnOk result
        (cells.new.items ≡ cells.old.items ++ map (sql.row_cell schema.now row.now) items.now) }
{
    for item in items {
        cells.push(row_cell(schema, row, *item))?;
    }
    Ok(())
}
