ghost use Rattle.std.specs.Prelude.{◌≡◌, ◌<◌, ◌≤◌, ◌≤ℤ◌, ℕ, pos, neg_ℤ, length, slice_index_or};
ghost use Rattle.std.specs.List.{All};
ghost use Rattle.ub_answer.specs.inner.Tally as spec;
ghost use Rattle.ub_query.specs.Posed.{IsItemOver};

use crate::part::part_of;
use ub_query::{Aggregate, Cell, Item, RowBatch};
use ub_table::{Row, Schema};

/// How many items a query has at most.
pub const MAX_ITEMS: usize = 8;

/// The cells of a group of rows, one for each item, in order.
pub type Tally = [Cell; MAX_ITEMS];

/// What the items show of no rows: a count of 0, and NULL.
pub fn tally_of_none(items: &[Item]) -> Tally
    requires { length items.now ≤ MAX_ITEMS }
    ensures { spec.AreOfNone items.now result }
{
    let mut tally = [Cell::Null; MAX_ITEMS];
    for (place, item) in items.iter().enumerate() {
        tally[place] = of_none(*item);
    }
    tally
}

/// Takes one more row into the cells of its group.
pub fn add_row(tally: &mut Tally, schema: &Schema, items: &[Item], row: &Row)
    requires over { All (λ item. IsItemOver (length schema.now.columns) item) items.now }
    requires few { length items.now ≤ MAX_ITEMS }
    ensures cells { spec.AreWithRow schema.now row.now items.now tally.old tally.new }
    ensures narrow { All (λ item. spec.IsNarrow schema.now row.now item) items.now }
    ensures long { length tally.new ≡ 8 }
{
    for (place, item) in items.iter().enumerate() {
        tally[place] = with_row(tally[place], schema, *item, row);
    }
}

/// Takes more rows at once into the cells of the group that all rows are, where nothing is grouped.
pub fn add_batch<B: RowBatch>(tally: &mut Tally, schema: &Schema, items: &[Item], batch: &B)
    requires over { All (λ item. IsItemOver (length schema.now.columns) item) items.now }
    requires few { length items.now ≤ MAX_ITEMS }
    ensures cells { spec.AreWithRows schema.now (B.rows batch.now) items.now tally.old tally.new }
    ensures small { All (λ item. spec.IsSmallOf schema.now (B.rows batch.now) item) items.now }
    ensures long { length tally.new ≡ 8 }
{
    for (place, item) in items.iter().enumerate() {
        let part = part_of(schema, *item, batch);
        tally[place] = with_part(tally[place], *item, part);
    }
}

// What an item shows of no rows.
fn of_none(item: Item) -> Cell
    ensures { result ≡ spec.of_none item }
{
    match item {
        Item::Count => Cell::Number(0),
        Item::Column(_) | Item::Aggregate(_, _) => Cell::Null,
    }
}

// What an item shows of the rows before, and this one.
fn with_row(cell: Cell, schema: &Schema, item: Item, row: &Row) -> Cell
    requires { IsItemOver (length schema.now.columns) item }
    ensures cell { result ≡ spec.with_row schema.now row.now item cell }
    ensures narrow { spec.IsNarrow schema.now row.now item }
{
    match item {
        Item::Column(column) => Cell::Number(i128::from(schema.value_of(row, column))),
        Item::Count => plus(cell, 1),
        Item::Aggregate(aggregate, column) => {
            taken_in(aggregate, cell, i128::from(schema.value_of(row, column)))
        }
    }
}

// What an item shows of some rows and of more, by what it shows of the more and of those before.
fn with_part(cell: Cell, item: Item, part: Cell) -> Cell
    ensures { result ≡ spec.with_part part item cell }
{
    let Cell::Number(value) = part else {
        return cell;
    };
    match item {
        Item::Column(_) => part,
        Item::Count => plus(cell, value),
        Item::Aggregate(aggregate, _) => taken_in(aggregate, cell, value),
    }
}

// What is taken of some values, and of one more, or of what was taken of more.
fn taken_in(aggregate: Aggregate, cell: Cell, value: i128) -> Cell
    ensures { result ≡ spec.taken_in aggregate value cell }
{
    match aggregate {
        Aggregate::Sum => plus(cell, value),
        Aggregate::Min => lesser(cell, value),
        Aggregate::Max => greater(cell, value),
    }
}

// A count or a sum, and one more number. A sum of fewer than 2^32 values lies far within an i128.
fn plus(cell: Cell, value: i128) -> Cell
    ensures { result ≡ spec.plus value cell }
{
    match cell {
        Cell::Number(sum) => Cell::Number(sum.saturating_add(value)),
        Cell::Null => Cell::Number(value),
    }
}

fn lesser(cell: Cell, value: i128) -> Cell
    ensures { result ≡ spec.lesser value cell }
{
    match cell {
        Cell::Number(least) => Cell::Number(least.min(value)),
        Cell::Null => Cell::Number(value),
    }
}

fn greater(cell: Cell, value: i128) -> Cell
    ensures { result ≡ spec.greater value cell }
{
    match cell {
        Cell::Number(greatest) => Cell::Number(greatest.max(value)),
        Cell::Null => Cell::Number(value),
    }
}
