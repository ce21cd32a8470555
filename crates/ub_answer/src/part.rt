// What an item shows of rows that are taken at once, by their values column by column.
ghost use Rattle.std.specs.Prelude.{◌≡◌, ◌≤◌, [], length};
ghost use Rattle.ub_answer.specs.inner.Tally.{IsSmall, IsSmallOf, IsWithin, all_of};
ghost use Rattle.ub_query.specs.Cells as sql;
ghost use Rattle.ub_query.specs.Posed.{IsItemOver};

use ub_query::{Aggregate, Cell, Item, RowBatch};
use ub_table::{MAX_ROWS, Schema};

/// What an item shows of the rows alone, where nothing is grouped.
pub fn part_of<B: RowBatch>(schema: &Schema, item: Item, batch: &B) -> Cell
    requires { IsItemOver (length schema.now.columns) item }
    ensures cell { result ≡ sql.group_cell schema.now [] (all_of (B.rows batch.now)) item }
    ensures small { IsSmallOf schema.now (B.rows batch.now) item }
{
    match item {
        Item::Column(_) => Cell::Null,
        Item::Count => Cell::Number(batch.count() as i128),
        Item::Aggregate(aggregate, column) => {
            let mut values = [0; MAX_ROWS];
            batch.put_values(schema, column, &mut values);
            taken_of(aggregate, &values[..batch.count()])
        }
    }
}

// What is taken of some values.
fn taken_of(aggregate: Aggregate, values: &[i64]) -> Cell
    requires { length values.now ≤ MAX_ROWS }
    ensures cell { result ≡ sql.taken_of aggregate values.now }
    ensures small { IsSmall (length values.now) result }
{
    match aggregate {
        Aggregate::Sum => sum_of(values),
        Aggregate::Min => least_of(values),
        Aggregate::Max => greatest_of(values),
    }
}

fn sum_of(values: &[i64]) -> Cell
    requires { length values.now ≤ MAX_ROWS }
    ensures cell { result ≡ sql.sum_of values.now }
    ensures small { IsSmall (length values.now) result }
{
    if values.is_empty() {
        return Cell::Null;
    }
    Cell::Number(total(values))
}

fn total(values: &[i64]) -> i128
    requires { length values.now ≤ MAX_ROWS }
    ensures total { result ≡ sql.total values.now }
    ensures within { IsWithin (length values.now) result }
{
    let mut sum = 0;
    for value in values {
        sum += i128::from(*value);
    }
    sum
}

fn least_of(values: &[i64]) -> Cell
    ensures cell { result ≡ sql.least_of values.now }
    ensures small { IsSmall (length values.now) result }
{
    let Some((first, others)) = values.split_first() else {
        return Cell::Null;
    };
    let mut least = *first;
    for value in others {
        least = least.min(*value);
    }
    Cell::Number(i128::from(least))
}

fn greatest_of(values: &[i64]) -> Cell
    ensures cell { result ≡ sql.greatest_of values.now }
    ensures small { IsSmall (length values.now) result }
{
    let Some((first, others)) = values.split_first() else {
        return Cell::Null;
    };
    let mut greatest = *first;
    for value in others {
        greatest = greatest.max(*value);
    }
    Cell::Number(i128::from(greatest))
}
