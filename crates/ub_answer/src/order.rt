ghost use Rattle.std.specs.Prelude.{◌≡◌, ◌≤◌, length, IfSome};
ghost use Rattle.std.specs.List.{All};
ghost use Rattle.ub_answer.specs.inner.Compare as spec;
ghost use Rattle.ub_answer.specs.inner.Kept.{IsArrangedBy};
ghost use Rattle.ub_query.specs.Posed.{IsItemOver};

use crate::values::row_cell;
use std::cmp::Ordering;
use ub_query::{Cell, SortKey};
use ub_table::{Row, Schema};

/// How one cell compares with another; NULL is below each number, which no order asked ever needs.
pub fn compare_cells(a: Cell, b: Cell) -> Ordering
    ensures { result ≡ spec.cell_cmp a b }
{
    match (a, b) {
        (Cell::Number(a), Cell::Number(b)) => a.cmp(&b),
        (Cell::Number(_), Cell::Null) => Ordering::Greater,
        (Cell::Null, Cell::Number(_)) => Ordering::Less,
        (Cell::Null, Cell::Null) => Ordering::Equal,
    }
}

/// How two cells stand by a key: as they compare, or the other way round where it is descending.
pub fn compare_by(is_descending: bool, a: Cell, b: Cell) -> Ordering
    ensures { result ≡ spec.key_cmp is_descending a b }
{
    if is_descending {
        compare_cells(b, a)
    } else {
        compare_cells(a, b)
    }
}

/// How two rows stand in the order asked: by the first key whose values differ, else by row number.
pub fn compare_rows(schema: &Schema, keys: &[SortKey], a: &Row, b: &Row) -> Ordering
    requires { All (λ key. IsItemOver (length schema.now.columns) key.item) keys.now }
    ensures { result ≡ spec.row_cmp schema.now keys.now a.now b.now }
{
    for key in keys {
        let first = row_cell(schema, a, key.item);
        let second = row_cell(schema, b, key.item);
        match compare_by(key.is_descending, first, second) {
            Ordering::Equal => {}
            decided => return decided,
        }
    }
    a.number.cmp(&b.number)
}

/// Puts entries into the order in which a comparison stands them, and lets all but the first n go where LIMIT n stands.
pub fn arrange<E: Drop, F: FnMut(&E, &E) -> Ordering>(
    entries: &mut Vec<E>,
    compare: F,
    limit: Option<u64>,
)
    requires { F.IsAlwaysCallable compare }
    ensures arranged { IsArrangedBy F.FnMut compare limit entries.old.items entries.new.items }
    ensures few { IfSome limit (λ n. length entries.new.items ≤ n) }
{
    entries.sort_unstable_by(compare);
    if let Some(most) = limit {
        entries.truncate(most as usize);
    }
}
