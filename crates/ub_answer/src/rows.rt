ghost use Rattle.std.specs.Prelude.{◌≡◌, ◌+◌, ◌≤◌, ◌∷◌, ◌++◌, [], ℕ, List, Option, length, map, take, IfOk, OnOk, IfSome, IsTrue, Some, None};
ghost use Rattle.std.specs.List.{All};
ghost use Rattle.std.specs.declared.cmp.Ordering.TheVariants.{Less};
ghost use Rattle.std.specs.List.Sorted.{IsPermutation};
ghost use Rattle.ub_answer.specs.Held.{StayFew, most_held};
ghost use Rattle.ub_answer.specs.Shaped.{IsShaped};
ghost use Rattle.ub_answer.specs.inner.Compare.{row_cmp};
ghost use Rattle.ub_answer.specs.inner.Kept.{HoldsRows, IsArranged};
ghost use Rattle.ub_query.specs.Groups.{selected};
ghost use Rattle.ub_query.specs.Meaning.{IsRowMeaning, limited};
ghost use Rattle.ub_query.specs.Posed.{IsItemOver};
ghost use Rattle.ub_query.specs.Shape.{Shape, asked};
ghost use Rattle.ub_table.specs.Table.{Table, IsInOrder};

use crate::order::{arrange, compare_rows};
use crate::result_set::ResultSet;
use crate::tally::MAX_ITEMS;
use std::alloc::{AllocError, Global};
use ub_query::{Query, SortKey};
use ub_table::{Row, Schema};

/// The rows that a query of rows was given, or with LIMIT n not many more than n of them.
#[derive(Drop)]
pub struct CollectedRows {
    rows: Vec<Row>,
    // With LIMIT n a row after which none is needed, since n of those held don't stand after it.
    last: Option<Row>,
}

impl CollectedRows {
    /// No row is taken yet. Takes no memory.
    pub fn new(alloc: Global) -> CollectedRows
        ensures rows { result.rows.items ≡ [] }
        ensures last { result.last ≡ None }
    {
        CollectedRows {
            rows: Vec::new(alloc),
            last: None,
        }
    }

    /// Takes one more row. After a refusal some rows are still held, and this is used no more.
    #[inline(always)]
    pub fn take(&mut self, schema: &Schema, query: &Query, row: &Row) -> Result<(), AllocError>
        requires { All (λ key. IsItemOver (length schema.now.columns) key.item) query.now.order }
        ensures taken { (taken : List _)
            → HoldsRows schema.now query.now.order query.now.limit taken self.old.rows.items
            self.old.last
            → OnOk result (HoldsRows schema.now query.now.order query.now.limit
            (taken ++ row.now ∷ []) self.new.rows.items self.new.last) }
        ensures few { StayFew query.now.limit (length self.old.rows.items)
            (length self.new.rows.items) }
    {
        if is_behind(self.last, schema, query.order.as_slice(), row) {
            return Ok(());
        }
        self.make_room(schema, query);
        self.rows.push(*row)?;
        Ok(())
    }

    // Lets rows go that LIMIT n leaves out, once twice as many are held. So each row is sorted a few times.
    fn make_room(&mut self, schema: &Schema, query: &Query)
        requires { All (λ key. IsItemOver (length schema.now.columns) key.item) query.now.order }
        ensures held { (taken : List _)
            → HoldsRows schema.now query.now.order query.now.limit taken self.old.rows.items
            self.old.last
            → HoldsRows schema.now query.now.order query.now.limit taken self.new.rows.items
            self.new.last }
        ensures few { StayFew query.now.limit (length self.old.rows.items)
            (length self.new.rows.items + 1) }
    {
        let Some(most) = query.limit else {
            return;
        };
        if most_held(most) <= self.rows.len() as u64 {
            arrange_rows(&mut self.rows, schema, query.order.as_slice(), Some(most));
            self.last = self.rows.as_slice().last().copied();
        }
    }

    /// The answer: the rows in the order asked, the first n where LIMIT n stands. Takes no memory.
    pub fn finish(self, schema: &Schema, query: &Query) -> ResultSet
        requires items { All (λ item. IsItemOver (length schema.now.columns) item) query.now.items }
        requires few { length query.now.items ≤ MAX_ITEMS }
        requires keys { All (λ key. IsItemOver (length schema.now.columns) key.item)
            query.now.order }
        ensures answer { (table : Table) (filter : Option Shape) (taken : List _)
            → table.schema ≡ schema.now → IsInOrder table.rows
            → IsPermutation (selected table filter) taken
            → HoldsRows schema.now query.now.order query.now.limit taken self.rows.items self.last
            → IsRowMeaning table (record (asked query.now) { filter = filter }) result }
        ensures shaped { IsShaped (asked query.now) result }
    {
        let mut rows = self.rows;
        arrange_rows(&mut rows, schema, query.order.as_slice(), query.limit);
        ResultSet::of_rows(rows, schema, query.items.as_slice())
    }
}

// Puts rows into the order asked, and lets all but the first n go where LIMIT n stands.
fn arrange_rows(rows: &mut Vec<Row>, schema: &Schema, keys: &[SortKey], limit: Option<u64>)
    requires { All (λ key. IsItemOver (length schema.now.columns) key.item) keys.now }
    ensures arranged { IsArranged (row_cmp schema.now keys.now) limit rows.old.items
        rows.new.items }
    ensures few { IfSome limit (λ n. length rows.new.items ≤ n) }
{
    arrange(rows, |a, b| compare_rows(schema, keys, a, b), limit);
}

// Whether a row stands after the one after which none is needed.
fn is_behind(last: Option<Row>, schema: &Schema, keys: &[SortKey], row: &Row) -> bool
    requires { All (λ key. IsItemOver (length schema.now.columns) key.item) keys.now }
    ensures { IsTrue result → (before : Row) × (last ≡ Some before)
        × (row_cmp schema.now keys.now before row.now ≡ Less) }
{
    match last {
        Some(last) => compare_rows(schema, keys, &last, row).is_lt(),
        None => false,
    }
}

// How many rows are held at most where LIMIT n stands.
fn most_held(limit: u64) -> u64
    ensures { result ≡ most_held limit }
{
    limit.saturating_mul(2).max(64)
}
