ghost use Rattle.std.specs.Prelude.{◌≡◌, ◌≢◌, ◌<◌, ◌≤◌, ◌∷◌, ◌++◌, [], ℕ, List, Option, Some, length, IfOk};
ghost use Rattle.std.specs.List.{All};
ghost use Rattle.std.specs.List.Sorted.{IsPermutation};
ghost use Rattle.ub_answer.specs.Held.{many};
ghost use Rattle.ub_answer.specs.Shaped.{IsShaped};
ghost use Rattle.ub_answer.specs.inner.Tally.{HoldsTotals};
ghost use Rattle.ub_query.specs.Groups.{selected};
ghost use Rattle.ub_query.specs.Meaning.{IsGroupMeaning};
ghost use Rattle.ub_query.specs.Posed.{IsItemOver, IsAggregate};
ghost use Rattle.ub_query.specs.Shape.{Shape, asked};
ghost use Rattle.ub_table.specs.Table.{Table};

use crate::cells::Cells;
use crate::result_set::ResultSet;
use crate::tally::{MAX_ITEMS, Tally, add_batch, add_row, tally_of_none};
use std::alloc::{AllocError, Global};
use ub_query::{Query, RowBatch};
use ub_table::{Row, Schema};

/// What a query shows of all rows taken, where it has aggregates and no GROUP BY. No row is held.
#[derive(Drop)]
pub struct CollectedTotals {
    tally: Tally,
}

impl CollectedTotals {
    /// No row is taken yet. Takes no memory.
    pub fn new(query: &Query) -> CollectedTotals
        requires { length query.now.items ≤ MAX_ITEMS }
        ensures { (schema : _) → HoldsTotals schema query.now.items [] result.tally }
    {
        CollectedTotals {
            tally: tally_of_none(query.items.as_slice()),
        }
    }

    /// Takes one more row. Takes no memory.
    #[inline(always)]
    pub fn take(&mut self, schema: &Schema, query: &Query, row: &Row)
        requires over { All (λ item. IsItemOver (length schema.now.columns) item) query.now.items }
        requires few { length query.now.items ≤ MAX_ITEMS }
        ensures { (taken : List _) → All (λ item. IsAggregate item) query.now.items
            → HoldsTotals schema.now query.now.items taken self.old.tally
            → HoldsTotals schema.now query.now.items (taken ++ row.now ∷ []) self.new.tally }
    {
        add_row(&mut self.tally, schema, query.items.as_slice(), row);
    }

    /// Takes more rows at once. Takes no memory.
    pub fn take_batch<B: RowBatch>(&mut self, schema: &Schema, query: &Query, batch: &B)
        requires over { All (λ item. IsItemOver (length schema.now.columns) item) query.now.items }
        requires few { length query.now.items ≤ MAX_ITEMS }
        ensures { (taken : List _) → All (λ item. IsAggregate item) query.now.items
            → HoldsTotals schema.now query.now.items taken self.old.tally
            → HoldsTotals schema.now query.now.items (taken ++ B.rows batch.now) self.new.tally }
    {
        add_batch(&mut self.tally, schema, query.items.as_slice(), batch);
    }

    /// The answer: one row, also of no rows, and none where LIMIT 0 stands.
    pub fn finish(self, alloc: Global, query: &Query) -> Result<ResultSet, AllocError>
        requires few { length query.now.items ≤ MAX_ITEMS }
        ensures answer { (table : Table) (filter : Option Shape) (taken : List _)
            → query.now.group ≡ [] → length taken < many
            → IsPermutation (selected table filter) taken
            → HoldsTotals table.schema query.now.items taken self.tally
            → IfOk result
            (λ cells. IsGroupMeaning table (record (asked query.now) { filter = filter }) cells) }
        ensures shaped { IfOk result (IsShaped (asked query.now)) }
    {
        let width = query.items.as_slice().len();
        let count = one_within(query.limit);
        let cells = Vec::from_slice(alloc, &self.tally[..width * count])?;
        Ok(ResultSet::of_cells(Cells::new(cells, width, count)))
    }
}

// How many rows there are, of one, within the limit.
fn one_within(limit: Option<u64>) -> usize
    ensures few { result ≤ 1 }
    ensures none { limit ≡ Some 0 → result ≡ 0 }
    ensures one { limit ≢ Some 0 → result ≡ 1 }
{
    match limit {
        Some(0) => 0,
        _ => 1,
    }
}
