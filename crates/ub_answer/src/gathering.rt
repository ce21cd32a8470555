ghost use Rattle.std.specs.Prelude.{◌≡◌, ◌≢◌, ◌<◌, ◌≤◌, ◌∷◌, ◌++◌, [], List, Option, length, IfOk, OnOk, if◌then◌else◌};
ghost use Rattle.std.specs.List.{All};
ghost use Rattle.std.specs.List.Sorted.{IsPermutation};
ghost use Rattle.ub_answer.specs.Gathered.{HasTaken, IsGathered, groups_held, rows_held, rows_held_by};
ghost use Rattle.ub_answer.specs.Held.{StayFew, many};
ghost use Rattle.ub_answer.specs.Shaped.{IsShaped};
ghost use Rattle.ub_query.specs.Cells.{Group};
ghost use Rattle.ub_query.specs.Groups.{AreGroups, selected};
ghost use Rattle.ub_query.specs.Lead.{is_one_entry};
ghost use Rattle.ub_query.specs.Meaning.{IsMeaning};
ghost use Rattle.ub_query.specs.Posed.{IsPosed};
ghost use Rattle.ub_query.specs.Shape.{Shape, asked};
ghost use Rattle.ub_table.specs.Table.{Table, IsInOrder};

use crate::groups::CollectedGroups;
use crate::result_set::ResultSet;
use crate::rows::CollectedRows;
use crate::tally::MAX_ITEMS;
use crate::totals::CollectedTotals;
use std::alloc::{AllocError, Global};
use ub_query::{Query, RowBatch};
use ub_table::{MAX_ROW_NUMBER, Row, Schema};

/// What the answer of a query needs of the rows taken so far. `IsGathered` says which rows these are.
///
/// The rows are handed over one by one or some at once, in any order, and all of them are taken: whoever hands them over
/// looks at the query's condition. Each call is given the schema and the query of the first.
#[derive(Drop)]
pub struct Gathering {
    alloc: Global,
    collected: Collected,
}

// What is held: rows, or the cells of all rows, or those of each group.
#[derive(Drop)]
enum Collected {
    Rows(CollectedRows),
    Totals(CollectedTotals),
    Groups(CollectedGroups),
}

impl Gathering {
    /// No row is taken yet. Takes no memory.
    pub fn new(alloc: Global, schema: &Schema, query: &Query) -> Gathering
        requires { IsPosed (length schema.now.columns) (asked query.now) }
        ensures gathered { IsGathered schema.now (asked query.now) [] result }
        ensures few { rows_held result ≡ 0 }
    {
        Gathering {
            alloc,
            collected: nothing_collected(alloc, query),
        }
    }

    /// Takes one more row. `AllocError` only where memory is refused, and then this is used no more.
    // Rows are taken in two places, and to a row of a scan a call costs more than what it counts: so this, and what it calls
    // for each row, is inlined.
    #[inline(always)]
    pub fn take(&mut self, schema: &Schema, query: &Query, row: &Row) -> Result<(), AllocError>
        requires { IsPosed (length schema.now.columns) (asked query.now) }
        ensures gathered { (taken : List _) → IsGathered schema.now (asked query.now) taken self.old
            → OnOk result
            (IsGathered schema.now (asked query.now) (taken ++ row.now ∷ []) self.new) }

        // Where LIMIT n stands, the rows held are at most 2n, or 64 where that is more, however many are taken.
        ensures few { StayFew query.now.limit (rows_held self.old) (rows_held self.new) }
    {
        match &mut self.collected {
            Collected::Rows(rows) => rows.take(schema, query, row),
            Collected::Totals(totals) => {
                totals.take(schema, query, row);
                Ok(())
            }
            Collected::Groups(groups) => groups.take(self.alloc, schema, query, row),
        }
    }

    /// Takes more rows at once, in their order, where the answer is one entry of all rows: then this is true, and else it is false,
    /// and none is taken. Takes no memory.
    pub fn take_batch<B: RowBatch>(&mut self, schema: &Schema, query: &Query, batch: &B) -> bool
        requires { IsPosed (length schema.now.columns) (asked query.now) }
        ensures gathered { (taken : List _) → IsGathered schema.now (asked query.now) taken self.old
            → IsGathered schema.now (asked query.now)
            (if result then taken ++ B.rows batch.now else taken) self.new }
        ensures told { (taken : List _) → IsGathered schema.now (asked query.now) taken self.old
            → result ≡ is_one_entry (asked query.now) }
        ensures few { StayFew query.now.limit (rows_held self.old) (rows_held self.new) }
    {
        match &mut self.collected {
            Collected::Totals(totals) => {
                totals.take_batch(schema, query, batch);
                true
            }
            Collected::Rows(_) | Collected::Groups(_) => false,
        }
    }

    /// The answer. Of a table whose selected rows are those taken, it is what the query means; whatever was taken, it has the
    /// query's shape.
    ///
    /// Until then a query with GROUP BY holds one entry for each group of the rows taken.
    pub fn finish(self, schema: &Schema, query: &Query) -> Result<ResultSet, AllocError>
        requires { IsPosed (length schema.now.columns) (asked query.now) }
        ensures answer { (table : Table) (filter : Option Shape) (taken : List _)
            → table.schema ≡ schema.now → IsInOrder table.rows
            → All (λ row. row.number ≤ MAX_ROW_NUMBER) table.rows
            → IsPermutation (selected table filter) taken
            → IsGathered schema.now (asked query.now) taken self
            → IfOk result (λ cells. IsMeaning table (record (asked query.now) { filter = filter })
            cells) }
        ensures shaped { IfOk result (IsShaped (asked query.now)) }
        ensures groups { (taken : List _) (groups : List Group)
            → query.now.group ≢ [] → length taken < many
            → IsGathered schema.now (asked query.now) taken self
            → AreGroups schema.now query.now.group taken groups
            → groups_held self ≡ length groups }
    {
        let Gathering { alloc, collected } = self;
        match collected {
            Collected::Rows(rows) => Ok(rows.finish(schema, query)),
            Collected::Totals(totals) => totals.finish(alloc, query),
            Collected::Groups(groups) => groups.finish(alloc, query),
        }
    }
}

// What holds the rows of a query, or their cells, of which none is taken yet.
fn nothing_collected(alloc: Global, query: &Query) -> Collected
    requires { length query.now.items ≤ MAX_ITEMS }
    ensures taken { (schema : _) → HasTaken schema (asked query.now) [] result }
    ensures few { rows_held_by result ≡ 0 }
{
    if !query.group.as_slice().is_empty() {
        return Collected::Groups(CollectedGroups::new(alloc));
    }
    if query.has_groups() {
        return Collected::Totals(CollectedTotals::new(query));
    }
    Collected::Rows(CollectedRows::new(alloc))
}
