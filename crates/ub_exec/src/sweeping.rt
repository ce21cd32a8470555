ghost use Rattle.std.specs.Prelude.{◌≡◌, ◌<◌, ◌++◌, ◌∷◌, ℕ, [], length, IfOk, IfSome, OnErr, OnOk};
ghost use Rattle.std.specs.Bool.{MatchBool};
ghost use Rattle.ub_answer.specs.Held.{lines};
ghost use Rattle.ub_exec.specs.Calls.{ExecutesSwept};
ghost use Rattle.ub_exec.specs.Reading.{IsFilled, ReadsNoting, ReadsSwept};
ghost use Rattle.ub_exec.specs.Sweeping.{Fills, IsBegun};
ghost use Rattle.ub_exec.specs.Visits.{HasFetchedFirst};
ghost use Rattle.ub_query.specs.Posed.{IsPosed};
ghost use Rattle.ub_query.specs.Shape.{asked};
ghost use Rattle.ub_tetris.specs.Sweep.{HasBegun};

use std::alloc::{AllocError, Global};
use ub_answer::ResultSet;
use ub_planning::Plan;
use ub_query::Query;
use ub_store::PageStore;
use ub_table::{Row, Schema};
use ub_tetris::Sweep;
use ub_tree::{ReadFault, Tree};

/// The rows of the result by a sweep of rows, each held as the sweep gives it. Once the limit is filled no more is asked of the
/// sweep, so that no region is fetched for a row that isn't asked for. The trace begins anew.
pub(crate) fn swept_rows<S: PageStore>(
    alloc: Global,
    tree: &mut Tree<S>,
    plan: &Plan,
) -> Result<ResultSet, ReadFault>
    requires { IsPosed (length tree.old.schema.columns) plan.now.asked }
    ensures { ExecutesSwept (plan.now.asked.group ≡ []) plan.now tree.old tree.new result }
{
    match Sweep::new(alloc, tree, plan) {
        Ok(mut sweep) => filled_rows(alloc, &mut sweep, tree, plan),
        Err(fault) => Err(ReadFault::from(fault)),
    }
}

// The rows that a sweep gives which was begun, until the limit is filled or it has none left. The sweep is the caller's, so
// that the rows are all that is let go where a fault comes.
fn filled_rows<S: PageStore>(
    alloc: Global,
    sweep: &mut Sweep,
    tree: &mut Tree<S>,
    plan: &Plan,
) -> Result<ResultSet, ReadFault>
    requires posed { IsPosed (length tree.old.schema.columns) plan.now.asked }
    requires begun { IsBegun plan.now tree.old sweep.old }
    ensures fills { IfOk result (Fills plan.now tree.old tree.new sweep.old) }
    ensures swept { ReadsSwept plan.now tree.old tree.new (λ cells. length cells) result }
    ensures broken { HasBegun plan.now tree.old sweep.old → plan.now.asked.group ≡ []
        → OnErr result ((count : ℕ) × HasFetchedFirst plan.now tree.old tree.new count) }
    ensures effect { ReadsNoting tree.old tree.new result }
{
    let query = plan.query();
    let mut rows = Vec::new(alloc);
    while !is_filled(query.limit, rows.len()) {
        match sweep.next(tree, plan) {
            Ok(Some(row)) => hold_row(&mut rows, row)?,
            Ok(None) => return Ok(result_of(rows, tree.schema(), query)),
            Err(fault) => return Err(ReadFault::from(fault)),
        }
    }
    Ok(result_of(rows, tree.schema(), query))
}

// Puts a row after those that are held.
fn hold_row(rows: &mut Vec<Row>, row: Row) -> Result<(), AllocError>
    ensures { OnOk result (rows.new.items ≡ rows.old.items ++ row ∷ []) }
{
    rows.push(row)?;
    Ok(())
}

// These rows as the result of a query.
fn result_of(rows: Vec<Row>, schema: &Schema, query: &Query) -> ResultSet
    requires { IsPosed (length schema.now.columns) (asked query.now) }
    ensures { result ≡ lines schema.now (asked query.now).items rows.items }
{
    ResultSet::of_rows(rows, schema, query.items.as_slice())
}

/// Whether so many rows, or groups, are as many as the limit says. No count of the tree is asked how often a sweep is asked for
/// more: in a file whose first page is damaged it may be wrong.
pub(crate) fn is_filled(limit: Option<u64>, rows: usize) -> bool
    ensures { MatchBool result (IsFilled limit rows) (IfSome limit (λ most. rows < most)) }
{
    match limit {
        None => false,
        Some(most) => most <= rows as u64,
    }
}
