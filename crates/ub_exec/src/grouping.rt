ghost use Rattle.std.specs.Prelude.{◌≡◌, ◌≢◌, ◌≤◌, [], None, length, IfOk};
ghost use Rattle.std.specs.List.{All};
ghost use Rattle.ub_answer.specs.Shaped.{IsShaped};
ghost use Rattle.ub_exec.specs.Calls.{ExecutesSwept};
ghost use Rattle.ub_query.specs.Meaning.{IsMeaning};
ghost use Rattle.ub_query.specs.Posed.{IsPosed};
ghost use Rattle.ub_query.specs.Shape.{asked};
ghost use Rattle.ub_table.specs.Table.{IsInOrder};

use crate::sweeping::is_filled;
use std::alloc::{AllocError, Global};
use ub_answer::{Cells, Gathering, ResultSet};
use ub_planning::Plan;
use ub_query::Query;
use ub_store::PageStore;
use ub_table::{MAX_ROW_NUMBER, Row, Schema};
use ub_tetris::Sweep;
use ub_tree::{ReadFault, Tree};

/// The groups of the result by a sweep along their lead. Where a LIMIT stands, they are made value by value, so that no region
/// is fetched for a group that isn't asked for; where none does, all are asked for, and the rows are gathered as they come. The
/// trace begins anew.
pub(crate) fn swept_groups<S: PageStore>(
    alloc: Global,
    tree: &mut Tree<S>,
    plan: &Plan,
) -> Result<ResultSet, ReadFault>
    requires { IsPosed (length tree.old.schema.columns) plan.now.asked }
    ensures { ExecutesSwept (plan.now.asked.group ≢ []) plan.now tree.old tree.new result }
{
    match plan.query().limit {
        None => all_groups(alloc, tree, plan),
        Some(_) => first_groups(alloc, tree, plan),
    }
}

// The groups of all selected rows: each region is read once, in the order of the sweep, and its rows are gathered in the order
// in which they stand. No row is held, and of each group one entry.
fn all_groups<S: PageStore>(
    alloc: Global,
    tree: &mut Tree<S>,
    plan: &Plan,
) -> Result<ResultSet, ReadFault>
    requires posed { IsPosed (length tree.old.schema.columns) plan.now.asked }
    requires whole { plan.now.asked.limit ≡ None }
    ensures { ExecutesSwept (plan.now.asked.group ≢ []) plan.now tree.old tree.new result }
{
    let mut sweep = Sweep::new(alloc, tree, plan)?;
    let query = plan.query();
    let mut gathering = Gathering::new(alloc, tree.schema(), query);
    sweep.hand_over(tree, plan, &mut gathering)?;
    Ok(gathering.finish(tree.schema(), query)?)
}

// The first groups, as many as the limit says: the sweep gives the rows of one value of the lead after the other, and the
// groups of these, which are whole, are put in. Once the limit is filled no more is asked of the sweep. Of the groups only
// those of one value are held beside the result.
fn first_groups<S: PageStore>(
    alloc: Global,
    tree: &mut Tree<S>,
    plan: &Plan,
) -> Result<ResultSet, ReadFault>
    requires { IsPosed (length tree.old.schema.columns) plan.now.asked }
    ensures { ExecutesSwept (plan.now.asked.group ≢ []) plan.now tree.old tree.new result }
{
    let mut sweep = Sweep::new(alloc, tree, plan)?;
    let query = plan.query();
    let mut groups = Cells::none(alloc);
    while !is_filled(query.limit, groups.len()) {
        let Some(rows) = sweep.next_value(tree, plan)? else {
            return Ok(ResultSet::of_cells(groups));
        };
        let more = groups_of(alloc, tree.schema(), query, rows.as_slice())?;
        groups.extend(&more, query.limit)?;
    }
    Ok(ResultSet::of_cells(groups))
}

// The groups of some rows, which are in order of number: what the query means on a table that has just these rows, all of which
// are selected.
fn groups_of(
    alloc: Global,
    schema: &Schema,
    query: &Query,
    rows: &[Row],
) -> Result<Cells, AllocError>
    requires { IsPosed (length schema.now.columns) (asked query.now) }
    ensures meaning { IsInOrder rows.now → All (λ row. row.number ≤ MAX_ROW_NUMBER) rows.now
        → IfOk result (λ cells. IsMeaning (record { schema = schema.now; rows = rows.now })
        (record (asked query.now) { filter = None }) cells) }
    ensures shaped { IfOk result (IsShaped (asked query.now)) }
{
    let mut gathering = Gathering::new(alloc, schema, query);
    for row in rows {
        gathering.take(schema, query, row)?;
    }
    gathering.finish(schema, query)?.into_cells(alloc)
}
