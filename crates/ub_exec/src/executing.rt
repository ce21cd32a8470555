ghost use Rattle.std.specs.Prelude.{◌≡◌, ◌≢◌, ◌↔◌, [], Some, length, IsTrue, IfOk};
ghost use Rattle.std.specs.Bool.{MatchBool};
ghost use Rattle.ub_answer.specs.Shaped.{IsShaped};
ghost use Rattle.ub_exec.specs.Answers.{IsReady, IsSwept};
ghost use Rattle.ub_exec.specs.Calls.{Answers, Executes, ExecutesSwept};
ghost use Rattle.ub_exec.specs.Reading.{CarriesOut};
ghost use Rattle.ub_exec.specs.Scanned.{IsOfRead, IsScanOf};
ghost use Rattle.ub_query.specs.Posed.{IsPosed};
ghost use Rattle.ub_tree.specs.Reading.{ReadsTree};

use crate::grouping::swept_groups;
use crate::sweeping::swept_rows;
use crate::walking::walk;
use std::alloc::Global;
use ub_answer::{Gathering, ResultSet};
use ub_filter::Choice;
use ub_planning::{Kind, Plan};
use ub_query::Query;
use ub_store::PageStore;
use ub_tree::{ReadFault, Tree, TreeFault};

/// What a query answers.
#[derive(Drop)]
pub struct Answer {
    /// The rows of the result, in order.
    pub rows: ResultSet,
    /// How many region pages were fetched.
    pub fetched: u64,
}

/// The answer of a query by its plan, on the rows of a tree's table. The trace begins anew, and then has the pages that were
/// fetched: on a sound tree those of the regions that the plan visits, each once, in their order; on any tree, where it
/// answers, those of regions whose pages were taken in: of a scan all regions that the tree tells of for its boxes, and of a
/// sweep all, or the first ones until there were as many rows as its LIMIT. Where a fault ends a sweep, they are those of the
/// first ones, each once. On any tree each row has as many cells as the query has items, and there are no more than its LIMIT; and
/// a scan answers what the query means on the rows of the regions that were read, unless a row number stands there twice.
///
/// `Memory` where memory was refused; `Tree` where the tree refused, as it does where it has failed, whatever the plan. On a
/// sound tree it refuses only where its store failed in this call; then so many of the visits were fetched, the first ones.
pub fn execute<S: PageStore>(
    alloc: Global,
    tree: &mut Tree<S>,
    plan: &Plan,
) -> Result<Answer, ReadFault>
    requires { IsPosed (length tree.old.schema.columns) plan.now.asked }
    ensures executes { Executes plan.now tree.old tree.new result (λ a. a.rows) }
    ensures fetched { IfOk result (λ a. a.fetched ≡ length tree.new.trace.pages) }
{
    let rows = result_rows(alloc, tree, plan)?;
    Ok(Answer {
        rows,
        fetched: tree.trace().len() as u64,
    })
}

// The rows of the result. The trace begins anew. A tree that has failed is asked for none, whatever the plan.
fn result_rows<S: PageStore>(
    alloc: Global,
    tree: &mut Tree<S>,
    plan: &Plan,
) -> Result<ResultSet, ReadFault>
    requires { IsPosed (length tree.old.schema.columns) plan.now.asked }
    ensures { Executes plan.now tree.old tree.new result (λ cells. cells) }
{
    tree.begin();
    if tree.has_failed() {
        return Err(ReadFault::Tree(TreeFault::Failed));
    }
    match plan.kind() {
        Kind::Empty | Kind::Scan => scanned_rows(alloc, tree, plan),
        Kind::Sweep { .. } => swept(alloc, tree, plan),
    }
}

// The rows of the result by a sweep, whatever the query. The trace begins anew.
fn swept<S: PageStore>(
    alloc: Global,
    tree: &mut Tree<S>,
    plan: &Plan,
) -> Result<ResultSet, ReadFault>
    requires { IsPosed (length tree.old.schema.columns) plan.now.asked }
    ensures { ExecutesSwept (Unit {0}) plan.now tree.old tree.new result }
{
    if is_grouped(plan.query()) {
        swept_groups(alloc, tree, plan)
    } else {
        swept_rows(alloc, tree, plan)
    }
}

// Whether a query has a GROUP BY.
fn is_grouped(query: &Query) -> bool
    ensures { MatchBool result (query.now.group ≢ []) (query.now.group ≡ []) }
{
    !query.group.as_slice().is_empty()
}

// The rows of the result by a scan. LIMIT 0 asks for no row, and no region is fetched for it.
fn scanned_rows<S: PageStore>(
    alloc: Global,
    tree: &mut Tree<S>,
    plan: &Plan,
) -> Result<ResultSet, ReadFault>
    requires { IsPosed (length tree.old.schema.columns) plan.now.asked }
    ensures done { IsReady tree.old plan.now → ¬ IsSwept plan.now.kind
        → Answers plan.now tree.old tree.old tree.new result (λ cells. cells) }
    ensures shaped { IfOk result (IsShaped plan.now.asked) }
    ensures scanned { IsScanOf tree.old.schema plan.now → IfOk result
        (IsOfRead plan.now tree.old tree.new) }
    ensures reads { ¬ IsSwept plan.now.kind
        → CarriesOut plan.now tree.old tree.new (λ cells. length cells) result }
    ensures effect { ReadsTree tree.old tree.new result }
{
    let query = plan.query();
    if asks_for_none(query) {
        return Ok(ResultSet::none(alloc));
    }
    let mut gathering = Gathering::new(alloc, tree.schema(), query);
    let choice = Choice::of(plan, tree.schema());
    walk(alloc, tree, plan, choice, &mut gathering)?;
    Ok(gathering.finish(tree.schema(), query)?)
}

// Whether a query asks for no row.
fn asks_for_none(query: &Query) -> bool
    ensures { IsTrue result ↔ (query.now.limit ≡ Some 0) }
{
    matches!(query.limit, Some(0))
}
