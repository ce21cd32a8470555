ghost use Rattle.std.specs.Prelude.{◌≡◌, ◌++◌, length, IfOk, OnOk};
ghost use Rattle.ub_exec.specs.Calls.{DeletesBy, FetchesVisits};
ghost use Rattle.ub_exec.specs.Deleting.{HasReadKeys, IsDeletionOf, TakesOutBy};
ghost use Rattle.ub_exec.specs.Reading.{ReadsNoting};
ghost use Rattle.ub_exec.specs.Stand.{Stand, IsStandOf, selected_of};
ghost use Rattle.ub_query.specs.Posed.{IsPosed};
ghost use Rattle.ub_table.specs.Region.{keys_of};

use crate::walking::walk;
use std::alloc::{AllocError, Global};
use ub_filter::Choice;
use ub_planning::Plan;
use ub_query::{Query, RowSink};
use ub_store::PageStore;
use ub_table::{Key, Row, Schema};
use ub_tree::{ReadFault, Tree, TreeFault};

/// Takes the rows that a query selects out of a tree's table, by its plan, and says how many they were. A query without GROUP
/// BY, ORDER BY and LIMIT is meant; its items mean nothing. First all regions that meet the plan's boxes are read, and the keys
/// of the selected rows are put by; then these rows are taken out, in ascending order of their numbers. The trace begins anew,
/// and has the pages that were fetched: those of the regions that the plan visits. Where no row is selected nothing is written.
///
/// On any tree these are the selected rows of all regions that the tree tells of for the boxes, as their pages spell them, and
/// each of them is asked for; a fault met at one of them is told.
///
/// After a fault the first rows by number are gone, or none, and the others stand. `Memory` where memory was refused; `Tree`
/// where the tree refused, as it does where it has failed. On a sound tree it refuses only where its store failed in this call,
/// and of a tree that has failed in it nothing is said.
pub fn delete<S: PageStore>(
    alloc: Global,
    tree: &mut Tree<S>,
    plan: &Plan,
) -> Result<u32, ReadFault>
    requires { IsPosed (length tree.old.schema.columns) plan.now.asked }
    ensures { DeletesBy plan.now tree.old tree.new result }
{
    tree.begin();
    if tree.has_failed() {
        return Err(ReadFault::Tree(TreeFault::Failed));
    }
    let keys = keys_of_selected(alloc, tree, plan)?;
    let count = take_out(tree, keys.as_slice())?;
    Ok(count)
}

// The keys of rows that are to be taken out once all are known.
#[derive(Drop)]
struct Doomed {
    keys: Vec<Key>,
}

impl RowSink for Doomed {
    ghost HasTaken = { λ schema q before taken now. now.keys.items
        ≡ before.keys.items ++ keys_of schema.dims taken };

    fn push(&mut self, schema: &Schema, _query: &Query, row: &Row) -> Result<(), AllocError> {
        self.keys.push(row.key(schema.shape()))?;
        Ok(())
    }
}

// The keys of the selected rows, in ascending order of number. Nothing of the tree is changed.
fn keys_of_selected<S: PageStore>(
    alloc: Global,
    tree: &mut Tree<S>,
    plan: &Plan,
) -> Result<Vec<Key>, ReadFault>
    requires { IsPosed (length tree.old.schema.columns) plan.now.asked }
    ensures keys { (s : Stand) → IsStandOf tree.old s → IsDeletionOf tree.old plan.now → IfOk result
        (λ keys. keys.items ≡ keys_of s.table.schema.dims (selected_of plan.now.asked s)) }
    ensures read { IfOk result (λ keys. HasReadKeys plan.now tree.old tree.new keys.items) }
    ensures fetches { IsDeletionOf tree.old plan.now
        → FetchesVisits plan.now tree.old tree.new result }
    ensures effect { ReadsNoting tree.old tree.new result }
{
    let mut doomed = Doomed {
        keys: Vec::new(alloc),
    };
    let choice = Choice::of(plan, tree.schema());
    walk(alloc, tree, plan, choice, &mut doomed)?;
    doomed.keys.sort_unstable_by_key(|key| key.number);
    Ok(doomed.keys)
}

// Takes out the rows with these keys, one after the other. How many of them there were tells the count of the tree's rows.
fn take_out<S: PageStore>(tree: &mut Tree<S>, keys: &[Key]) -> Result<u32, TreeFault>
    ensures { TakesOutBy keys.now tree.old tree.new result }
{
    let rows = tree.rows();
    for key in keys {
        tree.remove(*key)?;
    }
    Ok(rows - tree.rows())
}
