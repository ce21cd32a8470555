// INSERT and DELETE: what they do to the tree, and the line that tells it.

ghost use Rattle.std.specs.Prelude.{◌≡◌, length};
ghost use Rattle.ub_parser.specs.Outcome.{puts, takes, IsGiven};
ghost use Rattle.ub_query.specs.Shape.{asked};
ghost use Rattle.ub_script.specs.Changes.{coordinates_of};
ghost use Rattle.ub_script.specs.inner.Calls.{AnswersCommand};

use crate::fault::RunFault;
use crate::script::Answer;
use crate::text::{deleted_text, inserted_text};
use arrayvec::ArrayVec;
use std::alloc::Global;
use ub_exec::delete;
use ub_parser::Query;
use ub_plan::plan;
use ub_store::PageStore;
use ub_table::Schema;
use ub_tree::Tree;

/// Puts in the row of these values, one for each column, and tells its number. The line is made before the row is put in, so that
/// nothing is refused after that.
// Never compiled into its caller, whose frame stands while a statement is parsed, however deep it nests.
#[inline(never)]
pub(crate) fn insert_row<S: PageStore>(
    alloc: Global,
    tree: &mut Tree<S>,
    values: &[i64],
) -> Result<Answer, RunFault>
    requires { IsGiven tree.old.schema (puts values.now) }
    ensures { AnswersCommand (puts values.now) tree.old tree.new result }
{
    let dims = coordinates(tree.schema(), values);
    let text = inserted_text(alloc, tree.next())?;
    tree.insert(dims.as_slice(), &values[dims.len()..])?;
    Ok(Answer {
        text,
        is_refused: false,
    })
}

// The coordinates that stand for the values of the dimensions, which come first.
fn coordinates(schema: &Schema, values: &[i64]) -> ArrayVec<u32, 4>
    requires { IsGiven schema.now (puts values.now) }
    ensures coordinates { result.items ≡ coordinates_of schema.now values.now }
    ensures all { length result.items ≡ schema.now.dims }
{
    let mut dims = ArrayVec::new();
    for dim in 0..schema.dims() as usize {
        // The value fits its dimension, so there is such a coordinate.
        let coordinate = schema.coordinate(dim, i128::from(values[dim]));
        dims.push(coordinate.unwrap());
    }
    dims
}

/// Takes out the rows that a query without groups, order and limit selects, and tells how many they were.
// Never compiled into its caller, as `insert_row`.
#[inline(never)]
pub(crate) fn delete_rows<S: PageStore>(
    alloc: Global,
    tree: &mut Tree<S>,
    query: &Query,
) -> Result<Answer, RunFault>
    requires { IsGiven tree.old.schema (takes (asked query.now)) }
    ensures { AnswersCommand (takes (asked query.now)) tree.old tree.new result }
{
    let plan = plan(alloc, query, tree.schema())?;
    let count = delete(alloc, tree, &plan)?;
    Ok(Answer {
        text: deleted_text(alloc, count)?,
        is_refused: false,
    })
}
