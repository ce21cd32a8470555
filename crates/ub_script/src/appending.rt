// Rows that are put into a tree as they are, behind those that it has.

ghost use Rattle.std.specs.Prelude.{◌≡◌, ◌<◌, ◌≤◌, ◌+◌, IfErr, IfOk, OnOk, length};
ghost use Rattle.std.specs.List.{All};
ghost use Rattle.ub_region.specs.Regions.{numbered_from};
ghost use Rattle.ub_script.specs.Appending.{AreByKey, ArePut, ArePutUpTo, PutsRows};
ghost use Rattle.ub_script.specs.inner.Appending.{AreLater};
ghost use Rattle.ub_table.specs.Region.{IsRow, measures_of};
ghost use Rattle.ub_tree.specs.Change.{Suits};

use std::alloc::{AllocError, Global};
use ub_store::PageStore;
use ub_table::{MAX_ROW_NUMBER, Row};
use ub_tree::{Tree, TreeFault};
use ub_zaddr::Shape;

/// Puts these rows in behind those that the tree has: the first gets the number that is next, each later one the number after. They go
/// in in the order of their keys, so that the rows of a region go in one after the other, while its page is at hand. The numbers that they
/// come with are not looked at. The trace stays as it is.
///
/// Full comes, with nothing changed, where no number is left for the last of them, and else where another region is needed and the index
/// has no room for it. All other refusals are those of `Tree::insert_row`: of the rows so many are in then as went in before the one that
/// was refused; Memory also comes where there is none for their order, with nothing changed. No page is refused on a sound tree. After
/// Store with Device the tree may have failed.
pub fn put_rows<S: PageStore>(
    alloc: Global,
    tree: &mut Tree<S>,
    rows: &[Row],
) -> Result<(), TreeFault>
    requires { All (Suits tree.old.schema.dims (measures_of tree.old.schema)) rows.now }
    ensures { PutsRows tree.old tree.new rows.now result }
{
    let first = tree.next();
    if rows.len() > (MAX_ROW_NUMBER + 1 - first) as usize {
        return Err(TreeFault::Full);
    }
    let ordered = in_key_order(alloc, tree.schema().shape(), rows, first)?;
    put_all(tree, ordered.as_slice())
}

// These rows with the numbers from this one on, in the order of their keys.
fn in_key_order(
    alloc: Global,
    shape: Shape,
    rows: &[Row],
    first: u32,
) -> Result<Vec<Row>, AllocError>
    requires { first + length rows.now ≤ MAX_ROW_NUMBER + 1 }
    ensures { IfOk result (λ ordered. AreByKey shape first rows.now ordered.items) }
{
    let mut ordered = numbered(alloc, rows, first)?;
    ordered.sort_by_cached_key(|row: &Row| {
        let key = row.key(shape);
        (key.z, key.number)
    })?;
    Ok(ordered)
}

// These rows with the numbers from this one on.
fn numbered(alloc: Global, rows: &[Row], first: u32) -> Result<Vec<Row>, AllocError>
    requires { first + length rows.now ≤ MAX_ROW_NUMBER + 1 }
    ensures { IfOk result (λ numbered. numbered.items ≡ numbered_from first rows.now) }
{
    let mut numbered = Vec::with_capacity(alloc, rows.len())?;
    let mut number = first;
    for row in rows {
        numbered.push(Row { number, ..*row })?;
        number += 1;
    }
    Ok(numbered)
}

// Puts rows in, one after the other, each with its own number.
fn put_all<S: PageStore>(tree: &mut Tree<S>, ordered: &[Row]) -> Result<(), TreeFault>
    requires rows { All (IsRow tree.old.schema.dims (measures_of tree.old.schema)) ordered.now }
    requires later { AreLater tree.old.next ordered.now }
    requires fewer { tree.old.rows < tree.old.next }
    ensures put { OnOk result (ArePut tree.old ordered.now tree.new) }
    ensures stopped { IfErr result (λ fault. ArePutUpTo tree.old ordered.now fault tree.new) }
{
    for row in ordered {
        tree.insert_numbered(row)?;
    }
    Ok(())
}
