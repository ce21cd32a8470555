ghost use Rattle.std.specs.Prelude.{◌≡◌, IfErr, IfOk, OnOk, false, true};
ghost use Rattle.ub_files.specs.Clock.{IsSameFolder, Runs};
ghost use Rattle.ub_table_file.specs.Commands.{IsTreeOf, IsUntold};
ghost use Rattle.ub_table_file.specs.Opening.{LendsTable, OpensTable};

use crate::status::{Status, tell_open_fault, tell_store_fault, tell_tree_fault};
use std::alloc::Global;
use ub_files::Files;
use ub_script::Out;
use ub_tree::Tree;

/// Opens a table file and makes the tree of its table: to change it, which nobody else does meanwhile, with a journal that stands
/// beside it brought to its end; or to ask it, beside others that do. Where that isn't done, the line that says why is written, no
/// file is changed, and the result is the status that goes with it.
pub fn open_table<F: Files, W: Out>(
    alloc: Global,
    files: &mut F,
    path: &str,
    changes: bool,
    out: &mut W,
) -> Result<Tree<F::Store>, Status>
    ensures { OpensTable changes path.now (F.facts files.old) (F.facts files.new)
        (F.clock files.old) (F.clock files.new) (W.facts out.old) (W.facts out.new) result }
{
    match lend_table(files, path, changes, out) {
        Ok(store) => tree_of(alloc, files, path, store, out),
        Err(status) => Err(status),
    }
}

/// Opens a table file, as `open_table` does, and hands over its store.
pub fn lend_table<F: Files, W: Out>(
    files: &mut F,
    path: &str,
    changes: bool,
    out: &mut W,
) -> Result<F::Store, Status>
    ensures { LendsTable F.Store.facts changes path.now (F.facts files.old) (F.facts files.new)
        (F.clock files.old) (F.clock files.new) (W.facts out.old) (W.facts out.new) result }
{
    if changes {
        lend_to_change(files, path, out)
    } else {
        lend_to_ask(files, path, out)
    }
}

// Opens a table file to be changed.
fn lend_to_change<F: Files, W: Out>(
    files: &mut F,
    path: &str,
    out: &mut W,
) -> Result<F::Store, Status>
    ensures { LendsTable F.Store.facts true path.now (F.facts files.old) (F.facts files.new)
        (F.clock files.old) (F.clock files.new) (W.facts out.old) (W.facts out.new) result }
{
    match files.change(path) {
        Ok(store) => Ok(store),
        Err(fault) => Err(tell_open_fault(fault, out)),
    }
}

// Opens a table file to be asked.
fn lend_to_ask<F: Files, W: Out>(files: &mut F, path: &str, out: &mut W) -> Result<F::Store, Status>
    ensures { LendsTable F.Store.facts false path.now (F.facts files.old) (F.facts files.new)
        (F.clock files.old) (F.clock files.new) (W.facts out.old) (W.facts out.new) result }
{
    match files.open(path) {
        Ok(store) => Ok(store),
        Err(fault) => Err(tell_store_fault(fault, out)),
    }
}

// The tree of the store of a table file; or the store is put back, and it is told why there is none.
fn tree_of<F: Files, W: Out>(
    alloc: Global,
    files: &mut F,
    path: &str,
    store: F::Store,
    out: &mut W,
) -> Result<Tree<F::Store>, Status>
    ensures files { F.facts files.new ≡ F.facts files.old }
    ensures tree { IfOk result (IsTreeOf (F.Store.facts store)) }
    ensures quiet { OnOk result (W.facts out.new ≡ W.facts out.old) }
    ensures untold { IfErr result
        (IsUntold (F.Store.facts store) (W.facts out.old) (W.facts out.new)) }
    ensures crash { Runs IsSameFolder (F.facts files.old) (F.clock files.old) (F.clock files.new) }
{
    match Tree::open(alloc, store) {
        Ok(tree) => Ok(tree),
        Err(refused) => {
            files.put_back(path, refused.store);
            Err(tell_tree_fault(refused.fault, out))
        }
    }
}
