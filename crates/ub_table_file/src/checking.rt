ghost use Rattle.std.specs.Prelude.{◌≡◌, false, IfErr, IfOk};
ghost use Rattle.ub_table_file.specs.Checked.{IsCountOf, IsIllFault, PassesSound};
ghost use Rattle.ub_table_file.specs.inner.Checking.{ChecksTree, TellsCounts};

use crate::line::Line;
use crate::making::{Counts, counts_line};
use std::alloc::Global;
use ub_store::PageStore;
use ub_tree::{Tree, TreeFault};

/// Checks each page to which a table's index leads, and hands back a line with how many rows and regions it has where all of them are
/// well, and else the first fault; and the store as it is left.
pub(crate) fn checked_in<S: PageStore>(alloc: Global, store: S) -> (S, Result<Vec<u8>, TreeFault>)
    ensures text { IfOk result.1 (λ text. IsCountOf (S.facts store) text.items) }
    ensures refused { IfErr result.1 (λ fault.
        IsIllFault (S.facts store) fault × PassesSound (S.facts store) fault) }
{
    match Tree::open(alloc, store) {
        Ok(tree) => {
            let (left, counted) = checked_tree(tree);
            (left, counts_text(alloc, counted))
        }
        Err(refused) => (refused.store, Err(refused.fault)),
    }
}

// What is counted by a tree that is as it was opened, where its pages are well, and its store.
fn checked_tree<S: PageStore>(tree: Tree<S>) -> (S, Result<Counts, TreeFault>)
    requires unchanged { tree.is_changed ≡ false }
    requires working { tree.is_failed ≡ false }
    ensures { ChecksTree tree result.1 }
{
    let mut checked = tree;
    let counts = Counts {
        rows: checked.rows(),
        regions: checked.regions(),
    };
    let told = match checked.check() {
        Ok(()) => Ok(counts),
        Err(fault) => Err(fault),
    };
    (store_of(checked), told)
}

// The store of a tree that is let go.
fn store_of<S: PageStore>(tree: Tree<S>) -> S {
    match tree.close() {
        Ok(store) => store,
        Err(refused) => refused.store,
    }
}

// The line of counts, where there are any.
fn counts_text(alloc: Global, counted: Result<Counts, TreeFault>) -> Result<Vec<u8>, TreeFault>
    ensures { TellsCounts (λ text. text.items) counted result }
{
    match counted {
        Ok(counts) => line_text(alloc, &counts_line(counts)),
        Err(fault) => Err(fault),
    }
}

// The text of a line.
fn line_text(alloc: Global, line: &Line) -> Result<Vec<u8>, TreeFault>
    ensures text { IfOk result (λ text. text.items ≡ line.now.bytes) }
    ensures refused { IfErr result (λ fault. fault ≡ TreeFault.Memory) }
{
    match Vec::from_slice(alloc, line.as_str().as_bytes()) {
        Ok(text) => Ok(text),
        Err(_) => Err(TreeFault::Memory),
    }
}
