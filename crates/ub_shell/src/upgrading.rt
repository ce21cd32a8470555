ghost use Rattle.std.specs.Prelude.{◌≡◌};
ghost use Rattle.ub_files.specs.Clock.{Endures, IsSameBut, Runs};
ghost use Rattle.ub_files.specs.Files.{HasPages};
ghost use Rattle.ub_shell.specs.Crashes.{HasAnew, MayStand, UpgradeLasts, UpgradesSafely};
ghost use Rattle.ub_shell.specs.Upgrading.{IsAfoot, IsFileAnew, IsUpgradeOf, UpgradesFile, UpgradesStore};
ghost use Rattle.ub_store.specs.Facts.{StoreFacts};

use std::alloc::Global;
use ub_files::Files;
use ub_script::Out;
use ub_store::MemStore;
use ub_table_file::making::{Counts, is_same, make_table};
use ub_table_file::status::{Status, tell, tell_store_fault, tell_tree_fault};
use ub_tree::Tree;
use ub_words::UpgradeWords;

/// Opens a table file of an older version, makes its table anew in memory, lets the old table file go as it was, makes the new one
/// with the table's pages, and tells how many rows and regions it has. The new table file is not touched before the table stands in
/// memory: not where both paths are equal, and then the old one isn't either, nor where that can't be opened, holds no table of an older
/// version, or is damaged. An upgrade that is stopped at any moment, or whose new table file fails, leaves a path that held a table with
/// that table or the new one, and one that held none with none or the new one.
pub fn upgrade_file<F: Files, W: Out>(
    alloc: Global,
    files: &mut F,
    asked: UpgradeWords<'_>,
    out: &mut W,
) -> Status
    ensures upgrades { UpgradesFile asked.entry.old.now asked.entry.new.now
        (F.facts files.old) (F.facts files.new) (W.facts out.old) (W.facts out.new) result }
    ensures crash { Runs (UpgradesSafely asked.entry.old.now asked.entry.new.now
        (F.facts files.old)) (F.facts files.old) (F.clock files.old) (F.clock files.new) }
    ensures lasts { result ≡ Status.Done → UpgradeLasts asked.entry.old.now asked.entry.new.now
        (F.facts files.old) (F.clock files.new) }
{
    if is_same(asked.old, asked.new) {
        return tell(out, b"! SameFile\n", Status::CommandLine);
    }
    match files.open(asked.old) {
        Ok(store) => upgrade_store(alloc, files, asked, store, out),
        Err(fault) => tell_store_fault(fault, out),
    }
}

// Makes the table in the store of the old table file anew, and puts that back before the new one is made.
fn upgrade_store<F: Files, W: Out>(
    alloc: Global,
    files: &mut F,
    asked: UpgradeWords<'_>,
    mut store: F::Store,
    out: &mut W,
) -> Status
    ensures upgrades { UpgradesStore asked.entry.new.now (F.Store.facts store)
        (F.facts files.old) (F.facts files.new) (W.facts out.old) (W.facts out.new) result }
    ensures crash { Runs (IsSameBut asked.entry.new.now (λ held. HasAnew (F.Store.facts store)
        (MayStand asked.entry.new.now (F.facts files.old) held)))
        (F.facts files.old) (F.clock files.old) (F.clock files.new) }
    ensures lasts { result ≡ Status.Done
        → Endures asked.entry.new.now (λ held. HasAnew (F.Store.facts store) (HasPages held))
        (F.facts files.old) (F.clock files.new) }
{
    match Tree::upgrade(alloc, &mut store, MemStore::new(alloc)) {
        Ok(tree) => {
            files.put_back(asked.old, store);
            keep_tree(files, asked.new, tree, out)
        }
        Err(refused) => {
            files.put_back(asked.old, store);
            tell_tree_fault(refused.fault, out)
        }
    }
}

// Closes a tree in memory, makes the table file of its pages, and tells how many rows and regions it has, or why it isn't made.
fn keep_tree<F: Files, W: Out>(
    files: &mut F,
    path: &str,
    tree: Tree<MemStore>,
    out: &mut W,
) -> Status
    requires afoot { IsAfoot tree }
    ensures makes { (from : StoreFacts) → IsUpgradeOf from tree
        → IsFileAnew path.now from (F.facts files.old) (F.facts files.new)
        (W.facts out.old) (W.facts out.new) result }
    ensures crash { (from : StoreFacts) → IsUpgradeOf from tree
        → Runs (IsSameBut path.now (λ held. HasAnew from
        (MayStand path.now (F.facts files.old) held)))
        (F.facts files.old) (F.clock files.old) (F.clock files.new) }
    ensures lasts { (from : StoreFacts) → IsUpgradeOf from tree → result ≡ Status.Done
        → Endures path.now (λ held. HasAnew from (HasPages held))
        (F.facts files.old) (F.clock files.new) }
{
    let counts = Counts {
        rows: tree.rows(),
        regions: tree.regions(),
    };
    match tree.close() {
        Ok(pages) => make_table(files, path, &pages, counts, out),
        Err(refused) => tell_tree_fault(refused.fault, out),
    }
}
