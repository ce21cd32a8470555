ghost use Rattle.std.specs.Prelude.{◌≡◌, IfErr, Ok, OnOk, Result};
ghost use Rattle.ub_files.specs.Clock.{IsSameFolder, Lasts, MayHold, Runs};
ghost use Rattle.ub_files.specs.Files.{KeepsFile};
ghost use Rattle.ub_store.specs.declared.fault.StoreFault.{StoreFault};
ghost use Rattle.ub_table_file.specs.Commands.{both_ended, ClosesFile};

use ub_files::Files;
use ub_tree::{Tree, TreeFault};

/// Closes the tree of a table file. Where that is done and the file was opened to be changed, what is left is kept in it; else the
/// store is put back, and the file stays as it was.
pub fn close_table<F: Files>(
    files: &mut F,
    path: &str,
    changes: bool,
    tree: Tree<F::Store>,
) -> Result<(), TreeFault>
    ensures { ClosesFile changes path.now (F.facts files.old) (F.facts files.new)
        (F.clock files.old) (F.clock files.new) tree result }
{
    match tree.close() {
        Ok(store) => {
            if changes {
                keep_store(files, path, store)
            } else {
                files.put_back(path, store);
                Ok(())
            }
        }
        Err(refused) => {
            files.put_back(path, refused.store);
            Err(refused.fault)
        }
    }
}

/// Closes the tree of a table file in memory, and puts its store back: the file stays as it was.
pub fn leave_table<F: Files>(files: &mut F, path: &str, tree: Tree<F::Store>)
    ensures kept { F.facts files.new ≡ F.facts files.old }
    ensures crash { Runs IsSameFolder (F.facts files.old) (F.clock files.old) (F.clock files.new) }
{
    match tree.close() {
        Ok(store) => files.put_back(path, store),
        Err(refused) => files.put_back(path, refused.store),
    }
}

// Keeps the pages of a store in the table file from which it was lent.
fn keep_store<F: Files>(files: &mut F, path: &str, store: F::Store) -> Result<(), TreeFault>
    ensures keeps { (keeping : Result (Unit {0}) StoreFault)
        × KeepsFile path.now (F.Store.facts store).pages (F.facts files.old) (F.facts files.new)
        keeping × (result ≡ both_ended (Ok tt) keeping)
        × IfErr keeping (λ fault. fault ≡ StoreFault.Device) }
    ensures crash { Runs (MayHold path.now (F.Store.facts store).pages)
        (F.facts files.old) (F.clock files.old) (F.clock files.new) }
    ensures lasts { OnOk result (Lasts path.now (F.Store.facts store).pages
        (F.facts files.old) (F.clock files.new)) }
{
    match files.keep(path, store) {
        Ok(()) => Ok(()),
        Err(fault) => Err(TreeFault::from(fault)),
    }
}
