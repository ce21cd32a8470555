ghost use Rattle.std.specs.Prelude.{◌≡◌, ◌↔◌, false, IsTrue, IfOk, IfErr};
ghost use Rattle.ub_table_file.specs.Described.{description_text, described, described_old, of_old_format, IsDescribeFault, IsOldFault, IsOldText, IsTextOf, PassesRooted};
ghost use Rattle.ub_tree.specs.Effects.{read_store};

use crate::description::{Numbers, text_of};
use std::alloc::{AllocError, Global};
use ub_page::OldHeader;
use ub_page::header::VERSION;
use ub_store::{PageStore, new_page};
use ub_table::PageFault;
use ub_tree::{Tree, TreeFault};
use ub_upgrade::read_head;

/// The text of what a table tells by its header, and the store as it is left. Where the table is of an older version, its header is
/// read as one of that version, and no other page is.
pub(crate) fn told_by<S: PageStore>(alloc: Global, store: S) -> (S, Result<Vec<u8>, TreeFault>)
    ensures text { IfOk result.1 (λ text. IsTextOf (S.facts store) text.items) }
    ensures refused { IfErr result.1 (λ fault.
        IsDescribeFault (S.facts store) fault × PassesRooted (S.facts store) fault) }
{
    match Tree::open(alloc, store) {
        Ok(tree) => told_by_tree(alloc, tree),
        Err(refused) => {
            if is_old_format(refused.fault) {
                told_by_old(alloc, refused.store)
            } else {
                (refused.store, Err(refused.fault))
            }
        }
    }
}

// The text of what a tree that is as it was opened tells, and its store.
fn told_by_tree<S: PageStore>(alloc: Global, tree: Tree<S>) -> (S, Result<Vec<u8>, TreeFault>)
    requires unchanged { tree.is_changed ≡ false }
    requires working { tree.is_failed ≡ false }
    ensures text { IfOk result.1 (λ text. text.items ≡ description_text (described tree)) }
    ensures refused { IfErr result.1 (λ fault. fault ≡ TreeFault.Memory) }
{
    let text = tree_text(alloc, &tree);
    match tree.close() {
        Ok(store) => (store, text),
        Err(refused) => (refused.store, text),
    }
}

// The text of what a tree tells.
fn tree_text<S: PageStore>(alloc: Global, tree: &Tree<S>) -> Result<Vec<u8>, TreeFault>
    ensures text { IfOk result (λ text. text.items ≡ description_text (described tree.now)) }
    ensures refused { IfErr result (λ fault. fault ≡ TreeFault.Memory) }
{
    let numbers = Numbers {
        rows: tree.rows(),
        next: tree.next(),
        regions: tree.regions(),
        levels: tree.levels(),
        version: VERSION,
    };
    match text_of(alloc, tree.schema(), numbers) {
        Ok(text) => Ok(text),
        Err(_) => Err(TreeFault::Memory),
    }
}

// Whether this is the fault of opening a table of an older version.
fn is_old_format(fault: TreeFault) -> bool
    ensures { IsTrue result ↔ (fault ≡ of_old_format) }
{
    match fault {
        TreeFault::Page { page, fault } => page == 0 && is_old(fault),
        _ => false,
    }
}

fn is_old(fault: PageFault) -> bool
    ensures { IsTrue result ↔ (fault ≡ PageFault.OldFormat) }
{
    match fault {
        PageFault::OldFormat => true,
        _ => false,
    }
}

// The text of what the store of a table of an older version tells by its header, and the store.
fn told_by_old<S: PageStore>(alloc: Global, store: S) -> (S, Result<Vec<u8>, TreeFault>)
    ensures text { IfOk result.1 (λ text. IsOldText (S.facts store) text.items) }
    ensures refused { IfErr result.1 (IsOldFault (S.facts store)) }
    ensures left { S.facts result.0 ≡ read_store result.1 (S.facts store) }
{
    let mut old = store;
    let text = old_text(alloc, &mut old);
    (old, text)
}

// The text of what the store of a table of an older version tells by its header.
fn old_text<S: PageStore>(alloc: Global, store: &mut S) -> Result<Vec<u8>, TreeFault>
    ensures text { IfOk result (λ text. IsOldText (S.facts store.old) text.items) }
    ensures refused { IfErr result (IsOldFault (S.facts store.old)) }
    ensures left { S.facts store.new ≡ read_store result (S.facts store.old) }
{
    let mut page = new_page(alloc)?;
    let head = read_head(store, &mut page)?;
    let text = header_text(alloc, &head)?;
    Ok(text)
}

// The text of what a header of an older version tells.
fn header_text(alloc: Global, old: &OldHeader) -> Result<Vec<u8>, AllocError>
    ensures { IfOk result (λ text. text.items ≡ description_text (described_old old.now)) }
{
    let header = &old.header;
    let numbers = Numbers {
        rows: header.rows,
        next: header.next,
        regions: header.regions,
        levels: header.levels,
        version: old.version,
    };
    text_of(alloc, &header.schema, numbers)
}
