ghost use Rattle.std.specs.Prelude.{ℕ, Err, IfOk, IfErr, OnOk};
ghost use Rattle.ub_index.specs.Held.{KeepsChecked};
ghost use Rattle.ub_page.specs.declared.header.Header as spec;
ghost use Rattle.ub_store.specs.Facts.{IsHonest};
ghost use Rattle.ub_tree.specs.Opened.{HasHeader, IsPassing, IsRooted, OpensTree};
ghost use Rattle.ub_tree.specs.inner.Opening.{Opens, ReadsTable};

use crate::fault::TreeFault;
use crate::tree::Tree;
use std::alloc::Global;
use ub_index::Index;
use ub_laying::pager_over;
use ub_page::{Header, read_header};
use ub_store::{PageStore, Pager, Rejected};
use ub_writing::Mark;
use ub_zaddr::last;

impl<S: PageStore> Tree<S> {
    /// The tree of a closed table: its first page tells of the table, and of the root of the index of its regions. That page is read
    /// too, and no other; none is written.
    ///
    /// The store is handed back with a refusal. Page comes where a page is refused: by its reader; as BadCount where the root isn't of
    /// the level that the header tells; as OutOfRegion where it doesn't begin with the least key of all. Store with NoPage comes where
    /// the store doesn't have one of the two, Store with Device where the store failed in this call, Memory where memory was refused.
    pub fn open(alloc: Global, store: S) -> Result<Tree<S>, Rejected<S, TreeFault>>
        ensures { OpensTree S.facts (S.facts store) result }
    {
        // Its contract tells the proof how many pages there can be.
        let _pages = store.pages();
        let mut pager = match pager_over(alloc, store, TreeFault::Memory) {
            Ok(pager) => pager,
            Err(refused) => return Err(refused),
        };
        match read_table(&mut pager) {
            Ok((header, index)) => {
                let mark = Mark::due(&header);
                Ok(Tree::over(alloc, header, index, mark, pager))
            }
            Err(fault) => Err(Rejected {
                store: pager.into_store(),
                fault,
            }),
        }
    }
}

// The header of a closed table, and its index.
fn read_table<S: PageStore>(pager: &mut Pager<S>) -> Result<(Header, Index), TreeFault>
    ensures { ReadsTable pager.old pager.new result }
{
    let header = read_first(pager)?;
    let last = last(header.schema.shape());
    let index = Index::open(pager, header.root, header.levels, last)?;
    Ok((header, index))
}

// The header on the first page.
fn read_first<S: PageStore>(pager: &mut Pager<S>) -> Result<Header, TreeFault>
    ensures header { IfOk result (HasHeader pager.old.store) }
    ensures checked { (last : ℕ) → OnOk result (KeepsChecked last pager.old pager.new) }
    ensures exact { (header : spec.Header) → IsHonest pager.old.store
        → IsRooted pager.old.store.pages header → IfErr result IsPassing }
    ensures effect { Opens pager.old pager.new result }
{
    pager.bring(0)?;
    match read_header(pager.cached(0)) {
        Ok(header) => Ok(header),
        Err(fault) => Err(TreeFault::Page { page: 0, fault }),
    }
}
