// A table of an older format, over a new store: its pages are brought over by `ub_upgrade`, and then all of them are checked.
ghost use Rattle.std.specs.Prelude.{◌≡◌, Err};
ghost use Rattle.ub_store.specs.Facts.{page_count};
ghost use Rattle.ub_tree.specs.Upgrade.{Upgrades};
ghost use Rattle.ub_tree.specs.inner.Upgrading.{HandsOn};

use crate::fault::TreeFault;
use crate::tree::Tree;
use std::alloc::Global;
use ub_laying::pager_over;
use ub_store::{PageStore, Rejected};
use ub_upgrade::bring_table;
use ub_writing::Mark;

impl<S: PageStore> Tree<S> {
    /// The tree of a table of an older format, over a new store that has no pages: its regions stand on pages of the same numbers,
    /// each with the rows that it had, and numbers go on where they went on. It counts as changed: until it is closed the new store
    /// isn't opened as a table. The old store is only read, a page at a time; then all pages are checked where they stand now, as
    /// `check` does, so that a tree that is made is sound.
    ///
    /// Page comes where a page of the old store is refused: the first, as a header of an older format; one of its directory; or the
    /// first that `check` refuses, as one of the index, or of a region, as BadRow where a row's number was met before or isn't below
    /// the next, and as BadCount of page 0 where the header tells of other regions or rows than there are. Store with NoPage comes
    /// where the old store has no page of a number that is asked for, with BadSize where the new one would have more than 4294967295
    /// pages, with Device where one of the stores failed in this call; Memory where memory was refused. The new store is then handed
    /// back.
    ///
    /// It takes memory as `check` does: for a bit for each number below the next, and for one page of the index a level.
    pub fn upgrade<O: PageStore>(
        alloc: Global,
        old: &mut O,
        new: S,
    ) -> Result<Tree<S>, Rejected<S, TreeFault>>
        requires none { page_count (S.facts new) ≡ 0 }
        ensures { Upgrades S.facts (O.facts old.old) (O.facts old.new) (S.facts new) result }
    {
        let mut pager = match pager_over(alloc, new, TreeFault::Memory) {
            Ok(pager) => pager,
            Err(refused) => return Err(refused),
        };
        match bring_table(alloc, old, &mut pager) {
            Ok((head, index)) => {
                Tree::over(alloc, head.header, index, Mark::Written, pager).checked()
            }
            Err(fault) => Err(Rejected {
                store: pager.into_store(),
                fault: TreeFault::from(fault),
            }),
        }
    }

    // The tree, where its pages are well.
    fn checked(self) -> Result<Tree<S>, Rejected<S, TreeFault>>
        ensures { HandsOn S.facts self result }
    {
        let mut tree = self;
        match tree.check() {
            Ok(()) => Ok(tree),
            Err(fault) => Err(Rejected {
                store: tree.pager.into_store(),
                fault,
            }),
        }
    }
}
