// The check of a whole table's pages, which `ub_check` walks through.
ghost use Rattle.ub_tree.specs.Checking.{IsChecked};

use crate::fault::TreeFault;
use crate::tree::Tree;
use ub_check::{Told, check_pages};
use ub_store::PageStore;

impl<S: PageStore> Tree<S> {
    /// Whether the table's pages are sound, each of them: from the root of the index on each page is read that leads to a region, and
    /// those of the regions, in the order of their keys. Pages to which no entry leads aren't looked at. Over an honest store Ok comes
    /// just where all is sound, device and memory aside; nothing is changed, and no region is noted in the trace.
    ///
    /// Else the first fault is told: of each page, before what it leads to, what its reader refuses; BadCount where a page of the
    /// index is of another level; OutOfRegion where a page doesn't begin with the key of the entry that names it, or doesn't end
    /// before the next one; BadRow where a region has a row with a number that isn't below the next, or that was met before. One
    /// region more than is counted is BadCount of page 0, before its page is read, and so are fewer regions, or other rows, at the
    /// end. Store with NoPage comes where there is no such page, with Device where the store failed in this call; Memory where
    /// memory was refused; Failed where the tree has failed.
    ///
    /// It takes memory for a bit for each number below the next, and for one page of the index a level.
    pub fn check(&mut self) -> Result<(), TreeFault>
        ensures { IsChecked self.old self.new result }
    {
        if self.has_failed() {
            return Err(TreeFault::Failed);
        }
        let (root, levels) = self.index.root();
        let told = Told {
            root,
            levels,
            regions: self.count,
            rows: self.rows,
            next: self.next,
        };
        check_pages(self.alloc, &mut self.pager, &self.schema, &told)?;
        Ok(())
    }
}
