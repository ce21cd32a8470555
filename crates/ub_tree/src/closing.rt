ghost use Rattle.std.specs.Prelude.{◌<◌, false};
ghost use Rattle.ub_tree.specs.Closing.{Closes};

use crate::fault::TreeFault;
use crate::tree::Tree;
use ub_page::Header;
use ub_store::{PageStore, Rejected};
use ub_writing::write_table;

impl<S: PageStore> Tree<S> {
    /// Hands the store back as a closed table. Where the tree was changed its pages are synced first, then the clean header is
    /// written, and that is synced too. Where it was not, nothing is written, and the store is handed back as it is.
    ///
    /// Failed comes where the tree has failed, and nothing is written then; Store where the store failed in this call, or has no
    /// page. The store is handed back then too, and the header in it is as it was unless all other pages last.
    pub fn close(self) -> Result<S, Rejected<S, TreeFault>>
        ensures { Closes S.facts self result }
    {
        if self.is_failed {
            return Err(Rejected {
                store: self.pager.into_store(),
                fault: TreeFault::Failed,
            });
        }
        if !self.mark.is_written() {
            return Ok(self.pager.into_store());
        }
        let Tree {
            schema,
            index,
            count,
            next,
            rows,
            mut pager,
            ..
        } = self;
        let (root, levels) = index.root();
        let header = Header {
            schema,
            next,
            rows,
            regions: count,
            root,
            levels,
            unclean: false,
        };
        match write_table(&mut pager, &header) {
            Ok(()) => Ok(pager.into_store()),
            Err(fault) => Err(Rejected {
                store: pager.into_store(),
                fault: TreeFault::from(fault),
            }),
        }
    }
}
