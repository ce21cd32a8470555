ghost use Rattle.std.specs.Prelude.{◌≡◌, Err};
ghost use Rattle.ub_store.specs.Facts.{page_count};
ghost use Rattle.ub_tree.specs.Calls.{Creates};
ghost use Rattle.ub_tree.specs.inner.Opening.{LaysOut};

use crate::fault::TreeFault;
use crate::tree::Tree;
use std::alloc::Global;
use ub_index::Index;
use ub_laying::pager_over;
use ub_store::{PageStore, Pager, Rejected};
use ub_table::Schema;
use ub_writing::{Mark, first_header, write_first_pages};
use ub_zaddr::last;

impl<S: PageStore> Tree<S> {
    /// A tree of this schema with no rows, over a store that has no pages. It takes three: the header, marked unclean, the page of the
    /// one region, and that of the root of its index. The header is written before any other page is taken.
    ///
    /// Memory comes where memory was refused, Store with Device where the store failed in this call; the store is then handed back.
    pub fn create(
        alloc: Global,
        store: S,
        schema: &Schema,
    ) -> Result<Tree<S>, Rejected<S, TreeFault>>
        requires { page_count (S.facts store) ≡ 0 }
        ensures { Creates S.facts (S.facts store) schema.now result }
    {
        let mut pager = match pager_over(alloc, store, TreeFault::Memory) {
            Ok(pager) => pager,
            Err(refused) => return Err(refused),
        };
        match lay_out(&mut pager, schema) {
            Ok(index) => {
                let header = first_header(schema);
                Ok(Tree::over(alloc, header, index, Mark::Written, pager))
            }
            Err(fault) => Err(Rejected {
                store: pager.into_store(),
                fault,
            }),
        }
    }
}

// The first pages of a table with no rows, and its index: of one region, on page 1.
fn lay_out<S: PageStore>(pager: &mut Pager<S>, schema: &Schema) -> Result<Index, TreeFault>
    requires { page_count pager.old.store ≡ 0 }
    ensures { LaysOut schema.now pager.old pager.new result }
{
    write_first_pages(pager, schema)?;
    let index = Index::create(pager, 2, 1, last(schema.shape()))?;
    Ok(index)
}
