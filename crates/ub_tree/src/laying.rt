// The tree of regions that were laid on pages where a table was begun.
ghost use Rattle.std.specs.Prelude.{Err};
ghost use Rattle.ub_laying.specs.Begun.{CanLay};
ghost use Rattle.ub_tree.specs.Laid.{LaysTable};

use crate::fault::TreeFault;
use crate::tree::Tree;
use std::alloc::Global;
use ub_growing::Grown;
use ub_laying::Begun;
use ub_store::{PageStore, Rejected};
use ub_writing::Mark;

impl<S: PageStore> Tree<S> {
    /// The tree of these regions, whose next row gets this number, where a table was begun: each of them on a page, from page 1 on, in
    /// the order of their keys, and behind them its index. It counts as changed.
    ///
    /// Memory comes where memory was refused, Store with Device where the store failed in this call; the store is then handed back.
    pub fn lay(
        alloc: Global,
        begun: Begun<S>,
        grown: &Grown,
        next: u32,
    ) -> Result<Tree<S>, Rejected<S, TreeFault>>
        requires { CanLay begun.schema next grown.now }
        ensures { LaysTable S.facts begun next grown.now result }
    {
        match begun.lay(alloc, grown, next) {
            Ok((head, index, pager)) => Ok(Tree::over(alloc, head, index, Mark::Written, pager)),
            Err(refused) => Err(Rejected {
                store: refused.store,
                fault: TreeFault::from(refused.fault),
            }),
        }
    }
}
