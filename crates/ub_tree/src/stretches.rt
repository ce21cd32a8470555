// Stretches of a tree, and the parts of one that meet some boxes.
ghost use Rattle.std.specs.Prelude.{◌≡◌, ◌≤◌};
ghost use Rattle.ub_tree.specs.Stretches.{Began, OpensStretch, whole_of};

use crate::fault::TreeFault;
use crate::read_fault::ReadFault;
use crate::tree::Tree;
use ub_bigmin::ZBox;
use ub_index::{Stretch, StretchSink};
use ub_store::PageStore;

impl<S: PageStore> Tree<S> {
    /// The whole tree, as one stretch: of level 1 at least.
    pub fn whole(&self) -> Stretch
        ensures { result ≡ whole_of self.now }
    {
        self.index.whole()
    }

    /// Hands the parts of a stretch of level 1 or more that meet one of the boxes to a sink, one after the other, in the order of
    /// their first keys: over a sound tree each region within the stretch that meets them is within one of these. A part of level
    /// 0 is a region. No region is fetched, and the trace stays; one page of the index is read, where it isn't held.
    ///
    /// `Memory` where memory was refused, here or by the sink; `Tree` with Failed where the tree has failed, with Page where the
    /// stretch's page is refused, with Store where the store failed in this call or has no such page.
    pub fn open_stretch<T: StretchSink>(
        &mut self,
        stretch: &Stretch,
        boxes: &[ZBox],
        sink: &mut T,
    ) -> Result<(), ReadFault>
        requires some { 1 ≤ stretch.now.level }
        requires began { Began (T.Takes boxes.now) sink.old }
        ensures { OpensStretch (T.Takes boxes.now) boxes.now stretch.now self.old self.new sink.old
            sink.new result }
    {
        if self.has_failed() {
            return Err(ReadFault::Tree(TreeFault::Failed));
        }
        let pager = &mut self.pager;
        if let Err(fault) = self.index.open_stretch(pager, stretch, boxes, sink) {
            return Err(ReadFault::from(TreeFault::from(fault)));
        }
        Ok(())
    }
}
