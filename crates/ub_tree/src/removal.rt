ghost use Rattle.std.specs.Prelude.{◌≡◌, true, false, Err};
ghost use Rattle.ub_region.specs.Regions.{settle};
ghost use Rattle.ub_tree.specs.inner.Change.{IsMadeOf, IsRegionThere};
ghost use Rattle.ub_tree.specs.inner.Removing.{IsPair, Joins, JoinsNextTo, JoinsToBefore, Settles};
ghost use Rattle.ub_tree.specs.Removal.{Removes};
ghost use Rattle.ub_tree.specs.Told.{IsRegionOf};

use crate::fault::TreeFault;
use crate::tree::Tree;
use std::mem::swap;
use ub_page::RegionPage;
use ub_region::Region;
use ub_store::PageStore;
use ub_table::Key;
use ub_writing::{Drafts, Room, take_room};

impl<S: PageStore> Tree<S> {
    // Puts a region with the rows of the next one too on the page of the one that it was made of; the next one is then no
    // more. After a fault of a write the tree has failed.
    fn join_at(
        &mut self,
        region: &Region,
        next: &Region,
        page: &RegionPage,
        drafts: &mut Drafts,
    ) -> Result<(), TreeFault>
        requires { IsPair self.old region.now next.now page.now }
        ensures { Joins region.now next.now page.now.region.rows self.old self.new result }
    {
        if self.count == 1 {
            return Err(self.uncounted());
        }
        let change = self.prepare_drop(next)?;
        self.rewrite(region, page, drafts)?;
        self.put_index(&change)?;
        self.count -= 1;
        Ok(())
    }

    // Takes over the rows of the region after this one, if there is one and a page holds them
    // together with these, and then gives that.
    fn join_next(&mut self, region: &Region, room: &mut Room) -> Result<Option<Region>, TreeFault>
        requires there { IsRegionThere self.old region.now }
        requires rows { IsMadeOf self.old.schema region.now room.old.region }
        ensures { JoinsNextTo region.now room.old.region room.new.region
            self.old self.new result }
    {
        let Some(next) = self.region_after(region)? else {
            return Ok(None);
        };
        self.read_at(&next, &mut room.other)?;
        if room.region.join(&room.other, self.schema.page_rows()) {
            Ok(Some(next))
        } else {
            Ok(None)
        }
    }

    // Puts the rows of the region before this one before these, if there is one and a page
    // holds them together, and then gives that.
    fn join_before(&mut self, region: &Region, room: &mut Room) -> Result<Option<Region>, TreeFault>
        requires told { IsRegionOf self.old region.now }
        requires rows { IsMadeOf self.old.schema region.now room.old.region }
        ensures { JoinsToBefore region.now room.old.region room.new.region
            self.old self.new result }
    {
        let Some(before) = self.region_before(region)? else {
            return Ok(None);
        };
        self.read_at(&before, &mut room.other)?;
        if room.other.join(&room.region, self.schema.page_rows()) {
            swap(&mut room.region, &mut room.other);
            Ok(Some(before))
        } else {
            Ok(None)
        }
    }

    // Puts the rows that are left of a region on its page. Few rows are joined with
    // those of the next region, or else of the one before, where a page holds both.
    fn settle(&mut self, region: &Region, room: &mut Room) -> Result<(), TreeFault>
        requires there { IsRegionThere self.old region.now }
        requires rows { IsMadeOf self.old.schema region.now room.old.region }
        ensures { Settles region.now room.old.region.region.rows self.old self.new result }
    {
        if !room.region.are_few(self.schema.page_rows()) {
            return self.rewrite(region, &room.region, &mut room.drafts);
        }
        if let Some(next) = self.join_next(region, room)? {
            return self.join_at(region, &next, &room.region, &mut room.drafts);
        }
        if let Some(before) = self.join_before(region, room)? {
            return self.join_at(&before, region, &room.region, &mut room.drafts);
        }
        self.rewrite(region, &room.region, &mut room.drafts)
    }

    /// Takes out the row with this key, and tells whether there is one; where there is none nothing is written. A region
    /// that is left with fewer than half the rows of a page is joined with the next one, or else with the one before, where
    /// their rows fit on one page.
    ///
    /// Failed comes where the tree has failed; Page where a page is refused, or as BadCount on page 0 where there is such a row though
    /// none is counted, or a region would go and one alone is counted; Memory where memory was refused; Store where the store failed in
    /// this call or has no such page. After Store with Device the tree may have failed; after another fault it is as it was. Once a
    /// table is marked as changed it stays so, and it is where a row was taken out.
    pub fn remove(&mut self, key: Key) -> Result<bool, TreeFault>
        ensures { Removes key self.old self.new result }
    {
        if self.is_failed {
            return Err(TreeFault::Failed);
        }
        let mut room = take_room(&mut self.room, self.alloc, self.schema.shape())?;
        let removed = self.remove_within(&key, &mut room);
        self.room = Some(room);
        removed
    }

    // The same of a tree that works, in this room.
    fn remove_within(&mut self, key: &Key, room: &mut Room) -> Result<bool, TreeFault>
        requires { self.old.is_failed ≡ false }
        ensures { Removes key.now self.old self.new result }
    {
        let region = self.read_holding(key, &mut room.region)?;
        if !room.region.remove(key) {
            return Ok(false);
        }
        if self.rows == 0 {
            return Err(self.uncounted());
        }
        self.settle(&region, room)?;
        self.rows -= 1;
        Ok(true)
    }
}
