ghost use Rattle.std.specs.Prelude.{◌≡◌, ◌≢◌, ◌↔◌, Option, Some, None, map, IfErr, IfOk, IfSome, IsOk, IsTrue, MatchResult};
ghost use Rattle.ub_index_change.specs.Preparing.{HasFullWay};
ghost use Rattle.ub_page.specs.declared.header.TheConstants.{MAX_LEVEL};
ghost use Rattle.ub_region.specs.Regions.{index_holding};
ghost use Rattle.ub_store.specs.Facts.{IsHonest};
ghost use Rattle.ub_table.specs.Keys.{IsBefore, origin};
ghost use Rattle.ub_tree.specs.Effects.{Searches};
ghost use Rattle.ub_tree.specs.Holding.{HasNoRoom, IsRoomFault};
ghost use Rattle.ub_tree.specs.Opened.{IsPassing};
ghost use Rattle.ub_tree.specs.Placed.{entry_of};
ghost use Rattle.ub_tree.specs.Removal.{IsRemovalFault};
ghost use Rattle.ub_tree.specs.Spans.{first_keys, Region};
ghost use Rattle.ub_tree.specs.Told.{FallsTo, IsRegionOf};
ghost use Rattle.ub_tree.specs.View.{region_count};
ghost use Rattle.ub_tree.specs.inner.Change.{IsAddReady, IsDropReady, IsRegionIn, IsStored, MakesReady};
ghost use Rattle.ub_tree.specs.inner.Removing.{FindsNext, FindsPrevious};

use crate::fault::TreeFault;
use crate::tree::Tree;
use ub_index_change::{Change, prepare_add, prepare_drop};
use ub_region::{Region, is_equal};
use ub_store::PageStore;
use ub_table::{Key, PageFault};

impl<S: PageStore> Tree<S> {
    // The region that holds a key.
    pub(crate) fn region_holding(&mut self, key: &Key) -> Result<Region, TreeFault>
        ensures falls { IfOk result (FallsTo self.old key.now) }
        ensures region { IsStored self.old → IfOk result (IsRegionIn self.old
            (index_holding key.now (first_keys (map entry_of self.old.placed)))) }
        ensures led { (span : Region) → IsHonest self.old.store → FallsTo self.old key.now span
            → MatchResult result (λ found. found ≡ span) IsPassing }
        ensures effect { Searches self.old self.new result }
    {
        let region = self.index.region_holding(&mut self.pager, key)?;
        Ok(region)
    }

    // The region after another one, if there is one: it begins where that one tells. Only a store that isn't honest can tell of
    // another one, which is refused: so no region is changed together with one that isn't its neighbour.
    pub(crate) fn region_after(&mut self, region: &Region) -> Result<Option<Region>, TreeFault>
        requires { IsRegionOf self.old region.now }
        ensures { FindsNext region.now self.old self.new result }
    {
        let Some(next) = self.index.after(&mut self.pager, region)? else {
            return Ok(None);
        };
        if begins_at(&next.first, &region.next) {
            Ok(Some(next))
        } else {
            Err(self.apart())
        }
    }

    // The region before another one, if there is one: which ends where that begins. Otherwise as `region_after`.
    pub(crate) fn region_before(&mut self, region: &Region) -> Result<Option<Region>, TreeFault>
        requires { IsRegionOf self.old region.now }
        ensures { FindsPrevious region.now self.old self.new result }
    {
        let Some(before) = self.index.before(&mut self.pager, region)? else {
            return Ok(None);
        };
        // What it answers has 32 bits, so that no key stands between the greatest one before the region's first and that.
        let _number = number_in(&before.next);
        if begins_at(&region.first, &before.next) {
            Ok(Some(before))
        } else {
            Err(self.apart())
        }
    }

    // Makes ready that a region comes behind another one, with this first key.
    pub(crate) fn prepare_add(&mut self, region: &Region, first: &Key) -> Result<Change, TreeFault>
        ensures ready { IfOk result (IsAddReady self.old region.now first.now) }
        ensures led { IsHonest self.old.store → FallsTo self.old region.now.first region.now
            → IfErr result HasNoRoom }
        ensures full { IsHonest self.old.store → self.old.inner.index.levels ≡ MAX_LEVEL
            → HasFullWay self.old.inner.index self.old.store region.now.first → ¬ (IsOk result) }
        ensures short { IsHonest self.old.store
            → IfErr result (IsRoomFault (Unit {0}) self.old region.now.first) }
        ensures effect { MakesReady self.old self.new result }
    {
        // Its contract tells the proof how many levels there can be.
        let _root = self.index.root();
        let change = prepare_add(&self.index, self.alloc, &mut self.pager, region, first)?;
        Ok(change)
    }

    // Makes ready that a region goes, which is not the first, nor the only one that is counted.
    pub(crate) fn prepare_drop(&mut self, region: &Region) -> Result<Change, TreeFault>
        requires told { IsRegionOf self.old region.now }
        requires behind { IsBefore origin region.now.first }
        requires more { region_count self.old ≢ 1 }
        ensures ready { IfOk result (IsDropReady self.old region.now) }
        ensures faults { IfErr result (IsRemovalFault self.old) }
        ensures effect { MakesReady self.old self.new result }
    {
        // Their contracts tell the proof how many levels and pages there can be.
        let _root = self.index.root();
        let _pages = self.pager.pages();
        let change = prepare_drop(&self.index, self.alloc, &mut self.pager, region)?;
        Ok(change)
    }

    // The refusal of two ways that don't lead to neighbours.
    fn apart(&self) -> TreeFault
        ensures { result ≡ TreeFault.Page self.now.inner.index.root PageFault.OutOfRegion }
    {
        TreeFault::Page {
            page: self.index.root().0,
            fault: PageFault::OutOfRegion,
        }
    }
}

// Whether a region that begins with this key is the next one, where that begins so.
fn begins_at(first: &Key, next: &Option<Key>) -> bool
    ensures { IsTrue result ↔ (next.now ≡ Some first.now) }
{
    match next {
        Some(next) => is_equal(first, next),
        None => false,
    }
}

// The number of a key, if there is one.
fn number_in(key: &Option<Key>) -> u32
    ensures { IfSome key.now (λ k. result ≡ k.number) }
{
    match key {
        Some(key) => key.number,
        None => 0,
    }
}
