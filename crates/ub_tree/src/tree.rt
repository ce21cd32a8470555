ghost use Rattle.std.specs.Prelude.{◌≡◌, ◌<◌, ◌≤◌, ◌+◌, false, IsTrue, Err, List, length, IfOk, IfSome, OnOk, option_copied};
ghost use Rattle.ub_region.specs.RegionPage.{empty_region};
ghost use Rattle.ub_store.specs.View.{emptied};
ghost use Rattle.ub_table.specs.declared.row.TheConstants.{MAX_ROW_NUMBER};
ghost use Rattle.ub_tree.specs.Calls.{TakesIn};
ghost use Rattle.ub_tree.specs.Effects.{SearchesFor};
ghost use Rattle.ub_tree.specs.Handing.{AreNext, Began, TakesThese};
ghost use Rattle.ub_tree.specs.Spans.{IsLater, Meets, First, Region};
ghost use Rattle.ub_tree.specs.Told.{GivesAt, GivesNext, IsRegionOf, SeeksAt, SeeksNext};
ghost use Rattle.ub_tree.specs.Tree.{IsTree, tree_view};
ghost use Rattle.ub_tree.specs.View.{IsSound, level_count, region_count, spans_of};
ghost use Rattle.ub_writing.specs.Marks.{is_written};

use crate::fault::TreeFault;
use std::alloc::Global;
use std::marker::Model;
use ub_bigmin::ZBox;
use ub_check::fetch_region;
use ub_index::{Index, RegionSink};
use ub_page::{Header, RegionPage};
use ub_region::Region;
use ub_store::{PageStore, Pager};
use ub_table::Schema;
use ub_writing::{Mark, Room};

/// A UB-tree (Bayer 1997) over a store of pages: the rows of a table in regions, each on a page, in the order of their
/// addresses.
///
/// The index, which tells where each region begins and its page, stands in the store, and is read as calls come to its pages.
/// Over an honest store each page of it that is held in memory was checked: so what a call tells of doesn't depend on what was
/// read before.
/// After a write, an extension or a sync that failed the tree does no more: every call that could fail answers Failed.
#[derive(Drop)]
pub struct Tree<S: PageStore> {
    pub(crate) schema: Schema,
    pub(crate) index: Index,
    // How many regions there are.
    pub(crate) count: u32,
    // The number that the next row gets.
    pub(crate) next: u32,
    pub(crate) rows: u32,
    // Due until a page is written: the tree has changed once it is written itself.
    pub(crate) mark: Mark,
    pub(crate) is_failed: bool,
    pub(crate) pager: Pager<S>,
    // Room for a region that is changed: none before the first change takes it from memory, nor while a call has it in hand.
    pub(crate) room: Option<Box<Room>>,
    pub(crate) alloc: Global,
}

impl<S: PageStore> Model for Tree<S> {
    ghost use Rattle.std.specs.Prelude.{◌≡◌};
    ghost use Rattle.ub_tree.specs.View.{TreeView};
    ghost use Rattle.ub_tree.specs.Tree.{tree_view, IsTree};
    ghost use Rattle.ub_writing.specs.Marks.{is_written};

    ghost Value = { TreeView };

    ghost view = { λ t. tree_view t.schema t.index t.count t.next t.rows (is_written t.mark) t.is_failed t.pager };

    ghost invariant = { λ t. IsTree t.schema t.index t.count t.next t.rows t.mark t.pager };
}

impl<S: PageStore> Tree<S> {
    // The tree of a table with the counts of this header, over the pages on which its index stands. It works, and holds no room.
    pub(crate) fn over(
        alloc: Global,
        header: Header,
        index: Index,
        mark: Mark,
        pager: Pager<S>,
    ) -> Tree<S>
        requires { IsTree header.schema index header.regions header.next header.rows mark pager }
        ensures { result ≡ tree_view header.schema index header.regions header.next
            header.rows (is_written mark) false pager }
    {
        Tree {
            schema: header.schema,
            index,
            count: header.regions,
            next: header.next,
            rows: header.rows,
            mark,
            is_failed: false,
            pager,
            room: None,
            alloc,
        }
    }

    /// What the table is made of.
    pub fn schema(&self) -> &Schema
        ensures { result.now ≡ self.now.schema }
    {
        &self.schema
    }

    /// How many regions there are.
    pub fn regions(&self) -> u32
        ensures count { result ≡ region_count self.now }
        ensures placed { IsSound self.now → result ≡ length self.now.placed }
    {
        self.count
    }

    /// How many levels the index has: 1 to 16.
    pub fn levels(&self) -> u32
        ensures { result ≡ level_count self.now }
    {
        self.index.root().1
    }

    /// How many rows there are.
    pub fn rows(&self) -> u32
        ensures { result ≡ self.now.rows }
    {
        self.rows
    }

    /// The number that the next row gets: one more than the last row got. It is more than there are rows, and at most one above the
    /// last that a row can have.
    pub fn next(&self) -> u32
        ensures next { result ≡ self.now.next }
        ensures range { (self.now.rows < result) × (result ≤ MAX_ROW_NUMBER + 1) }
    {
        self.next
    }

    /// Whether a write, an extension or a sync failed: the tree then does no more.
    pub fn has_failed(&self) -> bool
        ensures { result ≡ self.now.is_failed }
    {
        self.is_failed
    }

    /// Empties the trace. The number of fetches stays.
    pub fn begin(&mut self)
        ensures { self.new ≡ record self.old { trace = emptied self.old.trace } }
    {
        self.pager.begin();
    }

    /// The numbers of the region pages asked for since the trace began, in the order in which they were asked for.
    pub fn trace(&self) -> &[u32]
        ensures { result.now ≡ self.now.trace.pages }
    {
        self.pager.trace()
    }

    /// The first region later than `after`, if one is given, whose span ends at z or later; `None` exactly where a sound tree
    /// has none. What is found of any tree begins later than `after`. Failed where the tree has failed; Page where a page of the
    /// index is refused on the way to the first key of `after`, or then to the place from which the search goes on; Store where the
    /// store failed in this call or has no such page; Memory where memory was refused.
    pub fn seek(&mut self, z: u128, after: Option<&Region>) -> Result<Option<Region>, TreeFault>
        ensures found { IsSound self.old → IfOk result
            (λ found. First (λ r. IsLater (option_copied after.entry) r × (z ≤ r.to))
            (spans_of self.old) found) }
        ensures later { IfOk result (λ found. IfSome found (λ r. IsRegionOf self.old r
            × IsLater (option_copied after.entry) r × (z ≤ r.to))) }
        ensures gives { IfOk result (GivesAt z self.old (option_copied after.entry)) }
        ensures failed { IsTrue self.old.is_failed → result ≡ Err TreeFault.Failed }
        ensures effect { SearchesFor (SeeksAt z self.old (option_copied after.entry))
            self.old self.new result }
    {
        if self.has_failed() {
            return Err(TreeFault::Failed);
        }
        let found = self.index.seek(&mut self.pager, z, after)?;
        Ok(found)
    }

    /// The first region later than `after`, if one is given, that meets one of the boxes; `None` exactly where a sound tree
    /// has none. What is found of any tree begins later than `after`, so that asking on from it comes to an end. Refused as
    /// `seek` is.
    pub fn next_meeting(
        &mut self,
        boxes: &[ZBox],
        after: Option<&Region>,
    ) -> Result<Option<Region>, TreeFault>
        ensures found { IsSound self.old → IfOk result
            (λ found. First (λ r. IsLater (option_copied after.entry) r × Meets boxes.now r)
            (spans_of self.old) found) }
        ensures later { IfOk result (λ found. IfSome found (IsLater (option_copied after.entry))) }
        ensures gives { IfOk result (GivesNext boxes.now self.old (option_copied after.entry)) }
        ensures failed { IsTrue self.old.is_failed → result ≡ Err TreeFault.Failed }
        ensures effect { SearchesFor (SeeksNext boxes.now self.old (option_copied after.entry))
            self.old self.new result }
    {
        if self.has_failed() {
            return Err(TreeFault::Failed);
        }
        let found = self.index.next_meeting(&mut self.pager, boxes, after)?;
        Ok(found)
    }

    /// Hands the next regions later than `after`, if one is given, that meet one of the boxes to a sink, in the order of their first
    /// keys: some of those that one leaf of the index names, just as `next_meeting` answers them, asked after each; none only where it
    /// answers none. `after` is a region that the tree has answered. No region is fetched, and the trace stays.
    ///
    /// Refused as `next_meeting` is; Memory also where memory was refused by the sink.
    pub fn hand_next<T: RegionSink>(
        &mut self,
        boxes: &[ZBox],
        after: Option<&Region>,
        sink: &mut T,
    ) -> Result<(), TreeFault>
        requires told { IfSome (option_copied after) (IsRegionOf self.old) }
        requires began { Began (T.Takes boxes.now) sink.old }
        ensures met { OnOk result ((met : List Region)
            × AreNext boxes.now self.old (option_copied after.entry) met
            × TakesThese (T.Takes boxes.now) sink.old sink.new met) }
        ensures failed { IsTrue self.old.is_failed → result ≡ Err TreeFault.Failed }
        ensures effect { SearchesFor (SeeksNext boxes.now self.old (option_copied after.entry))
            self.old self.new result }
    {
        if self.has_failed() {
            return Err(TreeFault::Failed);
        }
        self.index.hand_next(&mut self.pager, boxes, after, sink)?;
        Ok(())
    }

    /// A region of no rows, for `read_region`. Takes no memory.
    pub fn empty_region(&self) -> RegionPage
        ensures { result ≡ empty_region self.now.schema.dims }
    {
        RegionPage::empty(self.schema.shape())
    }

    /// Takes in what stands on the region's page, which is noted in the trace first; so one `page` can take in each region of a walk,
    /// and none moves. The page is checked against the region: its first key is the region's, and each of its rows is before the first
    /// key of the next region; otherwise OutOfRegion. So of a region that isn't the tree's, the refusal is told under what that one
    /// says. Failed where the tree has failed; Page where the page is refused; Store where the store failed in this call or has no such
    /// page; Memory where memory was refused, for the note or for the page. After a fault any region may stand in `page`. A page that
    /// is refused isn't held after it.
    pub fn read_region(&mut self, region: &Region, page: &mut RegionPage) -> Result<(), TreeFault>
        ensures { TakesIn region.now page.new self.old self.new result }
    {
        if self.has_failed() {
            return Err(TreeFault::Failed);
        }
        fetch_region(&mut self.pager, &self.schema, region, page)?;
        Ok(())
    }

    /// Takes in what stands on the region's page, as `read_region` does, where so many pages from that one on are asked for
    /// next, one after the other: the store may then read several of them at once.
    pub fn read_in_run(
        &mut self,
        region: &Region,
        run: u32,
        page: &mut RegionPage,
    ) -> Result<(), TreeFault>
        ensures { TakesIn region.now page.new self.old self.new result }
    {
        self.pager.announce(region.page, run);
        self.read_region(region, page)
    }
}
