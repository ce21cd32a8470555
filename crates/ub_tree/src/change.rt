ghost use Rattle.std.specs.Prelude.{ℕ, ◌≡◌, ◌≤◌, ◌+◌, ◌-◌, ◌<◌, true, false, Some, Err, length, IfOk, IfErr, OnOk};
ghost use Rattle.std.specs.List.{insert};
ghost use Rattle.ub_index_change.specs.Changing.{AreIndexPages};
ghost use Rattle.ub_index_change.specs.Making.{changed};
ghost use Rattle.ub_index_change.specs.Preparing.{IsWithinRegion};
ghost use Rattle.ub_region.specs.RegionPage.{region_page};
ghost use Rattle.ub_region.specs.Rows.{insert_row};
ghost use Rattle.ub_store.specs.Facts as facts;
ghost use Rattle.ub_store.specs.Facts.{page_count};
ghost use Rattle.ub_table.specs.Region.{RegionRows, IsRegion, IsRow, measures_of};
ghost use Rattle.ub_tree.specs.Change as spec;
ghost use Rattle.ub_tree.specs.Change.{Suits, numbered};
ghost use Rattle.ub_tree.specs.Inserted.{Inserts, InsertsAs};
ghost use Rattle.ub_tree.specs.inner.Change.{CanStand, GrowsTo, HasReadAt, IsPut, IsReadAt, PutsIndex, ReadsAt, Rewrites, Splits, Stores, IsRegionThere, WritesBoth};
ghost use Rattle.ub_tree.specs.Effects.{Searches};
ghost use Rattle.ub_tree.specs.Holding.{FallsInto};
ghost use Rattle.ub_tree.specs.Opened.{IsPassing};
ghost use Rattle.ub_tree.specs.Told.{IsRegionOf};
ghost use Rattle.ub_tree.specs.View.{IsSound, region_count};
ghost use Rattle.ub_writing.specs.Puts.{PutsTwo};

use crate::fault::TreeFault;
use crate::tree::Tree;
use ub_check::read_region;
use ub_index_change::{Change, commit};
use ub_page::RegionPage;
use ub_region::Region;
use ub_store::{MAX_PAGES, PageStore, StoreFault};
use ub_table::{Key, MAX_ROW_NUMBER, PageFault, Row, row_of};
use ub_writing::{Drafts, Room, put_halves, put_region, take_room};

// One above the last number that a row can have.
const NEXT_END: u32 = MAX_ROW_NUMBER + 1;

// The refusal of a call in which the store failed as it was changed: the tree has failed then.
fn failing(is_failed: &mut bool, fault: StoreFault) -> TreeFault
    ensures failed { is_failed.new ≡ true }
    ensures fault { result ≡ TreeFault.Store fault }
{
    *is_failed = true;
    TreeFault::Store(fault)
}

impl<S: PageStore> Tree<S> {
    // Reads a region. After a fault any region may stand in `page`. A page that is refused isn't held after it.
    pub(crate) fn read_at(
        &mut self,
        region: &Region,
        page: &mut RegionPage,
    ) -> Result<(), TreeFault>
        requires { IsRegionOf self.old region.now }
        ensures { ReadsAt region.now page.new self.old self.new result }
    {
        read_region(&mut self.pager, &self.schema, region, page)?;
        Ok(())
    }

    // Reads the region that holds a key. After a fault any region may stand in `page`.
    pub(crate) fn read_holding(
        &mut self,
        key: &Key,
        page: &mut RegionPage,
    ) -> Result<Region, TreeFault>
        ensures read { IfOk result (λ region. HasReadAt self.old key.now region page.new) }
        ensures led { (number : ℕ) (region : RegionRows) → facts.IsHonest self.old.store
            → FallsInto self.old key.now number region → IfErr result IsPassing }
        ensures effect { Searches self.old self.new result }
    {
        let region = self.region_holding(key)?;
        self.read_at(&region, page)?;
        Ok(region)
    }

    // Puts this region on the page of the one it was made of, and before it the mark, where that is due. After a fault the tree has failed.
    pub(crate) fn rewrite(
        &mut self,
        region: &Region,
        page: &RegionPage,
        drafts: &mut Drafts,
    ) -> Result<(), TreeFault>
        requires there { IsRegionThere self.old region.now }
        requires first { page.now.region.first ≡ region.now.first }
        requires region { IsRegion self.old.schema
            (record { first = region.now.first; rows = page.now.region.rows }) }
        ensures { Rewrites region.now page.now.region.rows self.old self.new result }
    {
        // Its contract tells the proof that the index doesn't stand on the first page.
        let _root = self.index.root();
        match put_region(
            &mut self.pager,
            &mut self.mark,
            &self.schema,
            region.page,
            page,
            &mut drafts.page,
        ) {
            Ok(()) => Ok(()),
            Err(fault) => Err(failing(&mut self.is_failed, fault)),
        }
    }

    // The refusal of a region more or fewer than a header can count, or of a row where none is counted.
    pub(crate) fn uncounted(&self) -> TreeFault
        ensures fault { result ≡ TreeFault.Page 0 PageFault.BadCount }
        ensures many { region_count self.now ≡ 4294967295 → ¬ (IsSound self.now) }
    {
        // Its contract tells the proof how many pages there can be.
        let _pages = self.pager.pages();
        TreeFault::Page {
            page: 0,
            fault: PageFault::BadCount,
        }
    }

    // Gives the store the pages that a change needs. After a failure of the device the tree has failed.
    fn grow(&mut self, change: &Change) -> Result<(), TreeFault>
        ensures { GrowsTo (page_count self.old.store + (change.now.next - change.now.start))
            self.old self.new result }
    {
        match change.grow(&mut self.pager) {
            Ok(()) => Ok(()),
            Err(StoreFault::Device) => Err(failing(&mut self.is_failed, StoreFault::Device)),
            Err(StoreFault::Memory) => Err(TreeFault::Memory),
            Err(StoreFault::BadSize) => Err(TreeFault::Store(StoreFault::BadSize)),
            Err(StoreFault::NoPage) => Err(TreeFault::Store(StoreFault::NoPage)),
        }
    }

    // Puts the halves of a region: the right one on the page of this number, and then the left one on its own. After a fault the tree
    // has failed.
    fn put_halves(
        &mut self,
        region: &Region,
        left: &RegionPage,
        number: u32,
        right: &RegionPage,
        drafts: &mut Drafts,
    ) -> Result<(), TreeFault>
        requires own { region.now.page < page_count self.old.store }
        requires there { number < page_count self.old.store }
        requires left { IsRegion self.old.schema left.now.region }
        requires right { IsRegion self.old.schema right.now.region }
        ensures same { OnOk result (IsPut self.old self.new) }
        ensures put { OnOk result (PutsTwo number
            (region_page self.old.schema right.now.region) region.now.page
            (region_page self.old.schema left.now.region) self.old.store self.new.store) }
        ensures effect { WritesBoth number region.now self.old self.new result }
    {
        match put_halves(
            &mut self.pager,
            &mut self.mark,
            &self.schema,
            (number, right),
            (region.page, left),
            drafts,
        ) {
            Ok(()) => Ok(()),
            Err(fault) => Err(failing(&mut self.is_failed, fault)),
        }
    }

    // Puts the pages of the index that a change spells, and takes over its root. After a fault the tree has failed.
    pub(crate) fn put_index(&mut self, change: &Change) -> Result<(), TreeFault>
        requires { facts.IsHonest self.old.store
            → AreIndexPages self.old.inner.index.last change.now.sheets }
        ensures { PutsIndex change.now self.old self.new result }
    {
        match commit(&mut self.index, &mut self.pager, change) {
            Ok(()) => Ok(()),
            Err(fault) => Err(failing(&mut self.is_failed, fault)),
        }
    }

    // Puts the left half of a region on its page and the right one on a new one, and that into the index. All that can be
    // refused comes before the first page is written, and before the store has a page more. After a failure of the device that comes
    // later the tree has failed.
    fn split(
        &mut self,
        region: &Region,
        left: &RegionPage,
        right: &RegionPage,
        drafts: &mut Drafts,
    ) -> Result<(), TreeFault>
        requires there { IsRegionThere self.old region.now }
        requires first { left.now.region.first ≡ region.now.first }
        requires within { IsWithinRegion self.old.inner.index.last region.now.first region.now.next
            right.now.region.first }
        requires left { IsRegion self.old.schema
            (record { first = region.now.first; rows = left.now.region.rows }) }
        requires right { IsRegion self.old.schema right.now.region }
        ensures { Splits region.now (record {
          left = left.now.region.rows;
          first = right.now.region.first;
          right = right.now.region.rows;
        }) self.old self.new result }
    {
        // Its contract tells the proof how many levels there can be.
        let _root = self.index.root();
        if self.count == MAX_PAGES {
            return Err(self.uncounted());
        }
        let change = self.prepare_add(region, &right.first())?;
        self.grow(&change)?;
        self.put_halves(region, left, change.page(), right, drafts)?;
        self.put_index(&change)?;
        self.count += 1;
        Ok(())
    }

    // Puts a row in among those of a region, which was read into this room, and puts
    // them on its page, or on that and a new one.
    fn store_with(
        &mut self,
        region: &Region,
        index: usize,
        row: &Row,
        room: &mut Room,
    ) -> Result<(), TreeFault>
        requires there { IsRegionOf self.old region.now
            × (region.now.page < page_count self.old.store) }
        requires place { (index ≤ length room.old.region.region.rows)
            × (insert_row self.old.schema.dims row.now room.old.region.region.rows
            ≡ insert room.old.region.region.rows index row.now) }
        requires read { IsReadAt self.old region.now room.old.region }
        requires rows { CanStand self.old region.now
            (insert_row self.old.schema.dims row.now room.old.region.region.rows) }
        ensures { Stores region.now (length room.old.region.region.rows)
            (insert_row self.old.schema.dims row.now room.old.region.region.rows)
            self.old self.new result }
    {
        if room.region.len() == self.schema.page_rows() as usize {
            room.region.split_with(index, row, &mut room.other);
            return self.split(region, &room.region, &room.other, &mut room.drafts);
        }
        room.region.insert_at(index, row);
        self.rewrite(region, &room.region, &mut room.drafts)
    }

    /// Puts a row in, with these coordinates and measures, and gives its number: one more than the last row got.
    ///
    /// Full comes where the last number is given, and else only where another region is needed, and the index has 16 levels each page
    /// of which on the way there is full. Failed comes where the tree has failed; Page where a page is refused, as BadOrder where the
    /// region on it has the new row's key already, as BadCount on page 0 where a region more is needed than can be counted; Memory
    /// where memory was refused; Store where the store failed in this call, has no such page, or can't have as many more as are needed
    /// (BadSize). After Store with Device the tree may have failed; after another fault it is as it was.
    pub fn insert(&mut self, dims: &[u32], measures: &[i64]) -> Result<u32, TreeFault>
        requires dims { length dims.now ≡ self.old.schema.dims }
        requires measures { length measures.now ≡ measures_of self.old.schema }
        ensures { Inserts (spec.row_of self.old.next dims.now measures.now)
            self.old self.new result }
    {
        let row = row_of(self.next, dims, measures);
        self.insert_row(&row)
    }

    /// Puts a row in, and gives its number: one more than the last row got. The number that the row comes with is not looked
    /// at: the row that is kept has the next one. Its refusals are those of `insert`.
    pub fn insert_row(&mut self, row: &Row) -> Result<u32, TreeFault>
        requires { Suits self.old.schema.dims (measures_of self.old.schema) row.now }
        ensures { Inserts (numbered self.old.next row.now) self.old self.new result }
    {
        if self.has_failed() {
            return Err(TreeFault::Failed);
        }
        if self.next == NEXT_END {
            return Err(TreeFault::Full);
        }
        let row = Row {
            number: self.next,
            ..*row
        };
        self.insert_numbered(&row)
    }

    /// Puts a row in with its own number, which no row of the tree may have, and gives that; the next number is later than it from
    /// then on. With it the tree must have fewer rows than that number, as each has that has no number twice.
    ///
    /// Full comes where another region is needed, and the index has 16 levels each page of which on the way there is full. All other
    /// refusals are those of `insert`.
    pub fn insert_numbered(&mut self, row: &Row) -> Result<u32, TreeFault>
        requires row { IsRow self.old.schema.dims (measures_of self.old.schema) row.now }
        requires fewer { self.old.rows + 1 < spec.next_after self.old.next row.now.number }
        ensures { InsertsAs row.now self.old self.new result }
    {
        if self.is_failed {
            return Err(TreeFault::Failed);
        }
        let mut room = take_room(&mut self.room, self.alloc, self.schema.shape())?;
        let inserted = self.insert_within(row, &mut room);
        self.room = Some(room);
        inserted
    }

    // The same of a tree that works, in this room.
    fn insert_within(&mut self, row: &Row, room: &mut Room) -> Result<u32, TreeFault>
        requires row { IsRow self.old.schema.dims (measures_of self.old.schema) row.now }
        requires fewer { self.old.rows + 1 < spec.next_after self.old.next row.now.number }
        requires able { self.old.is_failed ≡ false }
        ensures { InsertsAs row.now self.old self.new result }
    {
        let key = row.key(self.schema.shape());
        let region = self.read_holding(&key, &mut room.region)?;
        let Some(index) = room.region.place_of(row) else {
            return Err(TreeFault::Page {
                page: region.page,
                fault: PageFault::BadOrder,
            });
        };
        self.store_with(&region, index, row, room)?;
        self.next = self.next.max(row.number + 1);
        self.rows += 1;
        Ok(row.number)
    }
}
