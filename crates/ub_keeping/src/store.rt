ghost use Rattle.std.specs.Prelude.{◌≡◌, ◌<◌, ◌≤◌, ◌⊎◌, ◌↔◌, Some, IfOk, IfErr, OnOk, IsOk, IsErrOf, length, slice_get};
ghost use Rattle.ub_journal.specs.Place.{IsHonest, Shows, counted};
ghost use Rattle.ub_keeping.specs.Store.{HasCount, facts_of_view, place_view};
ghost use Rattle.ub_store.specs.Facts as store;
ghost use Rattle.ub_store.specs.Facts.{Extends, IsPage, Reads, Syncs, WritesAt, page_count};

use crate::ahead::{Ahead, fill};
use std::alloc::Global;
use std::marker::Model;
use ub_journal::{Failed, Place};
use ub_store::{MAX_PAGES, Page, PageStore, StoreFault};

/// The pages of a place's table as a store, which is only read: no call of it changes the place. Where pages that follow one another
/// are announced, several of them are read by one call of the place.
#[derive(Drop)]
pub struct PlaceStore<P: Place> {
    place: P,
    count: u32,
    reads: u64,
    writes: u64,
    ahead: Ahead,
}

impl<P: Place> Model for PlaceStore<P> {
    ghost use Rattle.ub_keeping.specs.Store.{HasCount, PlaceView, place_view};
    ghost use Rattle.ub_keeping.specs.inner.Ahead.{IsAhead};

    ghost Value = { PlaceView P };

    ghost view = { λ s. place_view s.place s.count s.reads s.writes };

    ghost invariant = { λ s. HasCount (P.facts s.place) s.count × IsAhead (P.facts s.place) s.ahead };
}

impl<P: Place> PlaceStore<P> {
    /// The store of the pages of a place's table. The place comes back as it was exactly where there are more than 4294967295 of them.
    pub fn open(alloc: Global, place: P) -> Result<PlaceStore<P>, P>
        ensures size { IsOk result ↔ (length (P.facts place).seen.table ≤ MAX_PAGES) }
        ensures opened { IfOk result (λ store.
            store ≡ place_view place (length (P.facts place).seen.table) 0 0) }
        ensures refused { IfErr result (λ back. back ≡ place) }
    {
        if place.pages() > u64::from(MAX_PAGES) {
            return Err(place);
        }
        let count = place.pages() as u32;
        Ok(PlaceStore::of(alloc, place, count))
    }

    // The store of a place whose table has so many pages.
    pub(crate) fn of(alloc: Global, place: P, count: u32) -> PlaceStore<P>
        requires { HasCount (P.facts place) count }
        ensures { result ≡ place_view place count 0 0 }
    {
        PlaceStore {
            place,
            count,
            reads: 0,
            writes: 0,
            ahead: Ahead::none(alloc),
        }
    }

    /// The place, as it is.
    pub fn into_place(self) -> P
        ensures { result ≡ self.place }
    {
        self.place
    }

    /// The place.
    pub fn place(&self) -> &P
        ensures { result.now ≡ self.now.place }
    {
        &self.place
    }

    // Reads the page of this number, which there is: one that was read ahead, or by one call of the place, with those behind it
    // where they are asked for next.
    fn read_one(&mut self, n: u32, page: &mut Page) -> Result<(), Failed>
        requires there { n < self.old.count }
        ensures page { OnOk result (IsHonest (P.facts self.old.place)
            → slice_get (P.facts self.old.place).seen.table n ≡ Some page.new) }
        ensures honest { (P.facts self.new.place).honest ≡ (P.facts self.old.place).honest }
        ensures seen { Shows (λ i. i) (P.facts self.old.place) (P.facts self.new.place) }
        ensures counts { (P.facts self.new.place).failures
            ≡ counted result (P.facts self.old.place).failures }
        ensures same { self.new ≡ record self.old { place = self.new.place } }
    {
        if self.ahead.copy(n, page) {
            return Ok(());
        }
        let many = self.ahead.many_from(n).min(self.count - n);
        if many < 2 || !self.ahead.make_room() {
            return self.place.read_page(n, page);
        }
        let read = fill(&mut self.place, self.ahead.bytes.as_mut_slice(), n, many)?;
        self.ahead.first = n;
        self.ahead.held = read;
        self.ahead.wanted = n.saturating_add(read);
        self.ahead.copy(n, page);
        Ok(())
    }
}

impl<P: Place> PageStore for PlaceStore<P> {
    ghost use Rattle.std.specs.Prelude.{false};
    ghost use Rattle.ub_keeping.specs.Store.{facts_of_view};

    ghost facts = { facts_of_view P.facts };

    ghost reads_need_memory = { false };

    fn pages(&self) -> u32
        ensures { result ≡ page_count (facts_of_view P.facts self.now) }
    {
        self.count
    }

    /// Reads the page of this number into the one that is lent. NoPage comes exactly where there is none, and nothing of the
    /// store changes then; Device comes where the place failed in this call, just once.
    fn read_into(&mut self, n: u32, page: &mut Page) -> Result<(), StoreFault>
        ensures page { OnOk result (IsPage (facts_of_view P.facts self.old) n page.new) }
        ensures missing { IsErrOf result StoreFault.NoPage
            ↔ (page_count (facts_of_view P.facts self.old) ≤ n) }
        ensures faults { IfErr result (λ fault.
            (fault ≡ StoreFault.Device) ⊎ (fault ≡ StoreFault.NoPage)) }
        ensures kept { page_count (facts_of_view P.facts self.old) ≤ n → self.new ≡ self.old }
        ensures once { (P.facts self.new.place).failures
            ≡ store.counted result (P.facts self.old.place).failures }
        ensures effect { Reads (facts_of_view P.facts self.old)
            (facts_of_view P.facts self.new) result }
    {
        if n >= self.count {
            return Err(StoreFault::NoPage);
        }
        if self.read_one(n, page).is_err() {
            self.reads = self.reads.saturating_add(1);
            return Err(StoreFault::Device);
        }
        Ok(())
    }

    /// The page of this number, as `read_into` reads it.
    fn read_page(&mut self, n: u32) -> Result<Page, StoreFault>
        ensures page { IfOk result (λ page. IsPage (facts_of_view P.facts self.old) n page) }
        ensures missing { IsErrOf result StoreFault.NoPage
            ↔ (page_count (facts_of_view P.facts self.old) ≤ n) }
        ensures faults { IfErr result (λ fault.
            (fault ≡ StoreFault.Device) ⊎ (fault ≡ StoreFault.NoPage)) }
        ensures kept { page_count (facts_of_view P.facts self.old) ≤ n → self.new ≡ self.old }
        ensures effect { Reads (facts_of_view P.facts self.old)
            (facts_of_view P.facts self.new) result }
    {
        let mut page = [0; 4096];
        self.read_into(n, &mut page)?;
        Ok(page)
    }

    /// Has several of these pages be read at once, where the first one is asked for.
    fn announce(&mut self, n: u32, count: u32)
        ensures { self.new ≡ self.old }
    {
        self.ahead.want(n, count);
    }

    /// Writes nothing. NoPage comes where there is no page of this number, and else Device.
    fn write_page(&mut self, n: u32, page: &Page) -> Result<(), StoreFault>
        ensures refused { ¬ (IsOk result) }
        ensures place { self.new.place ≡ self.old.place }
        ensures missing { IsErrOf result StoreFault.NoPage
            ↔ (page_count (facts_of_view P.facts self.old) ≤ n) }
        ensures faults { IfErr result (λ fault.
            (fault ≡ StoreFault.Device) ⊎ (fault ≡ StoreFault.NoPage)) }
        ensures effect { WritesAt n page.now (facts_of_view P.facts self.old)
            (facts_of_view P.facts self.new) result }
    {
        if n >= self.count {
            return Err(StoreFault::NoPage);
        }
        self.writes = self.writes.saturating_add(1);
        Err(StoreFault::Device)
    }

    /// Adds nothing. BadSize comes where there are 4294967295 pages, and else Device.
    fn extend(&mut self) -> Result<u32, StoreFault>
        ensures refused { ¬ (IsOk result) }
        ensures place { self.new.place ≡ self.old.place }
        ensures full { IsErrOf result StoreFault.BadSize
            ↔ (page_count (facts_of_view P.facts self.old) ≡ MAX_PAGES) }
        ensures faults { IfErr result (λ fault.
            (fault ≡ StoreFault.Device) ⊎ (fault ≡ StoreFault.BadSize)) }
        ensures effect { Extends (facts_of_view P.facts self.old)
            (facts_of_view P.facts self.new) result }
    {
        if self.count == MAX_PAGES {
            return Err(StoreFault::BadSize);
        }
        self.writes = self.writes.saturating_add(1);
        Err(StoreFault::Device)
    }

    /// Does nothing, and no fault comes: nothing was written here.
    fn sync(&mut self) -> Result<(), StoreFault>
        ensures done { IsOk result }
        ensures kept { self.new ≡ self.old }
    {
        Ok(())
    }
}
