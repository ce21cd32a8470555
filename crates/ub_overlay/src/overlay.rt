ghost use Rattle.std.specs.Prelude.{◌≡◌, ◌≢◌, ◌<◌, ◌≤◌, ◌+◌, ◌↔◌, ◌⊎◌, [], ℕ, List, Some, IfOk, IfErr, OnOk, OnErr, IsErrOf, IsOk, IsTrue, slice_get};
ghost use Rattle.ub_store.specs.Facts.{counted, page_count, zero_page, IsPage, Reads, WritesAt, Extends, Syncs};
ghost use Rattle.ub_journal.specs.Image.{applied, told, ChangesOthers, IsComplete, IsJournal};
ghost use Rattle.ub_overlay.specs.Changes.{change, put_change, put_each};
ghost use Rattle.ub_overlay.specs.Journal.{journal_from, IsJournalOf};
ghost use Rattle.ub_overlay.specs.Overlay.{overlay_facts, overlay_view, pages_of, with_change, IsHeld};

use crate::below::Below;
use crate::changes::Changes;
use crate::redo::Changed;
use std::alloc::{AllocError, Global};
use std::marker::Model;
use ub_journal::Journal;
use ub_store::{MAX_PAGES, Page, PageStore, Rejected, StoreFault};

/// A store whose pages are those of another one, but for the pages that were written or added since. These are kept in memory, and
/// the store below is only read.
#[derive(Drop)]
pub struct Overlay<S: PageStore> {
    below: Below<S>,
    changes: Changes,
    count: u32,
    failed: u64,
}

impl<S: PageStore> Model for Overlay<S> {
    ghost use Rattle.ub_overlay.specs.Overlay.{overlay_view, OverlayView, IsOverlay};

    ghost Value = { OverlayView S };

    ghost view = { λ o. overlay_view o.below (S.facts o.below) o.changes o.count o.failed };

    ghost invariant = { λ o. IsOverlay (overlay_view o.below (S.facts o.below) o.changes o.count o.failed) };
}

/// What an overlay was made of, and what became of it.
#[derive(Drop)]
pub struct Parts<S> {
    /// The store below, as it was.
    pub below: S,
    /// The pages that were written or added, or that a journal held.
    pub changed: Changed,
}

impl<S: PageStore> Overlay<S> {
    /// The pages of this store, with none changed. It takes no memory, and the store is as it was.
    pub fn new(alloc: Global, below: S) -> Overlay<S>
        ensures view { result
            ≡ overlay_view below (S.facts below) [] (page_count (S.facts below)) 0 }
        ensures pages { pages_of result ≡ (S.facts below).pages }
    {
        let below = Below::new(below);
        let count = below.pages();
        Overlay {
            below,
            changes: Changes::new(alloc),
            count,
            failed: 0,
        }
    }

    /// The pages that a journal stands for, where it is one of this store's pages: it is read as if its changes were put there already.
    /// They are held as changes of the overlay, and the store is as it was. Memory may be refused for them; it is then handed back.
    pub fn through(
        alloc: Global,
        below: S,
        journal: &Journal,
    ) -> Result<Overlay<S>, Rejected<S, AllocError>>
        requires some { 0 < journal.now.count }
        requires others { ChangesOthers (told journal.now) }
        requires complete { IsComplete (told journal.now) (S.facts below).pages }
        ensures pages { IfOk result (λ overlay.
            pages_of overlay ≡ applied (told journal.now) (S.facts below).pages) }
        ensures count { IfOk result (λ overlay. overlay.count ≡ journal.now.count) }
        ensures store { IfOk result (λ overlay. overlay.store ≡ below) }
        ensures below { IfOk result (λ overlay. overlay.below ≡ S.facts below) }
        ensures held { IfOk result (λ overlay. overlay.changes
            ≡ put_change (change 0 journal.now.head)
            (put_each journal.now.changes.items [])) }
        ensures fresh { IfOk result (λ overlay. overlay.failed ≡ 0) }
        ensures refused { IfErr result (λ refused. refused.store ≡ below) }
    {
        let mut changes = Changes::new(alloc);
        match changes.put_journal(journal) {
            Ok(()) => Ok(Overlay {
                below: Below::new(below),
                changes,
                count: journal.count,
                failed: 0,
            }),
            Err(fault) => Err(Rejected {
                store: below,
                fault,
            }),
        }
    }

    /// Whether a page was written or added, or a journal's pages are held.
    pub fn is_changed(&self) -> bool
        ensures changed { IsTrue result ↔ (self.now.changes ≢ []) }
        ensures facts { self.now.below ≡ S.facts self.now.store }
    {
        !self.changes.is_empty()
    }

    /// The store below, as it was. What was changed is gone.
    pub fn into_store(self) -> S
        ensures store { result ≡ self.store }
        ensures facts { S.facts result ≡ self.below }
    {
        self.below.into_store()
    }

    /// The store below, as it was, and the changed pages. With the first page below these tell the journal that makes the overlay's
    /// pages of those below, which a commit can put. No page is copied. Where memory for the list of them is refused, the store below
    /// alone is handed back.
    pub fn into_parts(self) -> Result<Parts<S>, Rejected<S, AllocError>>
        ensures below { IfOk result (λ parts. parts.below ≡ self.store) }
        ensures facts { self.below ≡ S.facts self.store }
        ensures journal { IfOk result (λ parts. (before : List ℕ)
            → slice_get self.below.pages 0 ≡ Some before
            → IsJournalOf self (journal_from before parts.changed)) }
        ensures is_journal { IfOk result (λ parts. (before : List ℕ) → 0 < self.count
            → IsJournal (journal_from before parts.changed)) }
        ensures refused { IfErr result (λ refused. refused.store ≡ self.store) }
    {
        let Overlay {
            below,
            changes,
            count,
            failed: _,
        } = self;
        let below = below.into_store();
        match Changed::of(changes, count) {
            Ok(changed) => Ok(Parts { below, changed }),
            Err(fault) => Err(Rejected {
                store: below,
                fault,
            }),
        }
    }
}

impl<S: PageStore> Overlay<S> {
    // Whether one of these pages is held.
    fn holds_any(&self, n: u32, count: u32) -> bool {
        for behind in 0..count {
            if self.changes.get(n.saturating_add(behind)).is_some() {
                return true;
            }
        }
        false
    }
}

impl<S: PageStore> PageStore for Overlay<S> {
    ghost use Rattle.ub_overlay.specs.Overlay.{overlay_facts};

    ghost facts = { overlay_facts };

    ghost reads_need_memory = { S.reads_need_memory };

    fn pages(&self) -> u32
        ensures count { result ≡ self.now.count }
        ensures pages { result ≡ page_count (overlay_facts self.now) }
    {
        self.count
    }

    /// Reads the page of this number into the one that is lent: the page that is held, or else the one of the store below, by one read
    /// there. NoPage comes exactly where there is none.
    fn read_into(&mut self, n: u32, page: &mut Page) -> Result<(), StoreFault>
        ensures held { IsHeld self.old n → IsOk result × (self.new ≡ self.old) }
        ensures below { self.new
            ≡ record self.old { store = self.new.store; below = self.new.below } }
        ensures read { Reads self.old.below self.new.below result }
        ensures page { OnOk result (IsPage (overlay_facts self.old) n page.new) }
        ensures there { OnOk result (n < page_count (overlay_facts self.old)) }
        ensures missing { IsErrOf result StoreFault.NoPage
            ↔ (page_count (overlay_facts self.old) ≤ n) }
        ensures memory { IsErrOf result StoreFault.Memory → IsTrue S.reads_need_memory }
        ensures no_size { ¬ (IsErrOf result StoreFault.BadSize) }
        ensures effect { Reads (overlay_facts self.old) (overlay_facts self.new) result }
    {
        if n >= self.count {
            return Err(StoreFault::NoPage);
        }
        if let Some(held) = self.changes.get(n) {
            *page = *held;
            return Ok(());
        }
        self.below.read_into(n, page)
    }

    /// The page of this number, as `read_into` reads it.
    fn read_page(&mut self, n: u32) -> Result<Page, StoreFault>
        ensures held { IsHeld self.old n → IsOk result × (self.new ≡ self.old) }
        ensures below { self.new
            ≡ record self.old { store = self.new.store; below = self.new.below } }
        ensures read { Reads self.old.below self.new.below result }
        ensures page { IfOk result (λ page. IsPage (overlay_facts self.old) n page) }
        ensures there { OnOk result (n < page_count (overlay_facts self.old)) }
        ensures missing { IsErrOf result StoreFault.NoPage
            ↔ (page_count (overlay_facts self.old) ≤ n) }
        ensures memory { IsErrOf result StoreFault.Memory → IsTrue S.reads_need_memory }
        ensures no_size { ¬ (IsErrOf result StoreFault.BadSize) }
        ensures effect { Reads (overlay_facts self.old) (overlay_facts self.new) result }
    {
        let mut page = [0; 4096];
        self.read_into(n, &mut page)?;
        Ok(page)
    }

    /// Tells the store below, where none of these pages is held.
    fn announce(&mut self, n: u32, count: u32)
        ensures below { self.new
            ≡ record self.old { store = self.new.store; below = self.old.below } }
        ensures facts { overlay_facts self.new ≡ overlay_facts self.old }
    {
        if !self.holds_any(n, count) {
            self.below.announce(n, count);
        }
    }

    /// Holds this page in the place of that of this number. NoPage comes exactly where there is none. Device comes where memory was
    /// refused for a page that wasn't held yet, and is one failure more. After a fault all pages are as they were.
    fn write_page(&mut self, n: u32, page: &Page) -> Result<(), StoreFault>
        ensures written { OnOk result (self.new ≡ with_change (change n page.now) self.old) }
        ensures failed { OnErr result
            (self.new ≡ record self.old { failed = counted result self.old.failed }) }
        ensures held { IsErrOf result StoreFault.Device → ¬ (IsHeld self.old n) }
        ensures there { OnOk result (n < page_count (overlay_facts self.old)) }
        ensures missing { IsErrOf result StoreFault.NoPage
            ↔ (page_count (overlay_facts self.old) ≤ n) }
        ensures faults { IfErr result (λ fault.
            (fault ≡ StoreFault.Device) ⊎ (fault ≡ StoreFault.NoPage)) }
        ensures effect { WritesAt n page.now (overlay_facts self.old)
            (overlay_facts self.new) result }
    {
        if n >= self.count {
            return Err(StoreFault::NoPage);
        }
        if self.changes.put(n, page).is_err() {
            self.failed = self.failed.saturating_add(1);
            return Err(StoreFault::Device);
        }
        Ok(())
    }

    /// Adds a page of zeros, which is held, and gives its number. BadSize comes exactly where there are 4294967295 pages, Memory where
    /// memory was refused. After a fault nothing has changed.
    fn extend(&mut self) -> Result<u32, StoreFault>
        ensures added { OnOk result (self.new ≡ record
            (with_change (change self.old.count zero_page) self.old)
            { count = self.old.count + 1 }) }
        ensures failed { OnErr result (self.new ≡ self.old) }
        ensures number { IfOk result (λ n. n ≡ page_count (overlay_facts self.old)) }
        ensures room { OnOk result (page_count (overlay_facts self.old) < MAX_PAGES) }
        ensures full { IsErrOf result StoreFault.BadSize
            ↔ (page_count (overlay_facts self.old) ≡ MAX_PAGES) }
        ensures faults { IfErr result (λ fault.
            (fault ≡ StoreFault.Memory) ⊎ (fault ≡ StoreFault.BadSize)) }
        ensures effect { Extends (overlay_facts self.old) (overlay_facts self.new) result }
    {
        let n = self.count;
        if n == MAX_PAGES {
            return Err(StoreFault::BadSize);
        }
        if self.changes.put(n, &[0; 4096]).is_err() {
            return Err(StoreFault::Memory);
        }
        self.count = n + 1;
        Ok(n)
    }

    /// Does nothing, and no fault comes: what is held lasts as long as memory does.
    fn sync(&mut self) -> Result<(), StoreFault>
        ensures done { IsOk result }
        ensures kept { self.new ≡ self.old }
    {
        Ok(())
    }
}
