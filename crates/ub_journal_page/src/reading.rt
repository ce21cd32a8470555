// The reader of a journal's pages. Nothing is kept before the head is known to be one of as many pages as there are.
ghost use Rattle.std.specs.Prelude.{◌≡◌, ◌≢◌, ◌↔◌, ◌⊎◌, ◌<◌, ◌≤◌, ◌+◌, ◌*◌, ◌^◌, ℕ, List, IsTrue, IfErr, IfOk, IsErrOf, OnOk, length};
ghost use Rattle.ub_journal.specs.Image.{Journal as spec, IsJournal, told};
ghost use Rattle.ub_journal.specs.declared.journal.Change.{Change as change};
ghost use Rattle.ub_journal_page.specs.Pages.{byte_parts, head_of, number_page};
ghost use Rattle.ub_journal_page.specs.Reading.{BearsOut, IsBorneOut, IsHead, Looks, Spells, SpellsNone};
ghost use Rattle.ub_journal_page.specs.inner.Parts.{AreBody, AreSoMany};
ghost use Rattle.ub_store.specs.Facts.{IsHonest, IsPage, page_count};

use crate::numbers::{PACKED, WHOLE, is_same, number_in, spell_head};
use crate::packed::read_packed;
use crate::whole::{read_whole, total};
use std::alloc::Global;
use ub_journal::{Change, Journal, JournalFault, is_journal};
use ub_store::{Page, PageStore, StoreFault};

// What the head of a journal tells.
#[derive(Clone, Copy)]
struct Head {
    // The version.
    version: u32,
    // How many pages the table is to have.
    count: u32,
    // How many of them change besides the first.
    changes: u32,
}

/// The journal that the pages of a store spell, in either version. `Damaged` comes exactly where they spell none, `Device` where a
/// read failed in this call, `Memory` where memory was refused, for what the head tells only where there are as many pages as it
/// tells. Nothing of the store changes but, at `Device`, the count of failed reads. What is read is one that pages can hold,
/// whatever the store.
pub fn read_journal<S: PageStore>(alloc: Global, store: &mut S) -> Result<Journal, JournalFault>
    ensures read { IfOk result (λ j. IsHonest (S.facts store.old)
        → Spells (S.facts store.old).pages (told j)) }
    ensures journal { IfOk result (λ j. IsJournal (told j)) }
    ensures damaged { IsErrOf result JournalFault.Damaged → IsHonest (S.facts store.old)
        → SpellsNone (S.facts store.old).pages }
    ensures memory { IsErrOf result JournalFault.Memory → IsTrue S.reads_need_memory
        ⊎ (IsHonest (S.facts store.old) → IsBorneOut (S.facts store.old).pages) }
    ensures effect { Looks (S.facts store.old) (S.facts store.new) result }
{
    let head = read_head(store)?;
    let mut before = [0; 4096];
    read_page(store, 1, &mut before)?;
    let mut first = [0; 4096];
    read_page(store, 2, &mut first)?;
    let changes = read_changes(alloc, store, head)?;
    let journal = Journal {
        before,
        head: first,
        count: head.count,
        changes,
    };
    if !is_journal(&journal) {
        return Err(JournalFault::Damaged);
    }
    Ok(journal)
}

/// Reads the page of this number, which there is.
pub fn read_page<S: PageStore>(store: &mut S, n: u32, page: &mut Page) -> Result<(), JournalFault>
    requires there { n < page_count (S.facts store.old) }
    ensures page { OnOk result (IsPage (S.facts store.old) n page.new) }
    ensures long { length page.new ≡ 4096 }
    ensures damaged { ¬ (IsErrOf result JournalFault.Damaged) }
    ensures memory { IsErrOf result JournalFault.Memory → IsTrue S.reads_need_memory }
    ensures effect { Looks (S.facts store.old) (S.facts store.new) result }
{
    match store.read_into(n, page) {
        Ok(()) => Ok(()),
        Err(StoreFault::Device) => Err(JournalFault::Device),
        Err(_) => Err(JournalFault::Memory),
    }
}

// The head that the first page spells, where there are as many pages as it tells.
fn read_head<S: PageStore>(store: &mut S) -> Result<Head, JournalFault>
    ensures head { IfOk result (λ h. IsHonest (S.facts store.old)
        → IsHead h.version h.count h.changes (S.facts store.old).pages) }
    ensures there { IfOk result (λ h.
        BearsOut (page_count (S.facts store.old)) h.version h.changes) }
    ensures few { IfOk result (λ h. h.changes < 2 ^ 32) }
    ensures pages { page_count (S.facts store.old) < 2 ^ 32 }
    ensures damaged { IsErrOf result JournalFault.Damaged → IsHonest (S.facts store.old)
        → SpellsNone (S.facts store.old).pages }
    ensures memory { IsErrOf result JournalFault.Memory → IsTrue S.reads_need_memory }
    ensures effect { Looks (S.facts store.old) (S.facts store.new) result }
{
    let pages = store.pages();
    if pages == 0 {
        return Err(JournalFault::Damaged);
    }
    let mut page = [0; 4096];
    read_page(store, 0, &mut page)?;
    head_on(&page, pages)
}

// The head that a page spells, where there are so many pages.
fn head_on(page: &Page, pages: u32) -> Result<Head, JournalFault>
    ensures head { IfOk result (λ h. (1 ≤ h.count) × (h.count < 2 ^ 32)
        × (h.changes < 2 ^ 32) × BearsOut pages h.version h.changes
        × (page.now ≡ number_page (head_of h.version h.count h.changes))) }
    ensures fault { IfErr result (λ e. e ≡ JournalFault.Damaged) }
    ensures damaged { IsErrOf result JournalFault.Damaged → (version count changes : ℕ) → 1 ≤ count
        → count < 2 ^ 32 → changes < 2 ^ 32 → BearsOut pages version changes
        → page.now ≢ number_page (head_of version count changes) }
{
    let head = Head {
        version: number_in(page, 1),
        count: number_in(page, 2),
        changes: number_in(page, 3),
    };
    let mut spelled = [0; 4096];
    spell_head(head.version, head.count, head.changes, &mut spelled);
    if head.count == 0
        || !bears_out(pages, head.version, head.changes)
        || !is_same(&spelled, page)
    {
        return Err(JournalFault::Damaged);
    }
    Ok(head)
}

// Whether so many pages bear out a head of this version with so many changes.
fn bears_out(pages: u32, version: u32, changes: u32) -> bool
    ensures { IsTrue result ↔ BearsOut pages version changes }
{
    match version {
        WHOLE => u64::from(pages) == total(changes),
        PACKED => 3 + (8 * u64::from(changes) + 4095) / 4096 <= u64::from(pages),
        _ => false,
    }
}

// The changes that the pages behind the first three spell, in the version of the head.
fn read_changes<S: PageStore>(
    alloc: Global,
    store: &mut S,
    head: Head,
) -> Result<Vec<Change>, JournalFault>
    requires there { BearsOut (page_count (S.facts store.old)) head.version head.changes }
    requires few { page_count (S.facts store.old) < 2 ^ 32 }
    ensures count { IfOk result (λ cs. length cs.items ≡ head.changes) }
    ensures read { IfOk result (λ cs. IsHonest (S.facts store.old)
        → AreBody head.version (S.facts store.old).pages cs.items) }
    ensures exact { IfOk result (λ cs. IsHonest (S.facts store.old)
        → (ds : List change) → AreSoMany head.changes ds
        → AreBody head.version (S.facts store.old).pages ds → cs.items ≡ ds) }
    ensures damaged { IsErrOf result JournalFault.Damaged → IsHonest (S.facts store.old)
        → (ds : List change) → AreSoMany head.changes ds
        → ¬ (AreBody head.version (S.facts store.old).pages ds) }
    ensures effect { Looks (S.facts store.old) (S.facts store.new) result }
{
    if head.version == WHOLE {
        return read_whole(alloc, store, head.changes);
    }
    read_packed(alloc, store, head.changes)
}
