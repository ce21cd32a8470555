ghost use Rattle.std.specs.Prelude.{◌≡◌, ◌≢◌, ◌≤◌, ◌⊎◌, ℕ, List, length, IfOk, IfErr, IsErrOf, OnOk, OnErr};
ghost use Rattle.ub_files.specs.Files.{untold, HasPages, IsTorn};
ghost use Rattle.ub_journal.specs.Place.{IsHonest};
ghost use Rattle.ub_memory_files.specs.Memory.{held_in, told, HoldsAll, KeepsOthers};
ghost use Rattle.ub_memory_files.specs.Tables.{IsLentOf, IsSeenAs};

use crate::entries::{Entry, MemFile, exchange, is_left, put, table_at};
use std::alloc::{AllocError, Global};
use ub_files::OpenFault;
use ub_journal::{Place, TornPlace};
use ub_keeping::{PlaceStore, ask, change, keep, make};
use ub_overlay::Overlay;
use ub_store::{MAX_PAGES, PageStore, Pages, StoreFault};

/// A store of the pages of a table file in memory. What is written to it stays in it until it is kept.
pub type MemTable = Overlay<PlaceStore<TornPlace>>;

// The place of the table file at this path, as another process would find it: its k-th call is due to fail, or none where k is 0. Device
// comes where there is none, or none that can be handed out: one that isn't honest, or has more pages than a store.
fn hand_out(alloc: Global, entries: &[Entry], path: &str, k: u64) -> Result<TornPlace, StoreFault>
    ensures honest { IfOk result (λ place. IsHonest (⟦<TornPlace as Place>⟧.facts place)) }
    ensures seen { IfOk result (λ place.
        IsSeenAs (held_in entries.now path.now) (⟦<TornPlace as Place>⟧.facts place).seen) }
    ensures few { IfOk result (λ place.
        length (⟦<TornPlace as Place>⟧.facts place).seen.table ≤ MAX_PAGES) }
    ensures faults { IfErr result (λ fault.
        (fault ≡ StoreFault.Device) ⊎ (fault ≡ StoreFault.Memory)) }
{
    let place = table_at(entries, path).ok_or(StoreFault::Device)?;
    if !place.is_honest() || place.pages() > u64::from(MAX_PAGES) {
        return Err(StoreFault::Device);
    }
    let Ok(mut copy) = place.restarted(alloc) else {
        return Err(StoreFault::Memory);
    };
    copy.fail_at(k);
    Ok(copy)
}

/// A store of the pages of the table file at this path, to ask it.
pub fn open_at(alloc: Global, entries: &[Entry], path: &str, k: u64) -> Result<MemTable, StoreFault>
    ensures lent { IfOk result (λ store. IsLentOf (held_in entries.now path.now)
        (⟦<MemTable as PageStore>⟧.facts store)) }
    ensures torn { IsErrOf result StoreFault.BadSize → IsTorn (held_in entries.now path.now) }
    ensures faults { IfErr result (λ fault. (fault ≡ StoreFault.Device)
        ⊎ ((fault ≡ StoreFault.BadSize) ⊎ (fault ≡ StoreFault.Memory))) }
{
    let place = hand_out(alloc, entries, path, k)?;
    match ask(alloc, place) {
        Ok(store) => Ok(store),
        Err(rejected) => Err(rejected.fault),
    }
}

/// A store of the pages of the table file at this path, to change it: what a call that failed has left beside it is finished first.
pub fn change_at(
    alloc: Global,
    entries: &mut [Entry],
    path: &str,
    k: u64,
) -> Result<MemTable, OpenFault>
    ensures lent { IfOk result (λ store. IsLentOf (held_in entries.old path.now)
        (⟦<MemTable as PageStore>⟧.facts store)) }
    ensures torn { IsErrOf result (OpenFault.Store StoreFault.BadSize)
        → IsTorn (held_in entries.old path.now) }
    ensures faults { IfErr result (λ fault. (fault ≡ OpenFault.BadJournal)
        ⊎ ((fault ≡ OpenFault.Store StoreFault.Device)
        ⊎ ((fault ≡ OpenFault.Store StoreFault.BadSize)
        ⊎ (fault ≡ OpenFault.Store StoreFault.Memory)))) }
    ensures kept { HoldsAll entries.old entries.new }
{
    let place = match hand_out(alloc, entries, path, k) {
        Ok(place) => place,
        Err(fault) => return Err(OpenFault::Store(fault)),
    };
    match change(alloc, place) {
        Ok(store) => leave_healed(alloc, entries, path, store),
        Err(rejected) => {
            leave(entries, path, rejected.store);
            Err(rejected.fault)
        }
    }
}

// Leaves what is seen at the place of this store, whose journal was finished, to the table file at this path, where nothing is told of
// that; else nothing changes.
fn leave_healed(
    alloc: Global,
    entries: &mut [Entry],
    path: &str,
    store: MemTable,
) -> Result<MemTable, OpenFault>
    requires lent { IsLentOf (held_in entries.old path.now)
        (⟦<MemTable as PageStore>⟧.facts store) }
    ensures lent { IfOk result (λ store. IsLentOf (held_in entries.old path.now)
        (⟦<MemTable as PageStore>⟧.facts store)) }
    ensures torn { OnErr result (held_in entries.old path.now ≡ untold) }
    ensures faults { IfErr result (λ fault. (fault ≡ OpenFault.Store StoreFault.BadSize)
        ⊎ (fault ≡ OpenFault.Store StoreFault.Memory)) }
    ensures kept { HoldsAll entries.old entries.new }
{
    if !is_left(entries, path) {
        return Ok(store);
    }
    let place = store.into_store().into_place();
    let Ok(copy) = place.restarted(alloc) else {
        leave(entries, path, place);
        return Err(OpenFault::Store(StoreFault::Memory));
    };
    leave(entries, path, copy);
    match PlaceStore::open(alloc, place) {
        Ok(store) => Ok(Overlay::new(alloc, store)),
        Err(_) => Err(OpenFault::Store(StoreFault::BadSize)),
    }
}

// Leaves what is seen at a place to the table file at this path, where nothing is told of that; else nothing changes.
fn leave(entries: &mut [Entry], path: &str, place: TornPlace)
    ensures { HoldsAll entries.old entries.new }
{
    if is_left(entries, path) {
        let _ = exchange(entries, path, MemFile::Left(place));
    }
}

/// Puts the pages of a store into the table file at this path.
pub fn keep_at(
    alloc: Global,
    entries: &mut Vec<Entry>,
    path: &str,
    store: MemTable,
) -> Result<(), StoreFault>
    ensures faults { IfErr result (λ fault. fault ≡ StoreFault.Device) }
    ensures others { KeepsOthers path.now entries.old.items entries.new.items }
    ensures kept { OnOk result (HasPages (held_in entries.new.items path.now)
        (⟦<MemTable as PageStore>⟧.facts store).pages) }
    ensures either { OnErr result
        ((held_in entries.new.items path.now ≡ held_in entries.old.items path.now)
        ⊎ (held_in entries.new.items path.now ≡ untold)) }
{
    let (place, kept) = keep(alloc, store);
    match kept {
        Ok(()) => put_made(alloc, entries, path, place),
        Err(fault) => {
            put_failed(alloc, entries, path, place);
            Err(fault)
        }
    }
}

/// Makes a table file of these pages, in the place of what is at this path.
pub fn make_at<P: Pages>(
    alloc: Global,
    entries: &mut Vec<Entry>,
    path: &str,
    pages: &P,
    k: u64,
) -> Result<(), OpenFault>
    requires some { 1 ≤ length (P.pages pages.now) }
    ensures faults { IfErr result (λ fault. (fault ≡ OpenFault.BadJournal)
        ⊎ ((fault ≡ OpenFault.Store StoreFault.Device)
        ⊎ (fault ≡ OpenFault.Store StoreFault.Memory))) }
    ensures others { KeepsOthers path.now entries.old.items entries.new.items }
    ensures made { OnOk result
        (HasPages (held_in entries.new.items path.now) (P.pages pages.now)) }
    ensures either { OnErr result
        ((held_in entries.new.items path.now ≡ held_in entries.old.items path.now)
        ⊎ (held_in entries.new.items path.now ≡ untold)) }
{
    let place = match place_to_make(alloc, entries.as_slice(), path, k) {
        Ok(place) => place,
        Err(fault) => return Err(OpenFault::Store(fault)),
    };
    let (place, made) = make(alloc, place, pages);
    match made {
        Ok(()) => put_made(alloc, entries, path, place).map_err(OpenFault::Store),
        Err(fault) => {
            put_failed(alloc, entries, path, place);
            Err(fault)
        }
    }
}

// The place of the table file at this path, or one with no pages where there is none.
fn place_to_make(
    alloc: Global,
    entries: &[Entry],
    path: &str,
    k: u64,
) -> Result<TornPlace, StoreFault>
    ensures honest { IfOk result (λ place. IsHonest (⟦<TornPlace as Place>⟧.facts place)) }
    ensures faults { IfErr result (λ fault.
        (fault ≡ StoreFault.Device) ⊎ (fault ≡ StoreFault.Memory)) }
{
    if table_at(entries, path).is_some() {
        return hand_out(alloc, entries, path, k);
    }
    let mut place = TornPlace::new(alloc, Vec::new(alloc), 0, None, true);
    place.fail_at(k);
    Ok(place)
}

// What is told of a table file that has been kept or made at this place: where it is seen to be whole, its pages.
fn made_of(place: TornPlace) -> MemFile
    ensures { (all : List (List ℕ))
        → (IsHonest (⟦<TornPlace as Place>⟧.facts place)
        → (⟦<TornPlace as Place>⟧.facts place).seen.table ≡ all)
        → HasPages (told result) all }
{
    if place.is_honest() && place.rest() == 0 {
        return MemFile::Table(place);
    }
    MemFile::Left(place)
}

// Puts what was kept or made at this path. Device comes where memory for its name is refused.
fn put_made(
    alloc: Global,
    entries: &mut Vec<Entry>,
    path: &str,
    place: TornPlace,
) -> Result<(), StoreFault>
    ensures faults { IfErr result (λ fault. fault ≡ StoreFault.Device) }
    ensures others { KeepsOthers path.now entries.old.items entries.new.items }
    ensures made { OnOk result ((all : List (List ℕ))
        → (IsHonest (⟦<TornPlace as Place>⟧.facts place)
        → (⟦<TornPlace as Place>⟧.facts place).seen.table ≡ all)
        → HasPages (held_in entries.new.items path.now) all) }
    ensures kept { OnErr result (entries.new.items ≡ entries.old.items) }
{
    put(alloc, entries, path, made_of(place)).map_err(|_| StoreFault::Device)
}

// Puts what a call that failed has left at this path, unless that is what is seen there already.
fn put_failed(alloc: Global, entries: &mut Vec<Entry>, path: &str, mut place: TornPlace)
    ensures others { KeepsOthers path.now entries.old.items entries.new.items }
    ensures either { (held_in entries.new.items path.now ≡ held_in entries.old.items path.now)
        ⊎ (held_in entries.new.items path.now ≡ untold) }
{
    if let Some(held) = table_at(entries.as_slice(), path) {
        if is_as_before(alloc, held, &mut place) {
            return;
        }
    }
    let _ = put(alloc, entries, path, MemFile::Left(place));
}

// Whether the same pages are seen at a place as at the one of before, and no journal. Where memory is refused the answer is no.
fn is_as_before(alloc: Global, held: &TornPlace, place: &mut TornPlace) -> bool {
    place.fail_at(0);
    let Ok(None) = place.journal(alloc) else {
        return false;
    };
    let (Ok(before), Ok(now)) = (held.copy_pages(alloc), place.copy_pages(alloc)) else {
        return false;
    };
    held.rest() == place.rest() && before.as_slice() == now.as_slice()
}
