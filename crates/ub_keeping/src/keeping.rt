ghost use Rattle.std.specs.Prelude.{◌≡◌, ◌≢◌, ℕ, List, [], Ok, None, IfErr, OnOk, OnErr, length};
ghost use Rattle.ub_journal.specs.Image.{IsJournal, applied, first_page};
ghost use Rattle.ub_journal.specs.Place.{AtAnyMoment, Counts, IsHonest};
ghost use Rattle.ub_keeping.specs.Calm.{IsCalm, Raises};
ghost use Rattle.ub_keeping.specs.Kept.{IsKept, MayKeep};
ghost use Rattle.ub_keeping.specs.inner.Made.{HasPage, IsMadeOf};
ghost use Rattle.ub_overlay.specs.Journal.{journal_from};
ghost use Rattle.ub_overlay.specs.Overlay.{pages_of};

use crate::store::PlaceStore;
use std::alloc::Global;
use ub_journal::{Failed, Place, Tells, commit, make_last};
use ub_overlay::{Changed, Overlay, Redo};
use ub_store::{PageStore, StoreFault};

/// Keeps what was changed of a store that `change` handed out: all of it or nothing, by a journal. The place is handed back. Where
/// nothing was changed nothing is done. At Ok the pages are those of the table; where some were changed they last, and no journal is
/// there. A crash at any moment leaves what it might have left before, or what stands for the table as it was, or for the store's
/// pages. Device comes where the place failed in this call, once, which ends it; and, with nothing done, where memory was refused, a
/// journal stands beside the table, or the place doesn't hold the pages that the store was opened with.
pub fn keep<P: Place>(alloc: Global, store: Overlay<PlaceStore<P>>) -> (P, Result<(), StoreFault>)
    ensures unchanged { store.changes ≡ [] → result.0 ≡ store.store.place }
    ensures held { OnOk result.1 (IsHonest (P.facts store.store.place)
        → ((P.facts result.0).seen.table ≡ pages_of store)
        × ((P.facts result.0).seen.rest ≡ 0)) }
    ensures done { OnOk result.1 (store.changes ≢ [] → IsHonest (P.facts store.store.place)
        → IsKept (pages_of store) (P.facts result.0)) }
    ensures any_moment { AtAnyMoment (MayKeep (pages_of store) (P.facts store.store.place))
        (P.facts store.store.place) (P.facts result.0) }
    ensures either { OnErr result.1 (IsHonest (P.facts store.store.place)
        → MayKeep (pages_of store) (P.facts store.store.place) (P.facts result.0).seen) }
    ensures faults { IfErr result.1 (λ fault. fault ≡ StoreFault.Device) }
    ensures honest { (P.facts result.0).honest ≡ (P.facts store.store.place).honest }
    ensures cause { Raises result.1 (P.facts store.store.place).failures
        (P.facts result.0).failures }
{
    let count = store.pages();
    if !store.is_changed() {
        let place = store.into_store().into_place();
        let kept = see_whole(&place, count);
        return (place, kept);
    }
    if count == 0 {
        return (store.into_store().into_place(), Err(StoreFault::Device));
    }
    match store.into_parts() {
        Ok(parts) => {
            let mut place = parts.below.into_place();
            let kept = put(alloc, &mut place, parts.changed);
            (place, kept)
        }
        Err(refused) => (refused.store.into_place(), Err(StoreFault::Device)),
    }
}

// Looks that the table has so many pages, with no bytes after them.
fn see_whole<P: Place>(place: &P, count: u32) -> Result<(), StoreFault>
    ensures whole { OnOk result ((count ≡ length (P.facts place.now).seen.table)
        × ((P.facts place.now).seen.rest ≡ 0)) }
    ensures faults { IfErr result (λ fault. fault ≡ StoreFault.Device) }
{
    if place.pages() != u64::from(count) || place.rest() != 0 {
        return Err(StoreFault::Device);
    }
    Ok(())
}

// Keeps these changed pages, where the table has a page.
fn put<P: Place>(alloc: Global, place: &mut P, changed: Changed) -> Result<(), StoreFault>
    requires journal { (before : List ℕ) → IsJournal (journal_from before changed) }
    requires made { HasPage (P.facts place.old) → IsMadeOf
        (journal_from (first_page (P.facts place.old).seen.table) changed)
        (P.facts place.old).seen.table }
    ensures done { (pages : List (List ℕ)) → (HasPage (P.facts place.old) → applied
        (journal_from (first_page (P.facts place.old).seen.table) changed)
        (P.facts place.old).seen.table ≡ pages)
        → OnOk result (IsHonest (P.facts place.old) → IsKept pages (P.facts place.new)) }
    ensures any_moment { (pages : List (List ℕ)) → (HasPage (P.facts place.old) → applied
        (journal_from (first_page (P.facts place.old).seen.table) changed)
        (P.facts place.old).seen.table ≡ pages)
        → AtAnyMoment (MayKeep pages (P.facts place.old))
        (P.facts place.old) (P.facts place.new) }
    ensures faults { IfErr result (λ fault. fault ≡ StoreFault.Device) }
    ensures honest { (P.facts place.new).honest ≡ (P.facts place.old).honest }
    ensures cause { Raises result (P.facts place.old).failures (P.facts place.new).failures }
{
    if place.pages() == 0 {
        return Err(StoreFault::Device);
    }
    see_none(alloc, place)?;
    let mut before = [0; 4096];
    if place.read_page(0, &mut before).is_err() {
        return Err(StoreFault::Device);
    }
    match commit_last(place, &Redo { before, changed }) {
        Ok(()) => Ok(()),
        Err(Failed) => Err(StoreFault::Device),
    }
}

// Looks that no journal is there.
fn see_none<P: Place>(alloc: Global, place: &mut P) -> Result<(), StoreFault>
    ensures none { OnOk result (IsHonest (P.facts place.old)
        → (P.facts place.old).seen.journal ≡ None) }
    ensures faults { IfErr result (λ fault. fault ≡ StoreFault.Device) }
    ensures calm { IsCalm (P.facts place.old) (P.facts place.new) }
    ensures cause { Raises result (P.facts place.old).failures (P.facts place.new).failures }
{
    match place.journal(alloc) {
        Ok(None) => Ok(()),
        Ok(Some(_)) => Err(StoreFault::Device),
        Err(_) => Err(StoreFault::Device),
    }
}

/// Makes last what is seen, and puts the changes that a journal tells, which was made of the table, where no journal is there.
pub fn commit_last<P: Place, J: Tells>(place: &mut P, journal: &J) -> Result<(), Failed>
    requires journal { IsJournal (J.told journal.now) }
    requires made { IsHonest (P.facts place.old)
        → IsMadeOf (J.told journal.now) (P.facts place.old).seen.table }
    requires alone { IsHonest (P.facts place.old)
        → (P.facts place.old).seen.journal ≡ None }
    ensures done { OnOk result (IsHonest (P.facts place.old) → IsKept
        (applied (J.told journal.now) (P.facts place.old).seen.table) (P.facts place.new)) }
    ensures any_moment { AtAnyMoment (MayKeep
        (applied (J.told journal.now) (P.facts place.old).seen.table) (P.facts place.old))
        (P.facts place.old) (P.facts place.new) }
    ensures cause { Counts (P.facts place.old) (P.facts place.new) result }
{
    make_last(place)?;
    commit(place, journal)
}
