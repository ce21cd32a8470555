ghost use Rattle.std.specs.Prelude.{◌≡◌, ◌≢◌, ◌⊎◌, [], IfOk, IfErr, IfSome, length};
ghost use Rattle.std.specs.Option.{option_map};
ghost use Rattle.ub_files.specs.Files.{counted, raised_by};
ghost use Rattle.ub_journal.specs.Image.{Finds, IsJournal, told};
ghost use Rattle.ub_journal.specs.Place.{IsHonest};
ghost use Rattle.ub_keeping.specs.inner.Fitting.{LeaveFirst};
ghost use Rattle.ub_keeping.specs.Calm.{IsCalm, IsQuiet};
ghost use Rattle.ub_keeping.specs.Found.{IsItsJournal, IsLookedUp, IsUnsized};
ghost use Rattle.ub_keeping.specs.Store.{HasCount, place_view};
ghost use Rattle.ub_overlay.specs.Overlay.{pages_of};

use crate::fitting::fits;
use crate::store::PlaceStore;
use std::alloc::Global;
use ub_journal::{Failed, Journal, JournalFault, Place};
use ub_overlay::Overlay;
use ub_store::{MAX_PAGES, Rejected, StoreFault};

/// The table that is found at a place, to ask it: read through the journal beside it where that is one of the table, which a stopped
/// run has left; any other journal is passed over. Nothing is written. BadSize comes where bytes stand after the last page of
/// what is found, or there are more than 4294967295 pages, Memory where memory was refused, Device where the place failed in this
/// call. The place is then handed back.
pub fn ask<P: Place>(
    alloc: Global,
    place: P,
) -> Result<Overlay<PlaceStore<P>>, Rejected<P, StoreFault>>
    ensures found { IfOk result (λ overlay. IsHonest (P.facts place)
        → Finds (P.facts place).seen (pages_of overlay) 0) }
    ensures fresh { IfOk result (λ overlay.
        (overlay.failed ≡ 0) × (overlay.below.honest ≡ (P.facts place).honest)) }
    ensures torn { IfErr result (λ refused. refused.fault ≡ StoreFault.BadSize
        → IsHonest (P.facts place) → IsUnsized (P.facts place).seen) }
    ensures faults { IfErr result (λ refused. (refused.fault ≡ StoreFault.Device)
        ⊎ ((refused.fault ≡ StoreFault.BadSize) ⊎ (refused.fault ≡ StoreFault.Memory))) }
    ensures calm { IfOk result (λ overlay.
        IsCalm (P.facts place) (P.facts overlay.store.place)) }
    ensures quiet { IfErr result (λ refused.
        IsQuiet (P.facts place) (P.facts refused.store)) }
    ensures cause { IfOk result (λ overlay.
        (P.facts overlay.store.place).failures ≡ (P.facts place).failures) }
    ensures cause_refused { IfErr result (λ refused. (P.facts refused.store).failures
        ≡ raised_by refused.fault (P.facts place).failures) }
{
    let mut place = place;
    let pages = place.pages();
    if pages > u64::from(MAX_PAGES) {
        return Err(Rejected {
            store: place,
            fault: StoreFault::BadSize,
        });
    }
    match look(alloc, &mut place, pages) {
        Ok(Some(journal)) => read_through(alloc, place, pages as u32, &journal),
        Ok(None) => read_alone(alloc, place, pages as u32),
        Err(fault) => Err(Rejected {
            store: place,
            fault,
        }),
    }
}

// The journal that is one of the table that is seen, which has so many pages, if such a journal is seen.
fn look<P: Place>(alloc: Global, place: &mut P, pages: u64) -> Result<Option<Journal>, StoreFault>
    requires { IsHonest (P.facts place.old) → pages ≡ length (P.facts place.old).seen.table }
    ensures found { IfOk result (λ found. IsHonest (P.facts place.old)
        → IsLookedUp (P.facts place.old).seen (option_map told found)) }
    ensures journal { IfOk result (λ found. IfSome found (λ j. IsJournal (told j))) }
    ensures complete { IfOk result (λ found. IfSome found (λ j.
        LeaveFirst pages j.count j.changes.items)) }
    ensures faults { IfErr result (λ fault.
        (fault ≡ StoreFault.Device) ⊎ (fault ≡ StoreFault.Memory)) }
    ensures calm { IsCalm (P.facts place.old) (P.facts place.new) }
    ensures cause { (P.facts place.new).failures
        ≡ counted result (P.facts place.old).failures }
{
    match place.journal(alloc) {
        Ok(Some(journal)) => match fits(place, pages, &journal) {
            Ok(true) => Ok(Some(journal)),
            Ok(false) => Ok(None),
            Err(Failed) => Err(StoreFault::Device),
        },
        Ok(None) => Ok(None),
        Err(JournalFault::Damaged) => Ok(None),
        Err(JournalFault::Memory) => Err(StoreFault::Memory),
        Err(JournalFault::Device) => Err(StoreFault::Device),
    }
}

// The table through its journal, which is made to last first, so that what is told isn't taken back.
// Never compiled into its caller, whose frame would hold pages also where no journal stands.
#[inline(never)]
fn read_through<P: Place>(
    alloc: Global,
    place: P,
    count: u32,
    journal: &Journal,
) -> Result<Overlay<PlaceStore<P>>, Rejected<P, StoreFault>>
    requires count { HasCount (P.facts place) count }
    requires journal { IsJournal (told journal.now) }
    requires complete { LeaveFirst count journal.now.count journal.now.changes.items }
    requires seen { IsHonest (P.facts place)
        → IsItsJournal (P.facts place).seen (told journal.now) }
    ensures found { IfOk result (λ overlay. IsHonest (P.facts place)
        → Finds (P.facts place).seen (pages_of overlay) 0) }
    ensures fresh { IfOk result (λ overlay.
        (overlay.failed ≡ 0) × (overlay.below.honest ≡ (P.facts place).honest)) }
    ensures faults { IfErr result (λ refused. (refused.fault ≡ StoreFault.Device)
        ⊎ (refused.fault ≡ StoreFault.Memory)) }
    ensures calm { IfOk result (λ overlay.
        IsCalm (P.facts place) (P.facts overlay.store.place)) }
    ensures quiet { IfErr result (λ refused.
        IsQuiet (P.facts place) (P.facts refused.store)) }
    ensures cause { IfOk result (λ overlay.
        (P.facts overlay.store.place).failures ≡ (P.facts place).failures) }
    ensures cause_refused { IfErr result (λ refused. (P.facts refused.store).failures
        ≡ raised_by refused.fault (P.facts place).failures) }
{
    let mut place = place;
    if place.sync_folder().is_err() {
        return Err(Rejected {
            store: place,
            fault: StoreFault::Device,
        });
    }
    match Overlay::through(alloc, PlaceStore::of(alloc, place, count), journal) {
        Ok(overlay) => Ok(overlay),
        Err(refused) => Err(Rejected {
            store: refused.store.into_place(),
            fault: StoreFault::Memory,
        }),
    }
}

/// The table as it stands there by itself, where it has so many pages. BadSize comes where bytes stand after the last of them: the
/// place is then handed back as it was.
pub fn read_alone<P: Place>(
    alloc: Global,
    place: P,
    count: u32,
) -> Result<Overlay<PlaceStore<P>>, Rejected<P, StoreFault>>
    requires count { HasCount (P.facts place) count }
    ensures view { IfOk result (λ overlay. (overlay.store ≡ place_view place count 0 0)
        × (overlay.changes ≡ []) × (overlay.failed ≡ 0)) }
    ensures found { IfOk result (λ overlay. IsHonest (P.facts place)
        → (pages_of overlay ≡ (P.facts place).seen.table) × ((P.facts place).seen.rest ≡ 0)) }
    ensures honest { IfOk result (λ overlay. overlay.below.honest ≡ (P.facts place).honest) }
    ensures refused { IfErr result (λ refused. (refused.store ≡ place)
        × (refused.fault ≡ StoreFault.BadSize) × ((P.facts place).seen.rest ≢ 0)) }
{
    if place.rest() != 0 {
        return Err(Rejected {
            store: place,
            fault: StoreFault::BadSize,
        });
    }
    Ok(Overlay::new(alloc, PlaceStore::of(alloc, place, count)))
}
