ghost use Rattle.std.specs.Prelude.{◌≡◌, ◌⊎◌, [], None, IfOk, IfErr, OnOk, IsErrOf};
ghost use Rattle.ub_files.specs.Files.{counted_open};
ghost use Rattle.ub_journal.specs.Image.{Finds, IsJournal, told};
ghost use Rattle.ub_journal.specs.Place.{AtAnyMoment, IsHonest};
ghost use Rattle.ub_keeping.specs.Found.{IsForeign, IsUnsized, MayFinish, StandsAlone, StandsForFound};
ghost use Rattle.ub_overlay.specs.Overlay.{pages_of};

use crate::asking::read_alone;
use crate::fitting::fits;
use crate::store::PlaceStore;
use std::alloc::Global;
use ub_files::OpenFault;
use ub_journal::{Failed, Journal, JournalFault, Place, heal};
use ub_overlay::Overlay;
use ub_store::{MAX_PAGES, Rejected, StoreFault};

/// The table that is found at a place, to change it and then to `keep` it: a journal that is one of the table, which a stopped run has
/// left, is finished first, and is gone then. BadJournal comes where a journal stands there that is damaged, or none of the table:
/// nothing is done then. The other faults are those of `ask`, Device also where the journal couldn't be finished. The place is then
/// handed back. A crash at any moment leaves what it might have left before, or what stands for what was found.
pub fn change<P: Place>(
    alloc: Global,
    place: P,
) -> Result<Overlay<PlaceStore<P>>, Rejected<P, OpenFault>>
    ensures found { IfOk result (λ overlay. IsHonest (P.facts place)
        → Finds (P.facts place).seen (pages_of overlay) 0) }
    ensures alone { IfOk result (λ overlay. IsHonest (P.facts place)
        → StandsAlone (P.facts overlay.store.place).seen (pages_of overlay)) }
    ensures fresh { IfOk result (λ overlay. (overlay.failed ≡ 0) × (overlay.changes ≡ [])
        × (overlay.below.honest ≡ (P.facts place).honest)) }
    ensures torn { IfErr result (λ refused.
        refused.fault ≡ OpenFault.Store StoreFault.BadSize
        → IsHonest (P.facts place) → IsUnsized (P.facts place).seen) }
    ensures foreign { IfErr result (λ refused. refused.fault ≡ OpenFault.BadJournal
        → IsHonest (P.facts place) → IsForeign (P.facts place).seen) }
    ensures faults { IfErr result (λ refused. (refused.fault ≡ OpenFault.BadJournal)
        ⊎ ((refused.fault ≡ OpenFault.Store StoreFault.Device)
        ⊎ ((refused.fault ≡ OpenFault.Store StoreFault.BadSize)
        ⊎ (refused.fault ≡ OpenFault.Store StoreFault.Memory)))) }
    ensures any_moment { IfOk result (λ overlay. AtAnyMoment (MayFinish (P.facts place))
        (P.facts place) (P.facts overlay.store.place)) }
    ensures any_moment_refused { IfErr result (λ refused.
        AtAnyMoment (MayFinish (P.facts place)) (P.facts place) (P.facts refused.store)) }
    ensures cause { IfOk result (λ overlay.
        ((P.facts overlay.store.place).honest ≡ (P.facts place).honest)
        × ((P.facts overlay.store.place).failures ≡ (P.facts place).failures)) }
    ensures cause_refused { IfErr result (λ refused.
        ((P.facts refused.store).honest ≡ (P.facts place).honest)
        × ((P.facts refused.store).failures
        ≡ counted_open {A = P} (Err refused.fault) (P.facts place).failures)) }
{
    let mut place = place;
    if let Err(fault) = clear(alloc, &mut place) {
        return Err(Rejected {
            store: place,
            fault,
        });
    }
    let pages = place.pages();
    if pages > u64::from(MAX_PAGES) {
        return Err(Rejected {
            store: place,
            fault: OpenFault::Store(StoreFault::BadSize),
        });
    }
    match read_alone(alloc, place, pages as u32) {
        Ok(overlay) => Ok(overlay),
        Err(refused) => Err(Rejected {
            store: refused.store,
            fault: OpenFault::Store(refused.fault),
        }),
    }
}

/// Finishes the journal of the table that is seen, where there is one. At Ok no journal is seen, and the table is what was found.
/// BadJournal comes where a journal stands there that is damaged, or none of the table: nothing is done then. Memory comes where
/// memory was refused, Device where the place failed in this call, once, which ends it.
pub fn clear<P: Place>(alloc: Global, place: &mut P) -> Result<(), OpenFault>
    ensures found { OnOk result (IsHonest (P.facts place.old)
        → Finds (P.facts place.old).seen (P.facts place.new).seen.table
        (P.facts place.new).seen.rest) }
    ensures alone { OnOk result (IsHonest (P.facts place.old)
        → (P.facts place.new).seen.journal ≡ None) }
    ensures foreign { IsErrOf result OpenFault.BadJournal
        → IsHonest (P.facts place.old) → IsForeign (P.facts place.old).seen }
    ensures faults { IfErr result (λ fault. (fault ≡ OpenFault.BadJournal)
        ⊎ ((fault ≡ OpenFault.Store StoreFault.Device)
        ⊎ (fault ≡ OpenFault.Store StoreFault.Memory))) }
    ensures any_moment { AtAnyMoment (MayFinish (P.facts place.old))
        (P.facts place.old) (P.facts place.new) }
    ensures honest { (P.facts place.new).honest ≡ (P.facts place.old).honest }
    ensures cause { (P.facts place.new).failures
        ≡ counted_open result (P.facts place.old).failures }
{
    match place.journal(alloc) {
        Ok(Some(journal)) => finish_left(place, &journal),
        Ok(None) => Ok(()),
        Err(JournalFault::Damaged) => Err(OpenFault::BadJournal),
        Err(JournalFault::Memory) => Err(OpenFault::Store(StoreFault::Memory)),
        Err(JournalFault::Device) => Err(OpenFault::Store(StoreFault::Device)),
    }
}

// Finishes this journal, which is the one that is seen, where it is one of the table.
fn finish_left<P: Place>(place: &mut P, journal: &Journal) -> Result<(), OpenFault>
    requires journal { IsJournal (told journal.now) }
    requires seen { IsHonest (P.facts place.old)
        → (P.facts place.old).seen.journal ≡ Some (told journal.now) }
    ensures found { OnOk result (IsHonest (P.facts place.old)
        → Finds (P.facts place.old).seen (P.facts place.new).seen.table
        (P.facts place.new).seen.rest) }
    ensures alone { OnOk result (IsHonest (P.facts place.old)
        → (P.facts place.new).seen.journal ≡ None) }
    ensures foreign { IsErrOf result OpenFault.BadJournal
        → IsHonest (P.facts place.old) → IsForeign (P.facts place.old).seen }
    ensures faults { IfErr result (λ fault. (fault ≡ OpenFault.BadJournal)
        ⊎ (fault ≡ OpenFault.Store StoreFault.Device)) }
    ensures any_moment { AtAnyMoment (MayFinish (P.facts place.old))
        (P.facts place.old) (P.facts place.new) }
    ensures honest { (P.facts place.new).honest ≡ (P.facts place.old).honest }
    ensures cause { (P.facts place.new).failures
        ≡ counted_open result (P.facts place.old).failures }
{
    let pages = place.pages();
    match fits(place, pages, journal) {
        Ok(true) => {}
        Ok(false) => return Err(OpenFault::BadJournal),
        Err(Failed) => return Err(OpenFault::Store(StoreFault::Device)),
    }
    match heal(place, journal) {
        Ok(()) => Ok(()),
        Err(Failed) => Err(OpenFault::Store(StoreFault::Device)),
    }
}
