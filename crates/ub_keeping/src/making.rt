ghost use Rattle.std.specs.Prelude.{◌≡◌, ◌≤◌, ◌⊎◌, None, IfErr, OnOk, OnErr, IsErrOf, length};
ghost use Rattle.ub_files.specs.Files.{counted_open};
ghost use Rattle.ub_journal.specs.Place.{AtAnyMoment, Counts, IsHonest, LeavesNow};
ghost use Rattle.ub_keeping.specs.Found.{IsForeign};
ghost use Rattle.ub_keeping.specs.Kept.{IsKept, IsPartOf, MayBegin, MayKeep, MayMake};
ghost use Rattle.ub_keeping.specs.inner.Made.{HasOthers, HasZero};

use crate::changing::clear;
use crate::keeping::commit_last;
use crate::replacing::Replacing;
use std::alloc::Global;
use ub_files::OpenFault;
use ub_journal::{Failed, Place, make_last};
use ub_store::{Pages, StoreFault};

/// Makes a table of these pages, of which there is one at least, in the place of what is found there. The place is handed back. At Ok
/// these are the pages of the table, which last, and no journal is there. Where a table stood, a crash at any moment leaves what it
/// might have left before, or what stands for what was found, or for the new pages; where there was no page, a part of the new ones.
/// BadJournal comes where a journal stands there that is damaged, or none of the table, as beside one with no page: nothing is
/// done then; nor is it where Memory comes, of a journal for which memory was refused. Device comes where the place failed in this
/// call, once, which ends it.
pub fn make<P: Place, Q: Pages>(alloc: Global, place: P, pages: &Q) -> (P, Result<(), OpenFault>)
    requires some { 1 ≤ length (Q.pages pages.now) }
    ensures done { OnOk result.1 (IsHonest (P.facts place)
        → IsKept (Q.pages pages.now) (P.facts result.0)) }
    ensures any_moment { 1 ≤ length (P.facts place).seen.table → AtAnyMoment
        (MayMake (Q.pages pages.now) (P.facts place)) (P.facts place) (P.facts result.0) }
    ensures any_moment_begun { length (P.facts place).seen.table ≡ 0 → AtAnyMoment
        (MayBegin (Q.pages pages.now) (P.facts place)) (P.facts place) (P.facts result.0) }
    ensures either { OnErr result.1 (IsHonest (P.facts place)
        → 1 ≤ length (P.facts place).seen.table
        → MayMake (Q.pages pages.now) (P.facts place) (P.facts result.0).seen) }
    ensures foreign { IsErrOf result.1 OpenFault.BadJournal
        → IsHonest (P.facts place) → IsForeign (P.facts place).seen }
    ensures faults { IfErr result.1 (λ fault. (fault ≡ OpenFault.BadJournal)
        ⊎ ((fault ≡ OpenFault.Store StoreFault.Device)
        ⊎ (fault ≡ OpenFault.Store StoreFault.Memory))) }
    ensures honest { (P.facts result.0).honest ≡ (P.facts place).honest }
    ensures cause { (P.facts result.0).failures
        ≡ counted_open result.1 (P.facts place).failures }
{
    let mut place = place;
    let made = make_at(alloc, &mut place, pages);
    (place, made)
}

// The same at a place that is lent.
fn make_at<P: Place, Q: Pages>(alloc: Global, place: &mut P, pages: &Q) -> Result<(), OpenFault>
    requires some { 1 ≤ length (Q.pages pages.now) }
    ensures done { OnOk result (IsHonest (P.facts place.old)
        → IsKept (Q.pages pages.now) (P.facts place.new)) }
    ensures any_moment { 1 ≤ length (P.facts place.old).seen.table → AtAnyMoment
        (MayMake (Q.pages pages.now) (P.facts place.old))
        (P.facts place.old) (P.facts place.new) }
    ensures any_moment_begun { length (P.facts place.old).seen.table ≡ 0 → AtAnyMoment
        (MayBegin (Q.pages pages.now) (P.facts place.old))
        (P.facts place.old) (P.facts place.new) }
    ensures foreign { IsErrOf result OpenFault.BadJournal
        → IsHonest (P.facts place.old) → IsForeign (P.facts place.old).seen }
    ensures faults { IfErr result (λ fault. (fault ≡ OpenFault.BadJournal)
        ⊎ ((fault ≡ OpenFault.Store StoreFault.Device)
        ⊎ (fault ≡ OpenFault.Store StoreFault.Memory))) }
    ensures honest { (P.facts place.new).honest ≡ (P.facts place.old).honest }
    ensures cause { (P.facts place.new).failures
        ≡ counted_open result (P.facts place.old).failures }
{
    clear(alloc, place)?;
    match write(place, pages) {
        Ok(()) => Ok(()),
        Err(Failed) => Err(OpenFault::Store(StoreFault::Device)),
    }
}

// Puts these pages, where no journal is there: by one, where the table has a page.
fn write<P: Place, Q: Pages>(place: &mut P, pages: &Q) -> Result<(), Failed>
    requires some { 1 ≤ length (Q.pages pages.now) }
    requires alone { IsHonest (P.facts place.old)
        → (P.facts place.old).seen.journal ≡ None }
    ensures done { OnOk result (IsHonest (P.facts place.old)
        → IsKept (Q.pages pages.now) (P.facts place.new)) }
    ensures any_moment { 1 ≤ length (P.facts place.old).seen.table → AtAnyMoment
        (MayKeep (Q.pages pages.now) (P.facts place.old))
        (P.facts place.old) (P.facts place.new) }
    ensures any_moment_begun { length (P.facts place.old).seen.table ≡ 0 → AtAnyMoment
        (MayBegin (Q.pages pages.now) (P.facts place.old))
        (P.facts place.old) (P.facts place.new) }
    ensures cause { Counts (P.facts place.old) (P.facts place.new) result }
{
    if place.pages() == 0 {
        return begin(place, pages);
    }
    let _count = pages.count();
    let mut before = [0; 4096];
    place.read_page(0, &mut before)?;
    commit_last(place, &Replacing { before, pages })
}

// Puts these pages where no page is there: the first one once all others last, and before that a page of zeros in its place.
fn begin<P: Place, Q: Pages>(place: &mut P, pages: &Q) -> Result<(), Failed>
    requires some { 1 ≤ length (Q.pages pages.now) }
    requires empty { IsHonest (P.facts place.old)
        → length (P.facts place.old).seen.table ≡ 0 }
    requires alone { IsHonest (P.facts place.old)
        → (P.facts place.old).seen.journal ≡ None }
    ensures done { OnOk result (IsHonest (P.facts place.old)
        → IsKept (Q.pages pages.now) (P.facts place.new)) }
    ensures any_moment { AtAnyMoment (MayBegin (Q.pages pages.now) (P.facts place.old))
        (P.facts place.old) (P.facts place.new) }
    ensures cause { Counts (P.facts place.old) (P.facts place.new) result }
{
    make_last(place)?;
    place.resize(1)?;
    place.sync()?;
    fill(place, pages)
}

// Puts these pages where a page of zeros lasts in the place of the first.
fn fill<P: Place, Q: Pages>(place: &mut P, pages: &Q) -> Result<(), Failed>
    requires some { 1 ≤ length (Q.pages pages.now) }
    requires alone { IsHonest (P.facts place.old)
        → (P.facts place.old).seen.journal ≡ None }
    requires zero { IsHonest (P.facts place.old) → LeavesNow HasZero (P.facts place.old) }
    ensures done { OnOk result (IsHonest (P.facts place.old)
        → IsKept (Q.pages pages.now) (P.facts place.new)) }
    ensures any_moment { AtAnyMoment (IsPartOf (Q.pages pages.now))
        (P.facts place.old) (P.facts place.new) }
    ensures cause { Counts (P.facts place.old) (P.facts place.new) result }
{
    place.resize(pages.count())?;
    put_others(place, pages)?;
    place.sync()?;
    let mut first = [0; 4096];
    pages.put_page(0, &mut first);
    place.write_page(0, &first)?;
    place.sync()?;
    place.sync_folder()
}

// Puts all pages but the first, where the table has as many.
fn put_others<P: Place, Q: Pages>(place: &mut P, pages: &Q) -> Result<(), Failed>
    requires count { IsHonest (P.facts place.old)
        → length (P.facts place.old).seen.table ≡ length (Q.pages pages.now) }
    requires zero { IsHonest (P.facts place.old) → LeavesNow HasZero (P.facts place.old) }
    ensures seen { OnOk result (IsHonest (P.facts place.old)
        → HasOthers (Q.pages pages.now) (P.facts place.old).seen (P.facts place.new).seen) }
    ensures zero { IsHonest (P.facts place.old) → LeavesNow HasZero (P.facts place.new) }
    ensures any_moment { AtAnyMoment HasZero (P.facts place.old) (P.facts place.new) }
    ensures cause { Counts (P.facts place.old) (P.facts place.new) result }
{
    let mut page = [0; 4096];
    for n in 1..pages.count() {
        pages.put_page(n, &mut page);
        place.write_page(n, &page)?;
    }
    Ok(())
}
