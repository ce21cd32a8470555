// Each table of 1 to 3 pages, changed into each of 1 to 4 pages, with bytes after its last page and without: all that a crash may leave
// after each call is looked at, and healed, with a crash after each call of that, which is healed in turn. The numbers were worked out
// by another program, which has the calls in their order written out.

ghost use Rattle.std.specs.Prelude.{IfOk};
ghost use Rattle.ub_journal.specs.Place.{IsHonest};

use crate::disk::{Case, Disk, NONE, TORN, WHOLE};
use crate::pages::{BACK_NEW, FRONT_NEW, GARBAGE, MARKED, MISMARKED, NEW, OLD, ZEROS, page_of};
use std::alloc::{AllocError, Global};
use std::mem;
use ub_journal::{Change, Deed, Journal, Place, TornPlace, commit, heal, is_journal};

// The journal of a case.
fn journal_of(alloc: Global, case: &Case) -> Result<Journal, AllocError> {
    let mut changes = Vec::new(alloc);
    for n in 1..4 {
        if case.changes(n) {
            changes.push(Change {
                number: n,
                page: page_of(n, NEW),
            })?;
        }
    }
    Ok(Journal {
        before: page_of(0, OLD),
        head: page_of(0, NEW),
        count: case.count,
        changes,
    })
}

// A place where a disk's table and journal stand, which promises nothing.
fn place_of(alloc: Global, case: &Case, disk: &Disk) -> Result<TornPlace, AllocError>
    ensures { IfOk result (λ place. ¬ (IsHonest (⟦<TornPlace as Place>⟧.facts place))) }
{
    let four = [
        page_of(0, disk.at(0)),
        page_of(1, disk.at(1)),
        page_of(2, disk.at(2)),
        page_of(3, disk.at(3)),
    ];
    let pages = Vec::from_slice(alloc, &four[..disk.count().min(4) as usize])?;
    let journal = match disk.journal() {
        NONE => None,
        _ => Some(journal_of(alloc, case)?),
    };
    Ok(TornPlace::new(alloc, pages, u16::from(disk.rest()), journal, false))
}

// Disks by their bits, of which one may be there twice; and whether memory was refused for one.
#[derive(Drop)]
struct Disks {
    bits: Vec<u32>,
    is_out: bool,
}

impl Disks {
    // None yet.
    fn new(alloc: Global) -> Disks {
        Disks {
            bits: Vec::new(alloc),
            is_out: false,
        }
    }

    // Adds one.
    fn add(&mut self, disk: Disk) {
        self.is_out |= self.bits.push(disk.bits).is_err();
    }

    // Puts them in order, each once.
    fn settle(&mut self) {
        self.bits.sort_unstable();
        self.bits.dedup();
    }

    // Puts what a crash may leave after a call into the place of all that it might leave before.
    fn go_on(&mut self, alloc: Global, deed: &Deed, shown: &Disk) {
        let kind = kind_of(deed);
        let before = mem::replace(&mut self.bits, Vec::new(alloc));
        for bits in before.as_slice() {
            add_left(deed, kind, shown, Disk { bits: *bits }, self);
        }
        self.settle();
    }
}

// What was seen so far: how many images, and how many of them were healed; those with a journal, which are to be healed; and whether
// the images that were seen last are the new table alone, but for a draft.
#[derive(Drop)]
struct Seen {
    images: u64,
    healed: u64,
    found: Disks,
    is_new: bool,
}

impl Seen {
    // Looks at what a crash may leave, and tells whether it is right.
    fn look(&mut self, case: &Case, may_be_old: bool, all: &Disks) -> bool {
        let mut right = !all.is_out;
        self.is_new = true;
        for bits in all.bits.as_slice() {
            let disk = Disk { bits: *bits };
            let image = disk.with_draft(NONE);
            right &= disk.is_well(case, may_be_old) & disk.is_well_alone(case);
            self.is_new &= image == case.after();
            if disk.journal() != NONE {
                self.found.add(image);
            }
        }
        self.images = self.images.saturating_add(all.bits.len() as u64);
        right
    }
}

// The kind of the page that a call writes.
fn kind_of(deed: &Deed) -> u32 {
    match deed {
        Deed::Write(n, page) => {
            if *page == page_of(*n, NEW) {
                NEW
            } else {
                GARBAGE
            }
        }
        _ => ZEROS,
    }
}

// Whether a journal is that of a case.
fn is_right(case: &Case, journal: &Journal) -> bool {
    let mut right = (journal.before == page_of(0, OLD))
        & (journal.head == page_of(0, NEW))
        & (journal.count == case.count)
        & (journal.changes.len() == case.changed.count_ones() as usize);
    let mut above = 0;
    for change in journal.changes.as_slice() {
        let n = change.number;
        right &= (n > above) & case.changes(n) & (change.page == page_of(n, NEW));
        above = n;
    }
    right
}

// What the draft is that was written.
fn drafted(case: &Case, journal: &Journal) -> u32 {
    if is_right(case, journal) { WHOLE } else { TORN }
}

// What is shown after a call, where this is shown before it.
fn shown_after(case: &Case, deed: &Deed, shown: Disk) -> Disk {
    match deed {
        Deed::Write(n, _) => shown.with(*n, kind_of(deed)),
        Deed::Mark => shown.with(0, MARKED),
        Deed::Resize(count) => shown.sized(*count, ZEROS),
        Deed::Draft(journal) => shown.with_draft(drafted(case, journal)),
        Deed::Publish => shown.with_draft(NONE).with_journal(shown.draft()),
        Deed::Remove => shown.with_journal(NONE),
        Deed::Sync | Deed::SyncDraft | Deed::SyncFolder => shown,
    }
}

// What a crash may leave of a page that is written.
fn add_torn_page(n: u32, kind: u32, disk: Disk, all: &mut Disks) {
    let mut longer = disk;
    if n >= disk.count() {
        all.add(disk.with_rest(true));
        longer = disk
            .sized(n.saturating_add(1), GARBAGE)
            .with_rest(disk.rest());
    }
    all.add(longer.with(n, kind));
    all.add(longer.with(n, GARBAGE));
    all.add(longer.with(n, FRONT_NEW));
    all.add(longer.with(n, BACK_NEW));
}

// What a crash may leave of another length.
fn add_sizes(count: u32, disk: Disk, all: &mut Disks) {
    let most = disk.count().max(count);
    for size in disk.count().min(count)..most.saturating_add(1) {
        for kind in [ZEROS, GARBAGE] {
            let sized = disk.sized(size, kind);
            all.add(sized);
            if size < most {
                all.add(sized.with_rest(true));
            }
        }
    }
}

// What a crash may leave of a mark.
fn add_marks(disk: Disk, all: &mut Disks) {
    if disk.has_front() {
        all.add(disk.with(0, OLD));
        all.add(disk.with(0, MARKED));
        all.add(disk.with(0, MISMARKED));
    }
}

// What a crash may leave after a call of a disk that it might leave before: that one, unless the call is a sync of what it lacks, and
// what the call may make of it.
fn add_left(deed: &Deed, kind: u32, shown: &Disk, disk: Disk, all: &mut Disks) {
    if lasts(deed, shown, &disk) {
        all.add(disk);
    }
    match deed {
        Deed::Write(n, _) => add_torn_page(*n, kind, disk, all),
        Deed::Mark => add_marks(disk, all),
        Deed::Resize(count) => add_sizes(*count, disk, all),
        Deed::Draft(_) => {
            all.add(disk.with_draft(TORN));
            all.add(disk.with_draft(WHOLE));
        }
        Deed::Publish => all.add(disk.with_draft(NONE).with_journal(disk.draft())),
        Deed::Remove => all.add(disk.with_journal(NONE)),
        Deed::Sync | Deed::SyncDraft | Deed::SyncFolder => {}
    }
}

// Whether a disk may be left as it is.
fn lasts(deed: &Deed, shown: &Disk, disk: &Disk) -> bool {
    match deed {
        Deed::Sync => disk.alone() == shown.alone(),
        Deed::SyncDraft => disk.draft() == shown.draft(),
        Deed::SyncFolder => disk.journal() == shown.journal(),
        _ => true,
    }
}

// Whether all that a crash may leave after each of these calls is right, and at last only the new table.
fn follow(alloc: Global, case: &Case, start: Disk, deeds: &[Deed], seen: &mut Seen) -> bool {
    let may_be_old = start.journal() == NONE;
    let mut shown = start;
    let mut all = Disks::new(alloc);
    all.add(start);
    let mut right = seen.look(case, may_be_old, &all);
    for deed in deeds {
        all.go_on(alloc, deed, &shown);
        shown = shown_after(case, deed, shown);
        right &= seen.look(case, may_be_old, &all);
    }
    right && shown == case.after() && seen.is_new
}

// Whether a journal is put into the file of a place, or healed where it stands there.
fn is_put<P: Place>(place: &mut P, journal: &Journal, is_there: bool) -> bool
    requires asks_nothing { ¬ (IsHonest (P.facts place.old)) }
{
    if is_there {
        heal(place, journal).is_ok()
    } else {
        is_journal(journal) && commit(place, journal).is_ok()
    }
}

// The same of the journal of a case.
fn puts<P: Place>(alloc: Global, case: &Case, place: &mut P, is_there: bool) -> bool
    requires asks_nothing { ¬ (IsHonest (P.facts place.old)) }
{
    match journal_of(alloc, case) {
        Ok(journal) => is_put(place, &journal, is_there),
        Err(_) => false,
    }
}

// Whether the changes are put right from here on, or healed.
fn play(alloc: Global, case: &Case, start: Disk, seen: &mut Seen) -> bool {
    match place_of(alloc, case, &start) {
        Ok(mut place) => {
            let is_put = puts(alloc, case, &mut place, start.journal() != NONE);
            is_put & follow(alloc, case, start, place.deeds(), seen)
        }
        Err(_) => false,
    }
}

// Whether all that was found so far is healed right. What is found then takes its place.
fn heal_found(alloc: Global, case: &Case, seen: &mut Seen) -> bool {
    let mut starts = mem::replace(&mut seen.found, Disks::new(alloc));
    starts.settle();
    let mut right = !starts.is_out;
    for bits in starts.bits.as_slice() {
        right &= play(alloc, case, Disk { bits: *bits }, seen);
    }
    seen.healed = seen.healed.saturating_add(starts.bits.len() as u64);
    right
}

// Whether a case is right: its changes are put, all that a crash may leave of that is healed, and all that it may leave of that.
fn try_case(alloc: Global, case: &Case, seen: &mut Seen) -> bool {
    let right = play(alloc, case, case.before(), seen)
        & heal_found(alloc, case, seen)
        & heal_found(alloc, case, seen)
        & !seen.found.is_out;
    seen.found.bits.clear();
    right
}

// The case of a number below 192. Some can't be.
fn case_of(n: u32) -> Case {
    Case {
        old: 1 + n / 64,
        rest: n % 2 == 1,
        count: 1 + n / 16 % 4,
        changed: n % 16 & 14,
    }
}

// Whether all cases are right, and as many images were seen and healed as there are.
fn are_right(alloc: Global) -> bool {
    let mut seen = Seen {
        images: 0,
        healed: 0,
        found: Disks::new(alloc),
        is_new: true,
    };
    let mut right = true;
    for n in 0..192 {
        let case = case_of(n);
        right &= !case.can_be() || try_case(alloc, &case, &mut seen);
    }
    right && seen.images == 716437 && seen.healed == 5542
}

#[test]
fn every_crash_leaves_the_old_table_or_the_new_one(rt: HostRuntime) {
    assert!(rt; are_right(rt.alloc()));
}
