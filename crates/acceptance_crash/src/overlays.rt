// Changes that are held in memory over a table which is only read, and that are put into its file at the end. Each page is of one
// byte, over and over.

ghost use Rattle.std.specs.Prelude.{IfOk};
ghost use Rattle.ub_journal.specs.Image.{IsJournal};
ghost use Rattle.ub_journal.specs.Place.{IsHonest};

use crate::calls::{Answer, Call, answers, byte_of};
use crate::pages::tells;
use std::alloc::{AllocError, Global};
use ub_journal::{Journal, Place, Tells, TornPlace, commit};
use ub_overlay::{Changed, Overlay, Redo};
use ub_store::{FaultyStore, MemStore, Page, PageStore, StoreFault};

// Calls that make a table of two pages, of 1s and of 2s, in a store that has none.
static MADE: &[(Call, Answer)] = &[
    (Call::Extend, Ok(0)),
    (Call::Extend, Ok(1)),
    (Call::Write(0, 1), Ok(0)),
    (Call::Write(1, 2), Ok(0)),
];

// The same table as a file at rest, which promises nothing.
fn two_on_disk(alloc: Global) -> Result<TornPlace, AllocError>
    ensures { IfOk result (λ place. ¬ (IsHonest (⟦<TornPlace as Place>⟧.facts place))) }
{
    let pages = Vec::from_slice(alloc, &[[1; 4096], [2; 4096]])?;
    Ok(TornPlace::new(alloc, pages, 0, None, false))
}

// Calls of a store with these pages.
static TWO: &[(Call, Answer)] = &[
    (Call::Read(0), Ok(1)),
    (Call::Read(1), Ok(2)),
    (Call::Pages, Ok(2)),
];

// Calls of these, which write the second one then, and add a third one.
static CHANGE: &[(Call, Answer)] = &[
    (Call::Read(0), Ok(1)),
    (Call::Read(1), Ok(2)),
    (Call::Pages, Ok(2)),
    (Call::Write(1, 7), Ok(0)),
    (Call::Extend, Ok(2)),
    (Call::Write(2, 8), Ok(0)),
    (Call::Sync, Ok(0)),
];

// Calls after these.
static CHANGED: &[(Call, Answer)] = &[
    (Call::Read(0), Ok(1)),
    (Call::Read(1), Ok(7)),
    (Call::Read(2), Ok(8)),
    (Call::Pages, Ok(3)),
    (Call::Write(3, 9), Err(StoreFault::NoPage)),
];

// Whether each of these calls of an overlay is answered so.
fn overlay_answers<S: PageStore>(overlay: &mut Overlay<S>, calls: &[(Call, Answer)]) -> bool {
    answers(overlay, calls)
}

// Whether changes of two pages are read back.
fn are_read_back<S: PageStore>(overlay: &mut Overlay<S>) -> bool {
    let is_read = !overlay.is_changed() & overlay_answers(overlay, CHANGE);
    is_read & overlay.is_changed() & overlay_answers(overlay, CHANGED)
}

// Whether they are told of the pages that were changed.
fn are_told(changed: Changed) -> bool {
    let redo = Redo {
        before: [1; 4096],
        changed,
    };
    (redo.count() == 3) & (byte_of(&redo.head()) == 1) & tells(&redo, &[(1, 4096, 7), (2, 4096, 8)])
}

// Whether they are read back and told, and leave the pages below as they are.
fn stay_over<S: PageStore>(alloc: Global, below: S) -> bool {
    let mut overlay = Overlay::new(alloc, below);
    let are_there = are_read_back(&mut overlay);
    match overlay.into_parts() {
        Ok(parts) => {
            let mut below = parts.below;
            are_there & answers(&mut below, TWO) & are_told(parts.changed)
        }
        Err(_) => false,
    }
}

// Calls over a store whose second call fails: that is told once, and comes of no page that is held.
static FAILING: &[(Call, Answer)] = &[
    (Call::Write(1, 7), Ok(0)),
    (Call::Extend, Ok(2)),
    (Call::Write(2, 8), Ok(0)),
    (Call::Sync, Ok(0)),
    (Call::Read(1), Ok(7)),
    (Call::Read(2), Ok(8)),
    (Call::Read(0), Ok(1)),
    (Call::Into(0), Err(StoreFault::Device)),
    (Call::Read(0), Ok(1)),
];

// Whether they are answered so over two pages.
fn tells_failures<S: PageStore>(alloc: Global, below: S) -> bool {
    let below = FaultyStore::new(below, 2);
    overlay_answers(&mut Overlay::new(alloc, below), FAILING)
}

// Calls that change all pages, and add a third one.
static CHANGE_ALL: &[(Call, Answer)] = &[
    (Call::Write(1, 7), Ok(0)),
    (Call::Extend, Ok(2)),
    (Call::Write(2, 8), Ok(0)),
    (Call::Sync, Ok(0)),
    (Call::Write(0, 6), Ok(0)),
];

// Whether the page of this number is seen, and is of this byte.
fn shows<P: Place>(place: &mut P, n: u32, byte: u8) -> bool
    requires asks_nothing { ¬ (IsHonest (P.facts place.old)) }
    ensures asks_nothing { ¬ (IsHonest (P.facts place.new)) }
{
    let mut page: Page = [0; 4096];
    place.read_page(n, &mut page).is_ok() && byte_of(&page) == u32::from(byte)
}

// Whether a journal is put into a table's file, which then has these pages.
fn puts<P: Place, J: Tells>(place: &mut P, journal: &J) -> bool
    requires journal { IsJournal (J.told journal.now) }
    requires asks_nothing { ¬ (IsHonest (P.facts place.old)) }
{
    commit(place, journal).is_ok() && shows(place, 0, 6) && shows(place, 1, 7) && shows(place, 2, 8)
}

// The same of the file of the table of two pages.
fn puts_on_disk<J: Tells>(alloc: Global, journal: &J) -> bool
    requires { IsJournal (J.told journal.now) }
{
    match two_on_disk(alloc) {
        Ok(mut place) => puts(&mut place, journal),
        Err(_) => false,
    }
}

// Whether changed pages are put into the file.
fn are_put<S: PageStore>(alloc: Global, overlay: Overlay<S>) -> bool {
    if overlay.pages() == 0 {
        return false;
    }
    match overlay.into_parts() {
        Ok(parts) => {
            let redo = Redo {
                before: [1; 4096],
                changed: parts.changed,
            };
            puts_on_disk(alloc, &redo)
        }
        Err(_) => false,
    }
}

// Whether changes in memory over two pages are.
fn are_put_over<S: PageStore>(alloc: Global, below: S) -> bool {
    let mut overlay = Overlay::new(alloc, below);
    overlay_answers(&mut overlay, CHANGE_ALL) & are_put(alloc, overlay)
}

// Calls of what is read through that journal: a page that is added then is none that was cut.
static CUT: &[(Call, Answer)] = &[
    (Call::Read(0), Ok(5)),
    (Call::Pages, Ok(1)),
    (Call::Extend, Ok(1)),
    (Call::Read(0), Ok(5)),
    (Call::Read(1), Ok(0)),
    (Call::Pages, Ok(2)),
];

// Whether they are answered so, and the pages below stay as they are.
fn are_read<S: PageStore>(mut overlay: Overlay<S>) -> bool {
    overlay_answers(&mut overlay, CUT) & answers(&mut overlay.into_store(), TWO)
}

// Whether they are over two pages, which the journal cuts down to the first one, and that one is changed.
fn are_read_through<S: PageStore>(alloc: Global, below: S) -> bool {
    let journal = Journal {
        before: [1; 4096],
        head: [5; 4096],
        count: 1,
        changes: Vec::new(alloc),
    };
    match Overlay::through(alloc, below, &journal) {
        Ok(overlay) => are_read(overlay),
        Err(_) => false,
    }
}

// What is tried over two pages.
#[derive(Clone, Copy)]
enum Trial {
    StayOver,
    TellFailures,
    PutOver,
    ReadThrough,
}

// Whether two pages are made in a store that has none, and this is right over them.
fn is_right<S: PageStore>(alloc: Global, mut below: S, trial: Trial) -> bool {
    let is_made = answers(&mut below, MADE);
    is_made
        & match trial {
            Trial::StayOver => stay_over(alloc, below),
            Trial::TellFailures => tells_failures(alloc, below),
            Trial::PutOver => are_put_over(alloc, below),
            Trial::ReadThrough => are_read_through(alloc, below),
        }
}

// The same in memory.
fn is_right_in_memory(alloc: Global, trial: Trial) -> bool {
    is_right(alloc, MemStore::new(alloc), trial)
}

#[test]
fn changes_stay_in_memory(rt: HostRuntime) {
    assert!(rt; is_right_in_memory(rt.alloc(), Trial::StayOver));
}

#[test]
fn a_failure_below_is_told_once(rt: HostRuntime) {
    assert!(rt; is_right_in_memory(rt.alloc(), Trial::TellFailures));
}

#[test]
fn changes_are_put_into_the_file(rt: HostRuntime) {
    assert!(rt; is_right_in_memory(rt.alloc(), Trial::PutOver));
}

#[test]
fn a_journal_is_read_through(rt: HostRuntime) {
    assert!(rt; is_right_in_memory(rt.alloc(), Trial::ReadThrough));
}
