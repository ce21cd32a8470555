ghost use Rattle.std.specs.Prelude.{OnOk};
ghost use Rattle.ub_journal.specs.Image.{IsBetween, IsJournal, Recovers};
ghost use Rattle.ub_journal.specs.Place.{AtAnyMoment, Counts, IsCommitted, IsDurable, IsFound, IsHonest, IsLeft, IsReady, IsSame, Heals, LeavesNow, PlaceFacts, Shows};
ghost use Rattle.ub_journal.specs.inner.Way.{HasBegun, HasCompleted, IsCompleted, IsDrafted, IsMarked, IsNamed, Puts, with_others};

use crate::journal::{Tells, is_marked_from};
use crate::place::{Failed, Place};

/// Puts the changes that a journal tells into the table's file, where no journal stands beside it, what is seen lasts, and the journal
/// was made of that table. At Ok the table is the new one, it lasts, and no journal is there. A crash at any moment leaves what
/// stands for the table as it was or for the new one, also after a failure, which comes where a call of the place failed in this
/// call, once, and ends it.
pub fn commit<P: Place, J: Tells>(place: &mut P, journal: &J) -> Result<(), Failed>
    requires journal { IsJournal (J.told journal.now) }
    requires ready { IsHonest (P.facts place.old)
        → IsReady (J.told journal.now) (P.facts place.old) }
    ensures done { OnOk result (IsHonest (P.facts place.old)
        → IsCommitted (J.told journal.now) (P.facts place.old) (P.facts place.new)) }
    ensures any_moment { AtAnyMoment (IsBetween (J.told journal.now) (P.facts place.old).seen)
        (P.facts place.old) (P.facts place.new) }
    ensures cause { Counts (P.facts place.old) (P.facts place.new) result }
{
    publish(place, journal)?;
    complete(place, journal)?;
    settle(place, journal)
}

/// Finishes what a crash has left, where what is seen lasts, and the journal that is seen is this one, and one of the table. At Ok
/// the table is the new one, it lasts, and no journal is there. A crash at any moment leaves what stands for the new table, and can
/// be finished in turn. A failure comes where a call of the place failed in this call, once, and ends it.
pub fn finish<P: Place, J: Tells>(place: &mut P, journal: &J) -> Result<(), Failed>
    requires found { IsHonest (P.facts place.old)
        → IsFound (J.told journal.now) (P.facts place.old) }
    ensures done { OnOk result (IsHonest (P.facts place.old)
        → IsCommitted (J.told journal.now) (P.facts place.old) (P.facts place.new)) }
    ensures any_moment { AtAnyMoment (Recovers (J.told journal.now) (P.facts place.old).seen)
        (P.facts place.old) (P.facts place.new) }
    ensures cause { Counts (P.facts place.old) (P.facts place.new) result }
{
    let mut first = [0; 4096];
    place.read_page(0, &mut first)?;
    if is_marked_from(&journal.before(), &first) {
        complete(place, journal)?;
    }
    settle(place, journal)
}

/// Finishes what a crash has left, or a run that was ended, where the journal that is seen is this one, and one of the table. What is
/// seen need not last: it is made to last first. At Ok the table is the new one, it lasts, and no journal is there. A crash at any
/// moment leaves what it might have left before the call, or what stands for the new table. A failure comes where a call of the
/// place failed in this call, once, and ends it.
pub fn heal<P: Place, J: Tells>(place: &mut P, journal: &J) -> Result<(), Failed>
    requires left { IsHonest (P.facts place.old)
        → IsLeft (J.told journal.now) (P.facts place.old) }
    ensures done { OnOk result (IsHonest (P.facts place.old)
        → IsCommitted (J.told journal.now) (P.facts place.old) (P.facts place.new)) }
    ensures any_moment { AtAnyMoment
        (Heals (J.told journal.now) (P.facts place.old)) (P.facts place.old) (P.facts place.new) }
    ensures cause { Counts (P.facts place.old) (P.facts place.new) result }
{
    make_last(place)?;
    finish(place, journal)
}

/// Makes last what is seen. A failure comes where a call of the place failed in this call, once, and ends it.
pub fn make_last<P: Place>(place: &mut P) -> Result<(), Failed>
    ensures durable { OnOk result (IsHonest (P.facts place.old) → IsDurable (P.facts place.new)) }
    ensures seen { OnOk result (Shows (λ i. i) (P.facts place.old) (P.facts place.new)) }
    ensures any_moment { AtAnyMoment (P.facts place.old).may_leave
        (P.facts place.old) (P.facts place.new) }
    ensures cause { Counts (P.facts place.old) (P.facts place.new) result }
{
    place.sync_folder()?;
    place.sync()
}

// Writes the journal, and gives it its name.
fn publish<P: Place, J: Tells>(place: &mut P, journal: &J) -> Result<(), Failed>
    requires journal { IsJournal (J.told journal.now) }
    requires ready { IsHonest (P.facts place.old)
        → IsReady (J.told journal.now) (P.facts place.old) }
    ensures done { OnOk result (IsHonest (P.facts place.old)
        → IsNamed (J.told journal.now) (P.facts place.old) (P.facts place.new)) }
    ensures any_moment { AtAnyMoment (IsBetween (J.told journal.now) (P.facts place.old).seen)
        (P.facts place.old) (P.facts place.new) }
    ensures cause { Counts (P.facts place.old) (P.facts place.new) result }
{
    write_draft(place, journal)?;
    place.publish()?;
    place.sync_folder()
}

// Writes a draft of the journal, and makes it last.
fn write_draft<P: Place, J: Tells>(place: &mut P, journal: &J) -> Result<(), Failed>
    requires journal { IsJournal (J.told journal.now) }
    requires durable { IsHonest (P.facts place.old) → IsDurable (P.facts place.old) }
    ensures done { OnOk result (IsHonest (P.facts place.old)
        → IsDrafted (J.told journal.now) (P.facts place.old) (P.facts place.new)) }
    ensures any_moment { AtAnyMoment (IsSame (P.facts place.old).seen)
        (P.facts place.old) (P.facts place.new) }
    ensures cause { Counts (P.facts place.old) (P.facts place.new) result }
{
    place.draft(journal)?;
    place.sync_draft()
}

// Puts all pages but the first, and marks that before.
fn complete<P: Place, J: Tells>(place: &mut P, journal: &J) -> Result<(), Failed>
    requires begun { IsHonest (P.facts place.old)
        → HasBegun (J.told journal.now) (P.facts place.old) }
    ensures done { OnOk result (IsHonest (P.facts place.old)
        → IsCompleted (J.told journal.now) (P.facts place.old) (P.facts place.new)) }
    ensures any_moment { AtAnyMoment (Recovers (J.told journal.now) (P.facts place.old).seen)
        (P.facts place.old) (P.facts place.new) }
    ensures cause { Counts (P.facts place.old) (P.facts place.new) result }
{
    mark_first(place, journal)?;
    put_changes(place, journal)?;
    place.sync()
}

// Marks the first page, unless it is marked already: a mark that is put again may be torn, and the pages may be mixed by then.
fn mark_first<P: Place, J: Tells>(place: &mut P, journal: &J) -> Result<(), Failed>
    requires begun { IsHonest (P.facts place.old)
        → HasBegun (J.told journal.now) (P.facts place.old) }
    ensures done { OnOk result (IsHonest (P.facts place.old)
        → IsMarked (J.told journal.now) (P.facts place.old) (P.facts place.new)) }
    ensures any_moment { AtAnyMoment (Recovers (J.told journal.now) (P.facts place.old).seen)
        (P.facts place.old) (P.facts place.new) }
    ensures cause { Counts (P.facts place.old) (P.facts place.new) result }
{
    let mut first = [0; 4096];
    place.read_page(0, &mut first)?;
    if first[5] == 1 {
        return Ok(());
    }
    place.mark()?;
    place.sync()
}

// Gives the table its pages, and puts those that change.
fn put_changes<P: Place, J: Tells>(place: &mut P, journal: &J) -> Result<(), Failed>
    requires begun { IsHonest (P.facts place.old)
        → HasBegun (J.told journal.now) (P.facts place.old) }
    ensures seen { OnOk result
        (Shows (with_others (J.told journal.now)) (P.facts place.old) (P.facts place.new)) }
    ensures crash { IsHonest (P.facts place.old) → LeavesNow
        (Puts (J.told journal.now) (P.facts place.old).seen) (P.facts place.new) }
    ensures any_moment { AtAnyMoment (Puts (J.told journal.now) (P.facts place.old).seen)
        (P.facts place.old) (P.facts place.new) }
    ensures cause { Counts (P.facts place.old) (P.facts place.new) result }
{
    place.resize(journal.count())?;
    let mut page = [0; 4096];
    for at in 0..journal.changes() {
        let number = journal.put_change(at, &mut page);
        place.write_page(number, &page)?;
    }
    Ok(())
}

// Puts the first page where all others stand, and takes the journal away.
fn settle<P: Place, J: Tells>(place: &mut P, journal: &J) -> Result<(), Failed>
    requires completed { IsHonest (P.facts place.old)
        → HasCompleted (J.told journal.now) (P.facts place.old) }
    ensures done { OnOk result (IsHonest (P.facts place.old)
        → IsCommitted (J.told journal.now) (P.facts place.old) (P.facts place.new)) }
    ensures any_moment { AtAnyMoment (Recovers (J.told journal.now) (P.facts place.old).seen)
        (P.facts place.old) (P.facts place.new) }
    ensures cause { Counts (P.facts place.old) (P.facts place.new) result }
{
    place.write_page(0, &journal.head())?;
    place.sync()?;
    place.remove()?;
    place.sync_folder()
}
