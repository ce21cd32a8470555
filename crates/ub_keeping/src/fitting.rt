// Whether a journal is one of the table that a place holds.
ghost use Rattle.std.specs.Prelude.{◌≡◌, ◌↔◌, ◌≤◌, IsTrue, IfOk, length};
ghost use Rattle.ub_journal.specs.Image.{AreAscending, Fits, IsJournal, numbers_of, told};
ghost use Rattle.ub_journal.specs.Place.{Counts, IsHonest};
ghost use Rattle.ub_keeping.specs.inner.Fitting.{AreThere, LeaveFirst};
ghost use Rattle.ub_keeping.specs.Calm.{IsCalm};

use ub_journal::{Change, Failed, Journal, Place, is_marked_from};
use ub_store::Page;

/// Whether a journal is one of the table that is seen, which has so many pages. The first page is read, and where that isn't the one
/// from before, those that the journal changes, up to the first that doesn't stand there yet. Nothing changes. A failure comes
/// where the place failed in this call.
// Never compiled into its caller, whose frame would hold pages also where no journal stands.
#[inline(never)]
pub fn fits<P: Place>(place: &mut P, pages: u64, journal: &Journal) -> Result<bool, Failed>
    requires journal { IsJournal (told journal.now) }
    requires pages { IsHonest (P.facts place.old)
        → pages ≡ length (P.facts place.old).seen.table }
    ensures fits { IfOk result (λ yes. IsHonest (P.facts place.old) → IsTrue yes
        ↔ Fits (told journal.now) (P.facts place.old).seen.table (P.facts place.old).seen.rest) }
    ensures complete { IfOk result (λ yes.
        IsTrue yes → LeaveFirst pages journal.now.count journal.now.changes.items) }
    ensures calm { IsCalm (P.facts place.old) (P.facts place.new) }
    ensures cause { Counts (P.facts place.old) (P.facts place.new) result }
{
    let changes = journal.changes.as_slice();
    let rest = place.rest();
    if pages == 0 || !leave_first(pages, journal.count, changes) {
        return Ok(false);
    }
    let mut page = [0; 4096];
    place.read_page(0, &mut page)?;
    if is_marked_from(&journal.before, &page) {
        return Ok(true);
    }
    if rest != 0 || pages != u64::from(journal.count) {
        return Ok(false);
    }
    are_there(place, changes)
}

// Whether two pages have the same bytes.
fn is_same(a: &Page, b: &Page) -> bool
    ensures { IsTrue result ↔ (a.now ≡ b.now) }
{
    *a == *b
}

// Whether changes, in the order of their numbers, leave pages among the first so many alone of those that the table is to have.
// Their numbers are below its count: so those of the last ones, one for each page that isn't there, are of all such pages where
// the first of these is.
fn leave_first(pages: u64, count: u32, changes: &[Change]) -> bool
    requires some { 1 ≤ pages }
    requires ascending { AreAscending 0 count (numbers_of changes.now) }
    ensures { IsTrue result ↔ LeaveFirst pages count changes.now }
{
    let count = u64::from(count);
    if count <= pages {
        return true;
    }
    let missing = (count - pages) as usize;
    if changes.len() < missing {
        return false;
    }
    u64::from(changes[changes.len() - missing].number) >= pages
}

// Whether the pages of these changes, which are of pages that there are, stand already.
fn are_there<P: Place>(place: &mut P, changes: &[Change]) -> Result<bool, Failed>
    requires { IsHonest (P.facts place.old)
        → AreAscending 0 (length (P.facts place.old).seen.table) (numbers_of changes.now) }
    ensures there { IfOk result (λ yes. IsHonest (P.facts place.old)
        → IsTrue yes ↔ AreThere changes.now (P.facts place.old).seen.table) }
    ensures calm { IsCalm (P.facts place.old) (P.facts place.new) }
    ensures cause { Counts (P.facts place.old) (P.facts place.new) result }
{
    let mut page = [0; 4096];
    for change in changes {
        place.read_page(change.number, &mut page)?;
        if !is_same(&page, &change.page) {
            return Ok(false);
        }
    }
    Ok(true)
}
