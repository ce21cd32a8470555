// The writer of a journal's pages: byte by byte, so that none of it stands in memory.
ghost use Rattle.std.specs.Prelude.{◌≡◌, ◌<◌, ◌≤◌, ◌^◌, ◌-◌, ◌%◌, IfOk, OnOk, length, replicate};
ghost use Rattle.std.specs.Io.KnownBytes.{Appends};
ghost use Rattle.ub_journal.specs.Image.{IsJournal};
ghost use Rattle.ub_journal_page.specs.Pages.{change_bytes, changes_bytes, head_of, joined, number_page, pages_of};

use crate::held::held_in;
use crate::numbers::{PACKED, spell_front, spell_head};
use std::io::{self, Write};
use ub_journal::Tells;
use ub_store::Page;

/// Writes the pages of a journal, one behind the other. Takes no memory.
pub fn write_journal<W: Write, J: Tells>(out: &mut W, journal: &J) -> io::Result<()>
    requires { IsJournal (J.told journal.now) }
    ensures { OnOk result (Appends (W.contents out.old) (W.contents out.new)
        (joined (pages_of (J.told journal.now)))) }
{
    write_head(out, journal)?;
    out.write_all(&journal.before())?;
    out.write_all(&journal.head())?;
    let within = write_changes(out, journal)?;
    write_zeros(out, within)
}

// Writes the head.
fn write_head<W: Write, J: Tells>(out: &mut W, journal: &J) -> io::Result<()>
    requires { IsJournal (J.told journal.now) }
    ensures { OnOk result (Appends (W.contents out.old) (W.contents out.new)
        (number_page
        (head_of 2 (J.told journal.now).count (length (J.told journal.now).changes)))) }
{
    let mut page = [0; 4096];
    spell_head(PACKED, journal.count(), changed(journal), &mut page);
    out.write_all(&page)
}

// How many pages change besides the first.
fn changed<J: Tells>(journal: &J) -> u32
    requires { IsJournal (J.told journal.now) }
    ensures { result ≡ length (J.told journal.now).changes }
{
    journal.changes() as u32
}

// Writes the changes, and tells how many of their bytes stand on the last page: none where it is full.
fn write_changes<W: Write, J: Tells>(out: &mut W, journal: &J) -> io::Result<usize>
    ensures written { OnOk result (Appends (W.contents out.old) (W.contents out.new)
        (changes_bytes (J.told journal.now).changes)) }
    ensures within { IfOk result (λ within.
        within ≡ length (changes_bytes (J.told journal.now).changes) % 4096) }
{
    let mut within = 0;
    let mut page = [0; 4096];
    for at in 0..journal.changes() {
        let number = journal.put_change(at, &mut page);
        let count = write_change(out, number, &page)?;
        within = (within + count) % 4096;
    }
    Ok(within)
}

// Writes a change, and tells how many bytes that took.
fn write_change<W: Write>(out: &mut W, number: u32, page: &Page) -> io::Result<usize>
    ensures written { OnOk result (Appends (W.contents out.old) (W.contents out.new)
        (change_bytes (record { number = number; page = page.now }))) }
    ensures count { IfOk result (λ n. n
        ≡ length (change_bytes (record { number = number; page = page.now }))) }
    ensures few { IfOk result (λ n. n ≤ 4104) }
{
    let held = held_in(page);
    let mut front = [0; 8];
    spell_front(number, held as u32, &mut front);
    out.write_all(&front)?;
    out.write_all(&page[..held])?;
    Ok(8 + held)
}

// Writes the zeros behind so many bytes on a page.
fn write_zeros<W: Write>(out: &mut W, within: usize) -> io::Result<()>
    requires { within < 4096 }
    ensures { OnOk result (Appends (W.contents out.old) (W.contents out.new)
        (replicate ((4096 - within) % 4096) 0)) }
{
    if within == 0 {
        return Ok(());
    }
    let page = [0; 4096];
    out.write_all(&page[within..])
}
