ghost use Rattle.std.specs.Prelude.{◌≡◌, ◌≤◌, ◌↔◌, length, IsTrue};
ghost use Rattle.ub_files.specs.Clock.{Lasts, MayBecome, Runs};
ghost use Rattle.ub_table_file.specs.Commands.{MakesTable, loaded_line};

use crate::line::{Line, twice_numbered_line};
use crate::status::{Status, tell_line, tell_open_fault};
use ub_files::Files;
use ub_script::Out;
use ub_store::Pages;

/// What is told of a table that stands in a new table file.
#[derive(Clone, Copy, PartialEq, Eq, Debug)]
pub struct Counts {
    pub rows: u32,
    pub regions: u32,
}

/// Whether both paths are the same text.
pub fn is_same(path: &str, other: &str) -> bool
    ensures { IsTrue result ↔ (path.now ≡ other.now) }
{
    path == other
}

/// Makes the table file of these pages in the place of what is there, and tells how many rows and regions it has, or why it isn't made.
pub fn make_table<F: Files, P: Pages, W: Out>(
    files: &mut F,
    path: &str,
    pages: &P,
    counts: Counts,
    out: &mut W,
) -> Status
    requires some { 1 ≤ length (P.pages pages.now) }
    ensures makes { MakesTable path.now (P.pages pages.now) counts.rows counts.regions
        (F.facts files.old) (F.facts files.new) (W.facts out.old) (W.facts out.new) result }
    ensures crash { Runs (MayBecome path.now (P.pages pages.now) (F.facts files.old))
        (F.facts files.old) (F.clock files.old) (F.clock files.new) }
    ensures lasts { result ≡ Status.Done
        → Lasts path.now (P.pages pages.now) (F.facts files.old) (F.clock files.new) }
{
    match files.make(path, pages) {
        Ok(()) => tell_line(&counts_line(counts), Status::Done, out),
        Err(fault) => tell_open_fault(fault, out),
    }
}

/// The line for a table that stands in a new table file.
pub fn counts_line(counts: Counts) -> Line
    ensures { result.bytes ≡ loaded_line counts.rows counts.regions }
{
    twice_numbered_line("-- rows ", counts.rows, ", regions ", counts.regions)
}
