ghost use Rattle.ub_files.specs.Clock.{Runs};
ghost use Rattle.ub_table_file.specs.Crashes.{QueriesSafely, QueryLasts, SaysAllDone};
ghost use Rattle.ub_table_file.specs.Queried.{QueriesFile};

use crate::parting::{note, write_parts};
use crate::running::run_script;
use crate::status::Status;
use std::alloc::Global;
use ub_files::Files;
use ub_script::{Out, Over};
use ub_words::QueryWords;

/// Runs statements on a table file as `run` runs a script, but into memory. When the run has ended and the table is closed, it
/// writes what that text has of answers to `out`, and then the lines that tell of them, or of a fault, to `notes`. The status is
/// that of the run, or `Device` where a write of the answers fails. Where memory is refused for the text, that is noted alone, and
/// the status is `Memory`: what the statements did stands then as after a run whose output failed.
pub fn query_file<F: Files, W: Out, N: Out>(
    alloc: Global,
    files: &mut F,
    asked: QueryWords<'_>,
    out: &mut W,
    notes: &mut N,
) -> Status
    ensures queries { QueriesFile asked.entry.table.now asked.entry.statements.now
        (F.facts files.old) (F.facts files.new) (W.facts out.old) (W.facts out.new)
        (N.facts notes.old) (N.facts notes.new) result }
    ensures crash { Runs (QueriesSafely asked.entry.table.now asked.entry.statements.now
        (F.facts files.old) (W.facts out.old) (W.facts out.new)
        (N.facts notes.old) (N.facts notes.new) result)
        (F.facts files.old) (F.clock files.old) (F.clock files.new) }
    ensures lasts { SaysAllDone result
        → QueryLasts asked.entry.table.now asked.entry.statements.now
        (F.facts files.old) (W.facts out.old) (W.facts out.new)
        (N.facts notes.old) (N.facts notes.new) result (F.clock files.new) }
{
    let mut memory = Over::new(Vec::new(alloc));
    let statements = asked.statements.as_bytes();
    let ended = run_script(alloc, files, asked.table, statements, &mut memory);
    if memory.has_failed() {
        note(notes, b"! Memory\n");
        return Status::Memory;
    }
    let text = memory.into_inner();
    write_parts(text.as_slice(), ended, out, notes)
}
