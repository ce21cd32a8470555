ghost use Rattle.std.specs.Prelude.{◌≡◌, map, string_bytes};
ghost use Rattle.ub_shell.specs.Program.{EndsCommand};
ghost use Rattle.ub_shell.specs.Ran.{unheard};
ghost use Rattle.ub_shell.specs.Short.{KeepsShortPromise};
ghost use Rattle.ub_table_file.specs.Status.{status_code};
ghost use Rattle.ub_table_file.specs.declared.status.Status.{Status};

use crate::loading::load_file;
use crate::next::tell_next;
use crate::trial::try_files;
use crate::upgrading::upgrade_file;
use std::alloc::Global;
use ub_files::Files;
use ub_load::LastRead;
use ub_script::{Out, OutFault};
use ub_table_file::appending::append_file;
use ub_table_file::asking::ask_file;
use ub_table_file::querying::query_file;
use ub_table_file::running::run_file;
use ub_table_file::status::{Status, tell, tell_memory};
use ub_words::{Asked, read_words};

/// Runs the program's command line: the words, the first of which is the program's name. All that it writes goes to
/// `out`, but for the notes of a query, which nobody reads. The result is the status with which the program ends: 0 all was done, 1 a
/// statement was refused, 2 the command line was, 3 the data were, 4 a file or the output failed, 5 memory was refused. After a fault
/// the last line tells it, but for a failed write, after which nothing is written. Where the words ask for the help, only the help is
/// written. A table file is changed whole or not at all, and none is made before its table stands in memory.
pub fn command<F: Files, W: Out>(alloc: Global, files: &mut F, words: &[String], out: &mut W) -> u8
    ensures ends { (status : Status) × (result ≡ status_code status)
        × EndsCommand (map string_bytes words.now) (F.facts files.old) (F.facts files.new)
        (F.clock files.old) (F.clock files.new)
        (W.facts out.old) (W.facts out.new) unheard unheard status }
    ensures short { KeepsShortPromise (map string_bytes words.now)
        (F.facts files.old) (F.facts files.new) (W.facts out.old) (W.facts out.new) result }
{
    command_apart(
        alloc,
        files,
        words,
        out,
        &mut Unheard {},
        &mut LastRead::new(alloc),
    )
}

/// Runs the program's command line as `command` does, with a second output. A query writes to `notes` all that tells of its answers, or
/// of a fault, once its answers are written to `out`; no other command writes to `notes`. What a `load` has read last of a text that it
/// refused is left in `last`, for what people are told.
pub fn command_apart<F: Files, W: Out, N: Out>(
    alloc: Global,
    files: &mut F,
    words: &[String],
    out: &mut W,
    notes: &mut N,
    last: &mut LastRead,
) -> u8
    ensures ends { (status : Status) × (result ≡ status_code status)
        × EndsCommand (map string_bytes words.now) (F.facts files.old) (F.facts files.new)
        (F.clock files.old) (F.clock files.new)
        (W.facts out.old) (W.facts out.new) (N.facts notes.old) (N.facts notes.new) status }
    ensures short { KeepsShortPromise (map string_bytes words.now)
        (F.facts files.old) (F.facts files.new) (W.facts out.old) (W.facts out.new) result }
{
    run_words(alloc, files, words, out, notes, last).code()
}

// An output that nobody reads: it takes all that is written to it.
#[derive(Drop)]
struct Unheard {}

impl Out for Unheard {
    ghost facts = { λ _. unheard };

    fn write(&mut self, bytes: &[u8]) -> Result<usize, OutFault> {
        Ok(bytes.len())
    }
}

// Runs the command that the words name.
fn run_words<F: Files, W: Out, N: Out>(
    alloc: Global,
    files: &mut F,
    words: &[String],
    out: &mut W,
    notes: &mut N,
    last: &mut LastRead,
) -> Status
    ensures { EndsCommand (map string_bytes words.now) (F.facts files.old) (F.facts files.new)
        (F.clock files.old) (F.clock files.new)
        (W.facts out.old) (W.facts out.new) (N.facts notes.old) (N.facts notes.new) result }
{
    match read_words(alloc, words) {
        Ok(Asked::Load(asked)) => load_file(alloc, files, asked, out, last),
        Ok(Asked::Run(asked)) => run_file(alloc, files, asked, out),
        Ok(Asked::Query(asked)) => query_file(alloc, files, asked, out, notes),
        Ok(Asked::Append(asked)) => append_file(alloc, files, asked, out),
        Ok(Asked::Try(asked)) => try_files(alloc, files, asked, out),
        Ok(Asked::Upgrade(asked)) => upgrade_file(alloc, files, asked, out),
        Ok(Asked::Table(asked)) => ask_file(alloc, files, asked, out),
        Ok(Asked::Next(asked)) => tell_next(alloc, asked.low, asked.high, asked.address, out),
        Ok(Asked::Help(text)) => tell(out, text.as_slice(), Status::Done),
        Ok(Asked::Wrong(text)) => tell(out, text.as_slice(), Status::CommandLine),
        Err(_) => tell_memory(out),
    }
}
