ghost use Rattle.std.specs.Prelude.{◌≡◌, ℕ, MatchResult, map, string_bytes};
ghost use Rattle.ub_script.specs.Output.{out_facts};
ghost use Rattle.ub_shell.specs.Ending.{words_fault_status, words_fault_text};
ghost use Rattle.ub_shell.specs.Program.{EndsCommand, EndsUnread};
ghost use Rattle.ub_shell.specs.Short.{KeepsShortPromise};
ghost use Rattle.ub_table_file.specs.Status.{Tells, status_code};
ghost use Rattle.ub_table_file.specs.declared.status.Status.{Status};

use crate::command::command_apart;
use std::alloc::Global;
use std::io::Write;
use std::rt::Env;
use std::{env, io};
use ub_files::Files;
use ub_load::LastRead;
use ub_script::{Out, Over};
use ub_table_file::status::{Status, tell, tell_memory};

/// Why the words of the program's command line were not read.
#[derive(Clone, Copy, PartialEq, Eq, Debug)]
pub enum WordsFault {
    /// One of them is no text in UTF-8.
    NotText,
    /// The memory for them was refused.
    Memory,
}

/// The words of the program's command line, the first of which is the program's name.
pub fn program_words<R: Env + AllocGlobal>(rt: &R) -> Result<Vec<String>, WordsFault> {
    match env::args(rt) {
        Ok(words) => match words.collect::<Vec<String>>(rt.alloc()) {
            Ok(words) => Ok(words),
            Err(_) => Err(WordsFault::Memory),
        },
        Err(error) => match error.kind() {
            io::ErrorKind::OutOfMemory => Err(WordsFault::Memory),
            _ => Err(WordsFault::NotText),
        },
    }
}

/// The whole program but for what touches the process: runs the command line of these words as `command_apart` does, over these files
/// and two writers with no buffer before them, and gives the status and the writers back. Words that were not read are told. What a
/// `load` has read last of a text that it refused is left in `last`, for `hint`.
pub fn run_program<F: Files, W: Write, N: Write>(
    alloc: Global,
    files: &mut F,
    words: Result<Vec<String>, WordsFault>,
    to: W,
    notes: N,
    last: &mut LastRead,
) -> (u8, W, N)
    ensures ends { (status : Status) × (failures : ℕ) × (unnoted : ℕ)
        × (result.0 ≡ status_code status) × MatchResult words
        (λ all. EndsCommand (map string_bytes all.items) (F.facts files.old) (F.facts files.new)
        (F.clock files.old) (F.clock files.new)
        (out_facts (W.contents to) 0) (out_facts (W.contents result.1) failures)
        (out_facts (N.contents notes) 0) (out_facts (N.contents result.2) unnoted) status)
        (λ fault. EndsUnread fault (F.facts files.old) (F.facts files.new)
        (F.clock files.old) (F.clock files.new)
        (out_facts (W.contents to) 0) (out_facts (W.contents result.1) failures)
        (out_facts (N.contents notes) 0) (out_facts (N.contents result.2) unnoted) status) }
    ensures short { (failures : ℕ) × MatchResult words
        (λ all. KeepsShortPromise (map string_bytes all.items)
        (F.facts files.old) (F.facts files.new)
        (out_facts (W.contents to) 0) (out_facts (W.contents result.1) failures) result.0)
        (λ fault. Unit {0}) }
{
    let mut out = Over::new(to);
    let mut noted = Over::new(notes);
    let code = run_or_tell(alloc, files, words, &mut out, &mut noted, last);
    (code, out.into_inner(), noted.into_inner())
}

// Runs the command line of these words, or tells that they were not read.
fn run_or_tell<F: Files, W: Out, N: Out>(
    alloc: Global,
    files: &mut F,
    words: Result<Vec<String>, WordsFault>,
    out: &mut W,
    notes: &mut N,
    last: &mut LastRead,
) -> u8
    ensures ends { (status : Status) × (result ≡ status_code status) × MatchResult words
        (λ all. EndsCommand (map string_bytes all.items) (F.facts files.old) (F.facts files.new)
        (F.clock files.old) (F.clock files.new)
        (W.facts out.old) (W.facts out.new) (N.facts notes.old) (N.facts notes.new) status)
        (λ fault. EndsUnread fault (F.facts files.old) (F.facts files.new)
        (F.clock files.old) (F.clock files.new)
        (W.facts out.old) (W.facts out.new) (N.facts notes.old) (N.facts notes.new) status) }
    ensures short { MatchResult words
        (λ all. KeepsShortPromise (map string_bytes all.items)
        (F.facts files.old) (F.facts files.new) (W.facts out.old) (W.facts out.new) result)
        (λ fault. Unit {0}) }
{
    match words {
        Ok(words) => command_apart(alloc, files, words.as_slice(), out, notes, last),
        Err(fault) => tell_no_words(fault, out).code(),
    }
}

// Ends a command line whose words were not read.
fn tell_no_words<W: Out>(fault: WordsFault, out: &mut W) -> Status
    ensures { Tells (W.facts out.old) (W.facts out.new)
        (words_fault_text fault) (words_fault_status fault) result }
{
    match fault {
        WordsFault::Memory => tell_memory(out),
        WordsFault::NotText => tell(
            out,
            b"error: the words of the command line are not all text in UTF-8\n",
            Status::CommandLine,
        ),
    }
}
