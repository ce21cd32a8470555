ghost use Rattle.std.specs.Prelude.{◌≡◌, ◌↔◌, ℕ, IsTrue, List, Some, codes, map, string_bytes, IfOk};
ghost use Rattle.clap.specs.Words.{HasKind, fault_of, found_of, rows_of, subcommand_rows_of};
ghost use Rattle.ub_words.specs.Asked.{AreLines, IsAskedBy};
ghost use Rattle.ub_words.specs.CommandLine.{AsksNothing, IsTaken, standard_input, table_name, ubq_app};

use crate::builder::program;
use crate::given::{
    AppendWords, LoadWords, NextWords, QueryWords, RunWords, TableCommand, TableWords, TryWords,
    UpgradeWords, command_found, load_words, next_words, text_given, texts_given, three_after_next,
    try_words,
};
use clap::ArgMatches;
use clap::error::ErrorKind;
use std::alloc::{AllocError, Global};

/// The path that means standard input.
pub const STANDARD_INPUT: &str = "-";

/// What the words of a command line ask for.
#[derive(Drop)]
pub enum Asked<'a> {
    /// A run of a script on the table of a CSV file.
    Try(TryWords<'a>),
    /// A CSV file to be loaded into a table file.
    Load(LoadWords<'a>),
    /// A run of a script on a table file.
    Run(RunWords<'a>),
    /// A run of statements on a table file, whose answers go out apart from what tells of them.
    Query(QueryWords<'a>),
    /// The rows of a CSV file to be put into a table file, behind its own.
    Append(AppendWords<'a>),
    /// A table file of an older version to be made anew.
    Upgrade(UpgradeWords<'a>),
    /// Something of a table file alone.
    Table(TableWords<'a>),
    /// The addresses of a box that are nearest to one.
    Next(NextWords<'a>),
    /// The help or the version: this is its text.
    Help(Vec<u8>),
    /// None of these: this text says what is wrong with the words.
    Wrong(Vec<u8>),
}

/// What the words of a command line ask for, the first of which is the program's name. `AllocError` only where memory is
/// refused.
pub fn read_words<'a>(alloc: Global, words: &'a [String]) -> Result<Asked<'a>, AllocError>
    ensures { IfOk result (IsAskedBy (map string_bytes words.now)) }
{
    match Box::into_inner(program(alloc)?).try_get_matches_from(words) {
        Ok(matches) => asked_by_matches(alloc, &matches),
        Err(error) => asked_by_refused(alloc, words, &error),
    }
}

// What words ask for that `clap` takes.
fn asked_by_matches<'a>(alloc: Global, matches: &ArgMatches<'a>) -> Result<Asked<'a>, AllocError>
    ensures { (words : List (List ℕ)) → IsTaken words (subcommand_rows_of matches.now)
        → IfOk result (IsAskedBy words) }
{
    match command_found(matches) {
        Some((name, found)) => asked_by_command(alloc, name, found),
        None => no_command(alloc),
    }
}

// What words ask for that name a command.
fn asked_by_command<'a>(
    alloc: Global,
    name: &str,
    found: &ArgMatches<'a>,
) -> Result<Asked<'a>, AllocError>
    ensures { (words : List (List ℕ)) → IsTaken words (Some (name.now, rows_of (found_of found.now)))
        → IfOk result (IsAskedBy words) }
{
    match name {
        "load" => asked_by_load(alloc, found),
        "run" => asked_by_run(alloc, found),
        "query" => asked_by_query(alloc, found),
        "append" => asked_by_append(alloc, found),
        "try" => asked_by_try(alloc, found),
        "upgrade" => asked_by_upgrade(alloc, found),
        "describe" => asked_by_table(alloc, TableCommand::Describe, found),
        "check" => asked_by_table(alloc, TableCommand::Check, found),
        "next" => asked_by_next(alloc, found),
        _ => no_command(alloc),
    }
}

// What words ask for that name the command `load`.
fn asked_by_load<'a>(alloc: Global, found: &ArgMatches<'a>) -> Result<Asked<'a>, AllocError>
    ensures { (words : List (List ℕ)) → IsTaken words (Some (codes "load", rows_of (found_of found.now)))
        → IfOk result (IsAskedBy words) }
{
    match load_words(found) {
        Some(asked) => Ok(Asked::Load(asked)),
        None => no_command(alloc),
    }
}

// What words ask for that name the command `run`.
fn asked_by_run<'a>(alloc: Global, found: &ArgMatches<'a>) -> Result<Asked<'a>, AllocError>
    ensures { (words : List (List ℕ)) → IsTaken words (Some (codes "run", rows_of (found_of found.now)))
        → IfOk result (IsAskedBy words) }
{
    match texts_given(found, "TABLE", "SCRIPT") {
        Some((table, script)) => Ok(Asked::Run(RunWords { table, script })),
        None => no_command(alloc),
    }
}

// What words ask for that name the command `query`.
fn asked_by_query<'a>(alloc: Global, found: &ArgMatches<'a>) -> Result<Asked<'a>, AllocError>
    ensures { (words : List (List ℕ))
        → IsTaken words (Some (codes "query", rows_of (found_of found.now)))
        → IfOk result (IsAskedBy words) }
{
    match texts_given(found, "TABLE", "STATEMENTS") {
        Some((table, statements)) => Ok(Asked::Query(QueryWords { table, statements })),
        None => no_command(alloc),
    }
}

// What words ask for that name the command `append`.
fn asked_by_append<'a>(alloc: Global, found: &ArgMatches<'a>) -> Result<Asked<'a>, AllocError>
    ensures { (words : List (List ℕ))
        → IsTaken words (Some (codes "append", rows_of (found_of found.now)))
        → IfOk result (IsAskedBy words) }
{
    match texts_given(found, "TABLE", "DATA") {
        Some((table, data)) => Ok(Asked::Append(AppendWords { table, data })),
        None => no_command(alloc),
    }
}

// What words ask for that name the command `try`. There is one standard input, so that it can't be both files.
fn asked_by_try<'a>(alloc: Global, found: &ArgMatches<'a>) -> Result<Asked<'a>, AllocError>
    ensures { (words : List (List ℕ)) → IsTaken words (Some (codes "try", rows_of (found_of found.now)))
        → IfOk result (IsAskedBy words) }
{
    match try_words(found) {
        Some(asked) if reads_input_twice(&asked) => {
            wrong(alloc, "error: DATA and SCRIPT are both standard input")
        }
        Some(asked) => Ok(Asked::Try(asked)),
        None => no_command(alloc),
    }
}

// Whether both files are standard input.
fn reads_input_twice(asked: &TryWords<'_>) -> bool
    ensures { IsTrue result ↔ ((asked.now.source.path.now ≡ standard_input)
        × (asked.now.script.now ≡ standard_input)) }
{
    asked.source.path == STANDARD_INPUT && asked.script == STANDARD_INPUT
}

// What words ask for that name the command `upgrade`.
fn asked_by_upgrade<'a>(alloc: Global, found: &ArgMatches<'a>) -> Result<Asked<'a>, AllocError>
    ensures { (words : List (List ℕ)) → IsTaken words (Some (codes "upgrade", rows_of (found_of found.now)))
        → IfOk result (IsAskedBy words) }
{
    match texts_given(found, "OLD", "NEW") {
        Some((old, new)) => Ok(Asked::Upgrade(UpgradeWords { old, new })),
        None => no_command(alloc),
    }
}

// What words ask for that name a command whose words are a table file alone.
fn asked_by_table<'a>(
    alloc: Global,
    command: TableCommand,
    found: &ArgMatches<'a>,
) -> Result<Asked<'a>, AllocError>
    ensures { (words : List (List ℕ))
        → IsTaken words (Some (table_name command, rows_of (found_of found.now)))
        → IfOk result (IsAskedBy words) }
{
    match text_given(found, "TABLE") {
        Some(table) => Ok(Asked::Table(TableWords { command, table })),
        None => no_command(alloc),
    }
}

// What words ask for that name the command `next`.
fn asked_by_next<'a>(alloc: Global, found: &ArgMatches<'a>) -> Result<Asked<'a>, AllocError>
    ensures { (words : List (List ℕ)) → IsTaken words (Some (codes "next", rows_of (found_of found.now)))
        → IfOk result (IsAskedBy words) }
{
    match next_words(found) {
        Some(asked) => Ok(Asked::Next(asked)),
        None => no_command(alloc),
    }
}

// What is told of words that are none of the commands, which `clap` does not let through.
fn no_command<'a>(alloc: Global) -> Result<Asked<'a>, AllocError>
    ensures { (words : List (List ℕ)) → AsksNothing words → IfOk result (IsAskedBy words) }
{
    wrong(alloc, "error: no such command")
}

// Words that ask for nothing, and what is told of them on a line.
fn wrong<'a>(alloc: Global, message: &str) -> Result<Asked<'a>, AllocError>
    ensures { (words : List (List ℕ)) → AsksNothing words → IfOk result (IsAskedBy words) }
{
    Ok(Asked::Wrong(line(alloc, message)?))
}

// A text, with a line feed at its end.
fn line(alloc: Global, text: &str) -> Result<Vec<u8>, AllocError>
    ensures { IfOk result (λ line. AreLines line.items) }
{
    let mut line = Vec::from_slice(alloc, text.as_bytes())?;
    line.push(b'\n')?;
    Ok(line)
}

// What words ask for that `clap` refuses, or that ask for the help or the version. Three words after `next` ask for
// neighbours, even if one of them begins as an option does.
fn asked_by_refused<'a>(
    alloc: Global,
    words: &'a [String],
    error: &clap::Error,
) -> Result<Asked<'a>, AllocError>
    ensures { HasKind (fault_of ubq_app (map string_bytes words.now)) error.now
        → IfOk result (IsAskedBy (map string_bytes words.now)) }
{
    match error.kind() {
        ErrorKind::OutOfMemory => Err(AllocError),
        ErrorKind::DisplayHelp | ErrorKind::DisplayVersion => {
            Ok(Asked::Help(usage_lines(alloc, error)?))
        }
        _ => match three_after_next(words) {
            Some(asked) => Ok(Asked::Next(asked)),
            None => Ok(Asked::Wrong(usage_lines(alloc, error)?)),
        },
    }
}

// The text of `clap`, with a line feed at its end.
fn usage_lines(alloc: Global, error: &clap::Error) -> Result<Vec<u8>, AllocError>
    ensures { IfOk result (λ text. AreLines text.items) }
{
    let text = format!(in alloc; "{error}")?;
    line(alloc, text.trim_end())
}
