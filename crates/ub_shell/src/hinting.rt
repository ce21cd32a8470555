//! What is told beside a refusal: the files that the command line named are read again, but for a CSV file that was to be loaded, and
//! left as they are.

ghost use Rattle.ub_shell.specs.Unchanged.{AreLeft};

use crate::reading::{ask_schema, read_text};
use std::alloc::Global;
use ub_files::Files;
use ub_hints::{Found, named_by, text_on};
use ub_load::LastRead;
use ub_script::{Out, put_all};
use ub_words::{Asked, read_words};

// The statuses beside which something is told: a statement was refused, or the data were.
const REFUSED: u8 = 1;

const DATA: u8 = 3;

/// Tells people of what was refused, after the command line of these words has ended with this status: of a CSV file the first thing
/// that is wrong, of statements the first that were refused. `last` is what was read last of a CSV file that was to be loaded. What else
/// the words name is read again, but for standard input, of which `input` is what was kept. Where it can't be read, or memory is
/// refused, nothing is told. Nothing is promised of the text; but no file is changed, and all that is told goes to `to`.
pub fn hint<F: Files, W: Out>(
    alloc: Global,
    files: &mut F,
    words: &[String],
    last: &LastRead,
    input: Option<&[u8]>,
    status: u8,
    to: &mut W,
)
    ensures left { AreLeft (F.facts files.old) (F.facts files.new)
        (F.clock files.old) (F.clock files.new) }
{
    if !is_refusal(status) {
        return;
    }
    if let Ok(asked) = read_words(alloc, words) {
        hint_on(alloc, files, &asked, last, input, to);
    }
}

// Whether this is the status of a refusal of which something is told.
fn is_refusal(status: u8) -> bool {
    status == REFUSED || status == DATA
}

// Tells of what was refused of what was asked.
fn hint_on<F: Files, W: Out>(
    alloc: Global,
    files: &mut F,
    asked: &Asked<'_>,
    last: &LastRead,
    input: Option<&[u8]>,
    to: &mut W,
)
    ensures left { AreLeft (F.facts files.old) (F.facts files.new)
        (F.clock files.old) (F.clock files.new) }
{
    let named = named_by(asked);
    let data = read_text(alloc, files, named.data, input);
    let script = read_text(alloc, files, named.script, input);
    let schema = ask_schema(alloc, files, named.table);
    let found = Found {
        last,
        data,
        script,
        schema,
    };
    tell_found(alloc, asked, &found, to);
}

// Writes what is told of what was asked.
fn tell_found<W: Out>(alloc: Global, asked: &Asked<'_>, found: &Found<'_>, to: &mut W) {
    if let Ok(text) = text_on(alloc, asked, found) {
        let _ = put_all(to, text.as_bytes());
    }
}
