//! What is told beside a refusal, by what the command line named.

ghost use Rattle.std.specs.Prelude.{◌≡◌, option_map};
ghost use Rattle.ub_hints.specs.Naming.{data_named, script_named, table_named};

use crate::data::{appended_hint, loaded_hint, tried_data_hint, tried_schema};
use crate::statements::statement_hints;
use std::alloc::{AllocError, Global};
use ub_load::LastRead;
use ub_table::Schema;
use ub_words::{Asked, DataWords};

/// The paths of what a command line names that is read again for a hint.
#[derive(Clone, Copy)]
pub struct Named<'a> {
    /// Of its CSV file.
    pub data: Option<&'a str>,
    /// Of its script.
    pub script: Option<&'a str>,
    /// Of its table file.
    pub table: Option<&'a str>,
}

/// What was read of that, as far as it could be read, and what the command itself kept.
#[derive(Drop)]
pub struct Found<'a> {
    /// What was read last of the CSV file that was to be loaded.
    pub last: &'a LastRead,
    /// The bytes of the CSV file.
    pub data: Option<Vec<u8>>,
    /// The bytes of the script.
    pub script: Option<Vec<u8>>,
    /// The schema of the table.
    pub schema: Option<Schema>,
}

/// The paths that a command line names of what is read again where it was refused: the CSV file that it tries or appends, the
/// script that it runs or tries, and the table file that this runs over or that rows are appended to. A CSV file that it loads isn't
/// read again, nor a table file that it makes, nor what it only asks for, checks or upgrades.
pub fn named_by<'a>(asked: &Asked<'a>) -> Named<'a>
    ensures csv { option_map (λ path. path.now) result.data ≡ data_named asked.now }
    ensures script { option_map (λ path. path.now) result.script ≡ script_named asked.now }
    ensures table { option_map (λ path. path.now) result.table ≡ table_named asked.now }
{
    match asked {
        Asked::Append(words) => naming(Some(words.data), None, Some(words.table)),
        Asked::Run(words) => naming(None, Some(words.script), Some(words.table)),
        Asked::Query(words) => naming(None, None, Some(words.table)),
        Asked::Try(words) => naming(Some(words.source.path), Some(words.script), None),
        _ => naming(None, None, None),
    }
}

// The record of these paths.
fn naming<'a>(csv: Option<&'a str>, script: Option<&'a str>, table: Option<&'a str>) -> Named<'a>
    ensures { result ≡ record { «data» = csv.entry; script = script.entry; table = table.entry } }
{
    Named {
        data: csv,
        script,
        table,
    }
}

/// What people are told of a command line that was refused, by what was read of the files that it names: of a CSV file the first thing
/// that is wrong, which of one that was to be loaded is the record that was read last; of statements the first that were refused. Empty
/// where there is nothing to tell; AllocError where memory is refused.
pub fn text_on(alloc: Global, asked: &Asked<'_>, found: &Found<'_>) -> Result<String, AllocError> {
    let data = text_in(&found.data);
    let script = text_in(&found.script);
    match (asked, &found.schema) {
        (Asked::Load(words), _) => loaded_hint(alloc, &words.source, found.last),
        (Asked::Try(words), _) => tried_hint(alloc, &words.source, data, words.script, script),
        (Asked::Append(words), Some(schema)) => appended_hint(alloc, words.data, data, schema),
        (Asked::Run(words), Some(schema)) => {
            statement_hints(alloc, words.script, script, schema)
        }
        (Asked::Query(words), Some(schema)) => {
            statement_hints(alloc, "", words.statements.as_bytes(), schema)
        }
        _ => Ok(String::new(alloc)),
    }
}

// A text that was read, or an empty one.
fn text_in(text: &Option<Vec<u8>>) -> &[u8] {
    match text {
        Some(text) => text.as_slice(),
        None => &[],
    }
}

// What is told of a script that was tried on the table of a CSV text: of that, if it was refused, and else of the script.
fn tried_hint(
    alloc: Global,
    source: &DataWords<'_>,
    data: &[u8],
    path: &str,
    script: &[u8],
) -> Result<String, AllocError> {
    let told = tried_data_hint(alloc, source, data)?;
    if !told.is_empty() {
        return Ok(told);
    }
    match tried_schema(alloc, source, data) {
        Some(schema) => statement_hints(alloc, path, script, &schema),
        None => Ok(told),
    }
}
