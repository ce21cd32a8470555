//! Which statements of a script were refused, and why.

ghost use Rattle.ub_lexer.specs.Tokens.{AreSpelled};

use crate::advice::{Around, advice_on, bytes_of};
use crate::data::put_other_case;
use crate::excerpt::Spot;
use crate::names::{put_columns, put_quoted_name};
use crate::shown::{put_path, put_quoted};
use crate::told::Told;
use std::alloc::{AllocError, Global};
use ub_lexer::{Token, lex, statements};
use ub_parser::{SqlFault, parse};
use ub_table::Schema;

// The most statements of a script of which something is told.
const MOST_HINTS: usize = 5;

// A script: the file in which it stands, or no path, and the table on which it ran.
#[derive(Clone, Copy)]
struct Script<'a> {
    path: &'a str,
    text: &'a [u8],
    schema: &'a Schema,
}

// One of its statements, and where it begins in it.
#[derive(Clone, Copy)]
struct Piece<'a> {
    start: usize,
    text: &'a [u8],
}

/// What is told of the first statements of a script that a table of this schema refuses; nothing where it refuses none.
pub(crate) fn statement_hints(
    alloc: Global,
    path: &str,
    text: &[u8],
    schema: &Schema,
) -> Result<String, AllocError> {
    let script = Script { path, text, schema };
    let tokens = lex(alloc, text)?;
    let ranges = statements(alloc, &tokens)?;
    let mut told = Told::new(alloc);
    let mut left = MOST_HINTS;
    for range in &ranges {
        if left > 0 && put_hint(alloc, &mut told, script, piece_at(text, &tokens, *range))? {
            left = left.saturating_sub(1);
        }
    }
    told.whole()
}

// The statement of this range of a script's tokens.
fn piece_at<'a>(text: &'a [u8], tokens: &[Token], range: (usize, usize)) -> Piece<'a> {
    let tokens = tokens.get(range.0..range.1).unwrap_or(&[]);
    match (tokens.first(), tokens.last()) {
        (Some(first), Some(last)) => Piece {
            start: first.from,
            text: text.get(first.from..last.to).unwrap_or(&[]),
        },
        _ => Piece {
            start: 0,
            text: &[],
        },
    }
}

// Puts what is told of a statement, if it is refused, and says whether it is.
fn put_hint(
    alloc: Global,
    told: &mut Told,
    script: Script<'_>,
    piece: Piece<'_>,
) -> Result<bool, AllocError> {
    let tokens = lex(alloc, piece.text)?;
    match refusal(alloc, piece.text, &tokens, script.schema) {
        Some(fault) => Ok(put_refusal(told, script, piece, &tokens, fault)),
        None => Ok(false),
    }
}

// Why a statement is refused, if it is.
fn refusal(alloc: Global, text: &[u8], tokens: &[Token], schema: &Schema) -> Option<SqlFault>
    requires spelled { AreSpelled text.now tokens.now }
{
    if tokens.is_empty() {
        return None;
    }
    match parse(alloc, text, tokens, schema) {
        Ok(_) => None,
        Err(fault) => Some(fault),
    }
}

// Puts what is told of a refusal, if it has a place, and says whether it has.
fn put_refusal(
    told: &mut Told,
    script: Script<'_>,
    piece: Piece<'_>,
    tokens: &[Token],
    fault: SqlFault,
) -> bool {
    let Some(at) = offset_of(fault) else {
        return false;
    };
    let around = Around::of(tokens, at);
    let spot = Spot::at(script.text, piece.start.saturating_add(at));
    put_path(told, script.path);
    put_spot(told, &spot);
    put_reason(told, piece.text, &around, script.schema, fault);
    told.push('\n');
    spot.put_lines(told);
    put_advice(told, advice_on(piece.text, &around, fault));
    true
}

// Where a refusal is seen.
fn offset_of(fault: SqlFault) -> Option<usize> {
    match fault {
        SqlFault::BadByte { at }
        | SqlFault::Syntax { at }
        | SqlFault::NumberTooLarge { at }
        | SqlFault::TooDeep { at }
        | SqlFault::TooMany { at }
        | SqlFault::UnknownTable { at }
        | SqlFault::UnknownColumn { at }
        | SqlFault::NotGrouped { at }
        | SqlFault::NotSelected { at }
        | SqlFault::ValueCount { at }
        | SqlFault::ValueRange { at } => Some(at),
        SqlFault::Memory => None,
    }
}

// Puts a place in a script.
fn put_spot(told: &mut Told, spot: &Spot<'_>) {
    told.push_str("line ");
    told.push_number(spot.line);
    told.push_str(", column ");
    told.push_number(spot.column());
    told.push_str(": ");
}

// Puts why a statement is refused, by the token at which it is.
fn put_reason(told: &mut Told, text: &[u8], around: &Around, schema: &Schema, fault: SqlFault) {
    match around.there {
        Some(token) => {
            let word = bytes_of(text, &token);
            put_quoted(told, word);
            put_reason_on(told, word, schema, fault);
        }
        None => told.push_str("the statement isn't complete"),
    }
}

// Puts what is wrong with this word.
fn put_reason_on(told: &mut Told, word: &[u8], schema: &Schema, fault: SqlFault) {
    match fault {
        SqlFault::UnknownTable { .. } => {
            told.push_str(" isn't the table, which is named ");
            put_quoted_name(told, schema.name());
        }
        SqlFault::UnknownColumn { .. } => {
            told.push_str(" is no column: the table has ");
            put_columns(told, schema);
            put_other_case(told, schema, word);
        }
        SqlFault::ValueCount { .. } => {
            told.push_str(": one value is wanted for each of ");
            put_columns(told, schema);
        }
        fault => told.push_str(reason(fault)),
    }
}

// What is wrong with the word at which a statement is refused, where that is told without the table.
fn reason(fault: SqlFault) -> &'static str {
    match fault {
        SqlFault::BadByte { .. } => " is no sign of the language",
        SqlFault::NumberTooLarge { .. } => " is above 18446744073709551615",
        SqlFault::TooDeep { .. } => " stands in more than 64 parentheses and NOTs",
        SqlFault::TooMany { .. } =>
            " is one too many: 64 comparisons, 8 items, 8 columns of groups, 8 of the order",
        SqlFault::NotGrouped { .. } => " must stand in GROUP BY, or in COUNT, SUM, MIN or MAX",
        SqlFault::NotSelected { .. } => " must be one of the items that are selected",
        SqlFault::ValueRange { .. } => ": its column can't hold this value",
        _ => " can't stand here",
    }
}

// Puts what to write instead on a line, if anything is known.
fn put_advice(told: &mut Told, advice: Option<&str>) {
    if let Some(advice) = advice {
        told.push_str("    ");
        told.push_str(advice);
        told.push('\n');
    }
}
