//! What to write in place of what other databases have.

use ub_lexer::{Token, TokenKind};
use ub_parser::SqlFault;

// Words that aren't there, and what to write.
static WORDS: [(&str, &str); 16] = [
    ("AVG", "there is no AVG: ask SUM and COUNT, and divide"),
    ("IN", "there is no IN: write x = 1 OR x = 2"),
    (
        "HAVING",
        "there is no HAVING: leave groups out when they are read",
    ),
    (
        "DISTINCT",
        "there is no DISTINCT: GROUP BY gives each value once",
    ),
    ("OFFSET", "there is no OFFSET: LIMIT gives the first rows"),
    ("LIKE", "there is no LIKE: a table has whole numbers alone"),
    ("AS", "there is no AS: a column is titled as it is asked"),
    ("IS", "there is no IS: no value is missing"),
    ("NULL", "there is no NULL: no value is missing"),
    ("JOIN", "there is no JOIN: one table is asked"),
    ("UNION", "there is no UNION: write two statements"),
    (
        "UPDATE",
        "there is no UPDATE: DELETE the row, and INSERT it anew",
    ),
    ("CREATE", "there is no CREATE: ubq load makes a table"),
    ("DROP", "there is no DROP: a table is a file"),
    (
        "BEGIN",
        "there is no BEGIN: a run is kept whole, or not at all",
    ),
    (
        "COMMIT",
        "there is no COMMIT: a run is kept whole, or not at all",
    ),
];

/// What to write in place of the token at which a statement was refused, if anything is known: by that token, and the one before it.
pub(crate) fn advice_on(text: &[u8], around: &Around, fault: SqlFault) -> Option<&'static str> {
    let there = around.there?;
    match fault {
        SqlFault::BadByte { .. } => advice_on_byte(bytes_of(text, &there)),
        SqlFault::Syntax { .. } => advice_on_token(text, around.before, there),
        _ => None,
    }
}

// The same where no statement goes on with that token.
fn advice_on_token(text: &[u8], before: Option<Token>, there: Token) -> Option<&'static str> {
    match advice_on_word(bytes_of(text, &there)) {
        Some(advice) => Some(advice),
        None => advice_before(text, before?, there),
    }
}

/// The token at which a statement was refused, and the one before it.
#[derive(Clone, Copy)]
pub(crate) struct Around {
    pub(crate) before: Option<Token>,
    pub(crate) there: Option<Token>,
}

impl Around {
    /// The tokens around this offset.
    pub(crate) fn of(tokens: &[Token], at: usize) -> Around {
        let mut before = None;
        for token in tokens {
            if token.from >= at {
                return Around {
                    before,
                    there: Some(*token),
                };
            }
            before = Some(*token);
        }
        Around {
            before,
            there: None,
        }
    }
}

/// The bytes of a token.
pub(crate) fn bytes_of<'a>(text: &'a [u8], token: &Token) -> &'a [u8] {
    text.get(token.from..token.to).unwrap_or(&[])
}

// What to write in place of a byte that begins no word.
fn advice_on_byte(bytes: &[u8]) -> Option<&'static str> {
    match bytes {
        [b'\'' | b'"' | b'`'] => Some("names and numbers stand without quotes"),
        [b'+' | b'/' | b'%'] => Some("there is no arithmetic"),
        [b'.'] => Some("there are no decimals, and no table's name stands before a column"),
        _ => None,
    }
}

// What to write in place of a word.
fn advice_on_word(word: &[u8]) -> Option<&'static str> {
    for (name, advice) in &WORDS {
        if name.as_bytes().eq_ignore_ascii_case(word) {
            return Some(advice);
        }
    }
    None
}

// What to write in place of two tokens, at the second of which a statement was refused.
fn advice_before(text: &[u8], before: Token, there: Token) -> Option<&'static str> {
    match (before.kind, there.kind) {
        (TokenKind::Equal, TokenKind::Equal) => Some("write one ="),
        (TokenKind::Number, TokenKind::Minus) => {
            Some("there is no arithmetic, and no date: write the whole number that the table has")
        }
        (TokenKind::Word, TokenKind::Number) if is_before_condition(bytes_of(text, &before)) => {
            Some("the column stands first: write x > 3, not 3 < x")
        }
        (TokenKind::Word, _) => advice_on_word(bytes_of(text, &before)),
        _ => None,
    }
}

// Whether a condition stands behind this word.
fn is_before_condition(word: &[u8]) -> bool {
    for name in &["WHERE", "AND", "OR", "NOT"] {
        if name.as_bytes().eq_ignore_ascii_case(word) {
            return true;
        }
    }
    false
}
