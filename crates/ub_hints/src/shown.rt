//! How bytes of a file are shown to people.

use crate::told::Told;
use std::str;
use ub_words::STANDARD_INPUT;

/// The most characters that are shown of one text.
pub(crate) const MOST_SHOWN: usize = 60;

// The most characters that are shown of a path.
const MOST_PATH: usize = 250;

/// Puts the front of a line: the program's name, and the file of which it tells, if it is one.
pub(crate) fn put_path(line: &mut Told, path: &str) {
    line.push_str("ubq: ");
    if path.is_empty() {
        return;
    }
    if path == STANDARD_INPUT {
        line.push_str("standard input");
    } else {
        put_shown(line, path.as_bytes(), MOST_PATH);
    }
    line.push_str(": ");
}

/// Puts bytes as people read them, in quotes: at most so many characters, and blanks where a character can't be printed.
pub(crate) fn put_quoted(line: &mut Told, bytes: &[u8]) {
    line.push('\'');
    put_shown(line, bytes, MOST_SHOWN);
    line.push('\'');
}

/// Puts the first characters of bytes, at most so many, and three full stops where there are more.
pub(crate) fn put_shown(line: &mut Told, bytes: &[u8], most: usize) {
    match str::from_utf8(bytes) {
        Ok(text) => put_characters(line, text, most),
        Err(_) => put_bytes(line, bytes, most),
    }
}

// The same of a text.
fn put_characters(line: &mut Told, text: &str, most: usize) {
    for c in text.chars().take(most) {
        line.push(printed(c));
    }
    put_more(line, text.chars().count() > most);
}

// The same of bytes that are no text: each that isn't a letter, a digit or a sign of ASCII is a question mark.
fn put_bytes(line: &mut Told, bytes: &[u8], most: usize) {
    for byte in bytes.iter().take(most) {
        line.push(if byte.is_ascii() {
            printed(char::from(*byte))
        } else {
            '?'
        });
    }
    put_more(line, bytes.len() > most);
}

// Puts the sign that there is more.
fn put_more(line: &mut Told, is_more: bool) {
    if is_more {
        line.push_str("...");
    }
}

// A character as it is printed: a blank for each that moves the cursor.
fn printed(c: char) -> char {
    if c.is_control() { ' ' } else { c }
}
