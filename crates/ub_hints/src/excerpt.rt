//! A line of a script, with a mark below a place in it.

use crate::shown::put_shown;
use crate::told::Told;

// The most bytes that are shown of a line before the mark, and from it on.
const MOST_BEFORE: usize = 60;

const MOST_AFTER: usize = 60;

// What stands before a line that is shown, and before its mark.
const MARGIN: &str = "    ";

/// A place in a text: the number of its line, from 1, what stands in that line before it, and what from it on.
#[derive(Clone, Copy)]
pub(crate) struct Spot<'a> {
    pub(crate) line: usize,
    before: &'a [u8],
    after: &'a [u8],
}

impl<'a> Spot<'a> {
    /// The place at this offset of a text, or at its end.
    pub(crate) fn at(text: &'a [u8], offset: usize) -> Spot<'a> {
        let before = text.get(..offset).unwrap_or(text);
        let after = text.get(offset..).unwrap_or(&[]);
        let start = line_start(before);
        Spot {
            line: count_of(before, b'\n').saturating_add(1),
            before: before.get(start..).unwrap_or(before),
            after: after.get(..line_end(after)).unwrap_or(after),
        }
    }

    /// The number of its column, from 1: characters of UTF-8 are counted.
    pub(crate) fn column(&self) -> usize {
        width_of(self.before).saturating_add(1)
    }

    /// Puts the line, and another one with a mark below the place.
    pub(crate) fn put_lines(&self, text: &mut Told) {
        let from = first_shown(self.before);
        let shown = self.before.get(from..).unwrap_or(self.before);
        let cut = if from > 0 { "..." } else { "" };
        text.push_str(MARGIN);
        text.push_str(cut);
        put_shown(text, shown, MOST_BEFORE);
        put_shown(text, self.after, MOST_AFTER);
        text.push('\n');
        put_mark(text, cut.len().saturating_add(width_of(shown)));
    }
}

// Puts a line with a mark behind so many blanks.
fn put_mark(text: &mut Told, blanks: usize) {
    text.push_str(MARGIN);
    for _ in 0..blanks {
        text.push(' ');
    }
    text.push_str("^\n");
}

// Where the last line of a text begins.
fn line_start(text: &[u8]) -> usize {
    let mut start = 0usize;
    for (i, byte) in text.iter().enumerate() {
        if *byte == b'\n' {
            start = i.saturating_add(1);
        }
    }
    start
}

// Where the first line of a text ends.
fn line_end(text: &[u8]) -> usize {
    for (i, byte) in text.iter().enumerate() {
        if *byte == b'\n' || *byte == b'\r' {
            return i;
        }
    }
    text.len()
}

// Where what is shown of the front of a line begins: at its last bytes, and not within a character.
fn first_shown(front: &[u8]) -> usize {
    let least = front.len().saturating_sub(MOST_BEFORE);
    for (i, byte) in front.iter().enumerate() {
        if i >= least && !is_within(*byte) {
            return i;
        }
    }
    front.len()
}

// How many characters a text has, if it is UTF-8.
fn width_of(text: &[u8]) -> usize {
    let mut width = 0usize;
    for byte in text {
        if !is_within(*byte) {
            width = width.saturating_add(1);
        }
    }
    width
}

// Whether a byte of UTF-8 goes on with a character.
fn is_within(byte: u8) -> bool {
    byte & 0xc0 == 0x80
}

/// How often a byte stands in a text.
pub(crate) fn count_of(text: &[u8], wanted: u8) -> usize {
    let mut count = 0usize;
    for byte in text {
        if *byte == wanted {
            count = count.saturating_add(1);
        }
    }
    count
}
