ghost use Rattle.std.specs.Prelude.{◌≡◌, ◌≤◌, ◌∷◌, if◌then◌else◌, drop, length, not, take, OnErr, OnOk};
ghost use Rattle.ub_script.specs.Output.{Breaks, Puts};
ghost use Rattle.ub_script.specs.Parts.{answers_in, is_note, lines_of, notes_in};
ghost use Rattle.ub_table_file.specs.Queried.{Notes, Shows};

use crate::status::Status;
use ub_script::{Out, OutFault, put_all};

/// Writes the answers of a text, and then its notes to the other output: the lines that tell of an answer or of a fault. It ends with
/// the status, or with `Device` where a write of the answers fails, and then no note is written. A write of a note that fails is not
/// told.
pub fn write_parts<W: Out, N: Out>(text: &[u8], ended: Status, out: &mut W, notes: &mut N) -> Status
    ensures { Shows text.now ended (W.facts out.old) (W.facts out.new)
        (N.facts notes.old) (N.facts notes.new) result }
{
    match put_lines(out, text, false) {
        Ok(()) => {
            note_lines(notes, text);
            ended
        }
        Err(_) => Status::Device,
    }
}

// Notes the notes of a text.
fn note_lines<N: Out>(notes: &mut N, text: &[u8])
    ensures { Notes (notes_in text.now) (N.facts notes.old) (N.facts notes.new) }
{
    let _ = put_lines(notes, text, true);
}

/// Notes bytes: writes all of them, or a front of them where a write fails, which is not told.
pub fn note<N: Out>(notes: &mut N, bytes: &[u8])
    ensures { Notes bytes.now (N.facts notes.old) (N.facts notes.new) }
{
    let _ = put_all(notes, bytes);
}

// Writes the lines of a text that are notes, or those that aren't; those that stand together at once.
fn put_lines<W: Out>(out: &mut W, text: &[u8], are_notes: bool) -> Result<(), OutFault>
    ensures whole { OnOk result (Puts (if are_notes then notes_in text.now else answers_in text.now)
        (W.facts out.old) (W.facts out.new)) }
    ensures front { OnErr result (Breaks
        (if are_notes then notes_in text.now else answers_in text.now)
        (W.facts out.old) (W.facts out.new)) }
{
    let mut from = 0usize;
    let mut at = 0usize;
    while at < text.len() {
        let end = at + line_length(&text[at..]);
        if is_wanted(&text[at..end], are_notes) {
            at = end;
        } else {
            put_all(out, &text[from..at])?;
            from = end;
            at = end;
        }
    }
    put_all(out, &text[from..])
}

// How many bytes the first line of a text has, with its line feed, if it has one.
fn line_length(text: &[u8]) -> usize
    requires { 1 ≤ length text.now }
    ensures some { 1 ≤ result }
    ensures within { result ≤ length text.now }
    ensures first { lines_of text.now ≡ take result text.now ∷ lines_of (drop result text.now) }
{
    let mut at = 0usize;
    while at < text.len() {
        if text[at] == b'\n' {
            return at + 1;
        }
        at += 1;
    }
    at
}

// Whether a line is a note where notes are wanted, or none where answers are.
fn is_wanted(line: &[u8], are_notes: bool) -> bool
    ensures { result ≡ (if are_notes then is_note line.now else not (is_note line.now)) }
{
    is_note(line) == are_notes
}

// Whether a line tells of an answer or of a fault.
fn is_note(line: &[u8]) -> bool
    ensures { result ≡ is_note line.now }
{
    line.starts_with(b"-- ") || line.starts_with(b"! ")
}
