//! A record of a CSV text, and where it stands.

use crate::excerpt::{Spot, count_of};
use csv::{ByteRecord, Reader, ReaderBuilder};
use std::alloc::Global;

/// Which record of a text is sought: the one of this number, 0 for the header, or the first that has not so many fields.
#[derive(Clone, Copy)]
pub(crate) enum Sought {
    Row(u32),
    OtherLength(usize),
}

impl Sought {
    // Whether it is this record.
    fn is(self, row: u32, fields: &ByteRecord) -> bool {
        match self {
            Sought::Row(number) => row == number,
            Sought::OtherLength(count) => fields.len() != count,
        }
    }
}

/// A record: its number, its fields, and the line in which it begins, where that is known.
#[derive(Drop)]
pub(crate) struct Record {
    pub(crate) row: u32,
    pub(crate) fields: ByteRecord,
    pub(crate) line: usize,
}

impl Record {
    /// The field in this column, from 1, without spaces at its ends; nothing where there is none.
    pub(crate) fn field(&self, column: u32) -> &[u8] {
        let place = (column as usize).saturating_sub(1);
        trimmed(self.fields.get(place).unwrap_or(&[]))
    }
}

/// The record that is sought in a text, if it is there and could be read.
pub(crate) fn find_record(alloc: Global, text: &[u8], sought: Sought) -> Option<Record> {
    let text = without_mark(text);
    let mut fields = ByteRecord::new(alloc);
    let row = read_up_to(&mut reader_of(alloc, text), &mut fields, sought)?;
    let line = line_of(text, &fields);
    Some(Record { row, fields, line })
}

/// A record that was kept when it was read, if it has fields and there is memory for it: it ends in this line.
pub(crate) fn kept_record(fields: &ByteRecord, line: u64) -> Option<Record> {
    if fields.is_empty() {
        return None;
    }
    let row = match fields.position() {
        Some(position) => u32::try_from(position.record()).ok()?,
        None => 0,
    };
    let ends = usize::try_from(line).ok()?;
    Some(Record {
        row,
        fields: fields.clone().ok()?,
        line: ends.saturating_sub(count_of(fields.as_slice(), b'\n')),
    })
}

// Reads records up to the one that is sought, and gives its number, if it is there and all could be read.
fn read_up_to(reader: &mut Reader<&[u8]>, fields: &mut ByteRecord, sought: Sought) -> Option<u32> {
    for row in 0..u32::MAX {
        if !reads(reader, fields) {
            return None;
        }
        if sought.is(row, fields) {
            return Some(row);
        }
    }
    None
}

// A reader of a text whose records may be of any length.
fn reader_of(alloc: Global, text: &[u8]) -> Reader<&[u8]> {
    ReaderBuilder::new()
        .has_headers(false)
        .flexible(true)
        .from_reader(alloc, text)
}

// Reads the next record, if there is one that can be read.
fn reads(reader: &mut Reader<&[u8]>, fields: &mut ByteRecord) -> bool {
    match reader.read_byte_record(fields) {
        Ok(found) => found,
        Err(_) => false,
    }
}

// The text without the mark of UTF-8 that may stand first.
fn without_mark(text: &[u8]) -> &[u8] {
    match text {
        [0xef, 0xbb, 0xbf, rest @ ..] => rest,
        _ => text,
    }
}

// The number of the line in which a record begins, from 1: line ends before its first field are none of it.
fn line_of(text: &[u8], fields: &ByteRecord) -> usize {
    let offset = match fields.position() {
        Some(position) => usize::try_from(position.byte()).unwrap_or(0),
        None => 0,
    };
    let ends = line_ends(text.get(offset..).unwrap_or(&[]));
    Spot::at(text, offset.saturating_add(ends)).line
}

// How many bytes of line ends stand first.
fn line_ends(text: &[u8]) -> usize {
    for (i, byte) in text.iter().enumerate() {
        if *byte != b'\r' && *byte != b'\n' {
            return i;
        }
    }
    text.len()
}

/// A field without the spaces at its ends.
pub(crate) fn trimmed(field: &[u8]) -> &[u8] {
    let mut from = field.len();
    let mut to = 0usize;
    for (i, byte) in field.iter().enumerate() {
        if *byte != b' ' {
            from = from.min(i);
            to = i.saturating_add(1);
        }
    }
    field.get(from..to).unwrap_or(&[])
}
