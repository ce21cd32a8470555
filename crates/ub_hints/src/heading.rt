//! The header of a CSV file: the schema of its table, or why it is none.

use crate::record::{Record, trimmed};
use crate::shown::put_quoted;
use crate::told::Told;
use std::alloc::Global;
use ub_table::{Name, Schema};
use ub_words::DataWords;

// How many columns a table has at most beside its dimensions.
const MOST_MEASURES: usize = 4;

/// The schema of the table that is loaded of a text with this header, if there is one.
pub(crate) fn schema_by(alloc: Global, source: &DataWords<'_>, header: &Record) -> Option<Schema> {
    let name = Name::new(source.name.as_bytes()).ok()?;
    let columns = columns_of(alloc, header)?;
    Schema::new(
        name,
        columns.as_slice(),
        source.dims,
        source.page_rows,
        source.signed,
    )
    .ok()
}

// The names of the columns, where each is a name.
fn columns_of(alloc: Global, header: &Record) -> Option<Vec<Name>> {
    let mut names = Vec::new(alloc);
    for field in &header.fields {
        let name = Name::new(trimmed(field)).ok()?;
        names.push(name).ok()?;
    }
    Some(names)
}

/// Puts why a text with this header is no table.
pub(crate) fn put_misfit(line: &mut Told, source: &DataWords<'_>, header: &Record) {
    let (count, dims) = (header.fields.len(), source.dims as usize);
    let most = dims.saturating_add(MOST_MEASURES);
    if count < dims || count > most {
        put_bad_count(line, count, dims, most);
    } else if Name::new(source.name.as_bytes()).is_err() {
        put_bad_table(line, source.name);
    } else {
        put_bad_column(line, header);
    }
}

// Puts that a header has not so many columns as a table with so many dimensions.
fn put_bad_count(line: &mut Told, count: usize, dims: usize, most: usize) {
    line.push_str("columns in the header: ");
    line.push_number(count);
    line.push_str("; --dims ");
    line.push_number(dims);
    line.push_str(" takes ");
    line.push_number(dims);
    line.push_str(" to ");
    line.push_number(most);
}

// Puts which column of a header is badly named.
fn put_bad_column(line: &mut Told, header: &Record) {
    match first_bad(header) {
        Some(column) => put_bad(line, column, header.field(column)),
        None => line.push_str("this header makes no table"),
    }
}

// The first column, from 1, whose name is none, or an earlier one's.
fn first_bad(header: &Record) -> Option<u32> {
    for (place, field) in header.fields.iter().enumerate() {
        let name = trimmed(field);
        if Name::new(name).is_err() || place_of(header, name) < place {
            return u32::try_from(place.saturating_add(1)).ok();
        }
    }
    None
}

// The place of the first column of this name, or how many columns there are.
fn place_of(header: &Record, name: &[u8]) -> usize {
    for (place, field) in header.fields.iter().enumerate() {
        if trimmed(field) == name {
            return place;
        }
    }
    header.fields.len()
}

/// Puts of which column, from 1, something is told.
pub(crate) fn put_column(line: &mut Told, column: u32) {
    line.push_str("column ");
    line.push_number(column as usize);
    line.push_str(": ");
}

// Puts that a column is badly named.
fn put_bad(line: &mut Told, column: u32, name: &[u8]) {
    put_column(line, column);
    put_quoted(line, name);
    match Name::new(name) {
        Ok(_) => line.push_str(" stands twice"),
        Err(_) => line.push_str(
            " is no name: letters, digits and _, no digit first, at most 32, and no word of the language",
        ),
    }
}

// Puts that the table is badly named.
fn put_bad_table(line: &mut Told, name: &str) {
    put_quoted(line, name.as_bytes());
    line.push_str(" is no name of a table");
}

/// Puts the names of the table's columns that the header doesn't name.
pub(crate) fn put_missing(line: &mut Told, schema: &Schema, header: &Record) {
    line.push_str("the header has no");
    let mut comma = " ";
    for name in schema.columns() {
        if place_of(header, name.bytes()) == header.fields.len() {
            line.push_str(comma);
            put_quoted(line, name.bytes());
            comma = ", ";
        }
    }
}
