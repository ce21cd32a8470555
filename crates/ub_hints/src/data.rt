//! What is wrong with a CSV file.

use crate::heading::{put_column, put_misfit, put_missing, schema_by};
use crate::names::{has_column, in_other_case, put_columns, put_quoted_name};
use crate::record::{Record, Sought, find_record, kept_record};
use crate::shown::{MOST_SHOWN, put_path, put_quoted, put_shown};
use crate::told::Told;
use std::alloc::{AllocError, Global};
use ub_load::{LastRead, LoadFault, read_rows};
use ub_table::Schema;
use ub_words::DataWords;

// The values of a dimension, of a signed one, and of a measure.
const UNSIGNED: &str = "0 to 4294967295";

const SIGNED: &str = "-2147483648 to 2147483647";

const WIDE: &str = "-9223372036854775808 to 9223372036854775807";

/// The schema of the table of a text that is tried, if there is one.
pub(crate) fn tried_schema(alloc: Global, source: &DataWords<'_>, text: &[u8]) -> Option<Schema> {
    let header = find_record(alloc, text, Sought::Row(0))?;
    schema_by(alloc, source, &header)
}

/// What is wrong with a text that was to be loaded, by what was read last of it; nothing where that isn't known.
pub(crate) fn loaded_hint(
    alloc: Global,
    source: &DataWords<'_>,
    last: &LastRead,
) -> Result<String, AllocError> {
    let Some(header) = kept_record(&last.header, last.line) else {
        return Ok(String::new(alloc));
    };
    match schema_by(alloc, source, &header) {
        Some(schema) => last_hint(alloc, source.path, &header, &schema, last),
        None => heading_hint(alloc, source, &header),
    }
}

// What is wrong with the record that was read last of a text whose rows were to be those of a table of this schema.
fn last_hint(
    alloc: Global,
    path: &str,
    header: &Record,
    schema: &Schema,
    last: &LastRead,
) -> Result<String, AllocError> {
    match (kept_record(&last.row, last.line), last.fault) {
        (Some(record), Some(fault)) if is_of_record(fault) => {
            record_hint(alloc, path, header, &record, schema, fault)
        }
        _ => Ok(String::new(alloc)),
    }
}

// Whether a fault tells of a record after the header.
fn is_of_record(fault: LoadFault) -> bool {
    matches!(
        fault,
        LoadFault::Csv | LoadFault::BadNumber { .. } | LoadFault::OutOfRange { .. }
    )
}

/// What is wrong with a text that is tried; nothing where that isn't known.
pub(crate) fn tried_data_hint(
    alloc: Global,
    source: &DataWords<'_>,
    text: &[u8],
) -> Result<String, AllocError> {
    let Some(header) = find_record(alloc, text, Sought::Row(0)) else {
        return Ok(String::new(alloc));
    };
    match schema_by(alloc, source, &header) {
        Some(schema) => rows_hint(alloc, source.path, text, &header, &schema),
        None => heading_hint(alloc, source, &header),
    }
}

// Why a text with this header is no table.
fn heading_hint(
    alloc: Global,
    source: &DataWords<'_>,
    header: &Record,
) -> Result<String, AllocError> {
    let mut line = Told::new(alloc);
    put_path(&mut line, source.path);
    put_misfit(&mut line, source, header);
    line.push('\n');
    line.whole()
}

/// What is wrong with a text that is to be appended to a table of this schema; nothing where that isn't known.
pub(crate) fn appended_hint(
    alloc: Global,
    path: &str,
    text: &[u8],
    schema: &Schema,
) -> Result<String, AllocError> {
    match find_record(alloc, text, Sought::Row(0)) {
        Some(header) => rows_hint(alloc, path, text, &header, schema),
        None => Ok(String::new(alloc)),
    }
}

// What is wrong with a text whose rows are to be those of a table of this schema.
fn rows_hint(
    alloc: Global,
    path: &str,
    text: &[u8],
    header: &Record,
    schema: &Schema,
) -> Result<String, AllocError> {
    match read_rows(alloc, text, schema, 1) {
        Ok(_) => Ok(String::new(alloc)),
        Err(fault) => fault_hint(alloc, path, text, header, schema, fault),
    }
}

// What this fault of a text is.
fn fault_hint(
    alloc: Global,
    path: &str,
    text: &[u8],
    header: &Record,
    schema: &Schema,
    fault: LoadFault,
) -> Result<String, AllocError> {
    match faulty_record(alloc, text, header, fault) {
        Some(record) => record_hint(alloc, path, header, &record, schema, fault),
        None => Ok(String::new(alloc)),
    }
}

// What this fault of this record is.
fn record_hint(
    alloc: Global,
    path: &str,
    header: &Record,
    record: &Record,
    schema: &Schema,
    fault: LoadFault,
) -> Result<String, AllocError> {
    let mut line = Told::new(alloc);
    put_path(&mut line, path);
    put_fault(&mut line, header, record, schema, fault);
    line.push('\n');
    line.whole()
}

// The record of which a fault tells, if it tells of one.
fn faulty_record(alloc: Global, text: &[u8], header: &Record, fault: LoadFault) -> Option<Record> {
    let sought = match fault {
        LoadFault::BadName(_) | LoadFault::ColumnCount => Sought::Row(0),
        LoadFault::BadNumber { row, column: _ } | LoadFault::OutOfRange { row, column: _ } => {
            Sought::Row(row)
        }
        LoadFault::Csv => Sought::OtherLength(header.fields.len()),
        _ => return None,
    };
    find_record(alloc, text, sought)
}

// Puts what a fault of a record is.
fn put_fault(line: &mut Told, header: &Record, record: &Record, schema: &Schema, fault: LoadFault) {
    match fault {
        LoadFault::BadName(column) => put_stranger(line, column, header.field(column), schema),
        LoadFault::ColumnCount => put_missing(line, schema, header),
        LoadFault::BadNumber { row: _, column } => {
            put_field(line, header, record, column);
            line.push_str(" is no whole number");
        }
        LoadFault::OutOfRange { row: _, column } => {
            put_field(line, header, record, column);
            line.push_str(" is not in ");
            line.push_str(range_of(schema, header.field(column)));
        }
        LoadFault::Csv => put_lengths(line, header, record),
        _ => {}
    }
}

// Puts that a column of a text is none of the table's, or stands twice.
fn put_stranger(line: &mut Told, column: u32, name: &[u8], schema: &Schema) {
    put_column(line, column);
    put_quoted(line, name);
    if has_column(schema, name) {
        line.push_str(" stands twice");
    } else {
        line.push_str(" is no column of the table: it has ");
        put_columns(line, schema);
        put_other_case(line, schema, name);
    }
}

/// Puts the column that a name means but for the case of its letters, if there is one.
pub(crate) fn put_other_case(line: &mut Told, schema: &Schema, name: &[u8]) {
    if let Some(column) = in_other_case(schema, name) {
        line.push_str("; write ");
        put_quoted_name(line, column);
    }
}

// Puts where a record stands.
fn put_record(line: &mut Told, record: &Record) {
    line.push_str("line ");
    line.push_number(record.line);
    line.push_str(", row ");
    line.push_number(record.row as usize);
}

// Puts where a field stands, and what stands there.
fn put_field(line: &mut Told, header: &Record, record: &Record, column: u32) {
    put_record(line, record);
    line.push_str(", column ");
    line.push_number(column as usize);
    line.push_str(" (");
    put_shown(line, header.field(column), MOST_SHOWN);
    line.push_str("): ");
    put_quoted(line, record.field(column));
}

// Puts that a record is longer or shorter than the header.
fn put_lengths(line: &mut Told, header: &Record, record: &Record) {
    put_record(line, record);
    line.push_str(": the header has ");
    line.push_number(header.fields.len());
    line.push_str(" fields, and this row ");
    line.push_number(record.fields.len());
}

// The values that the column of this name can hold.
fn range_of(schema: &Schema, name: &[u8]) -> &'static str {
    let mut signed = schema.signed();
    for (place, column) in schema.columns().iter().enumerate() {
        if column.bytes() == name && place < schema.dims() as usize {
            return if signed % 2 == 1 { SIGNED } else { UNSIGNED };
        }
        signed /= 2;
    }
    WIDE
}
