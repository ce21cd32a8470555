//! The names of a table's columns, as they are listed for people.

use crate::shown::put_quoted;
use crate::told::Told;
use ub_table::{Name, Schema};

/// Puts the names of all columns, with commas between them.
pub(crate) fn put_columns(line: &mut Told, schema: &Schema) {
    let mut comma = "";
    for name in schema.columns() {
        line.push_str(comma);
        put_name(line, name);
        comma = ", ";
    }
}

/// Puts a name, in quotes.
pub(crate) fn put_quoted_name(line: &mut Told, name: &Name) {
    put_quoted(line, name.bytes());
}

// Puts a name: its bytes are letters, digits and `_`.
fn put_name(line: &mut Told, name: &Name) {
    for byte in name.bytes() {
        line.push(char::from(*byte));
    }
}

/// Whether a column has this name.
pub(crate) fn has_column(schema: &Schema, name: &[u8]) -> bool {
    for column in schema.columns() {
        if column.bytes() == name {
            return true;
        }
    }
    false
}

/// The column whose name differs from this by the case of letters alone.
pub(crate) fn in_other_case<'a>(schema: &'a Schema, name: &[u8]) -> Option<&'a Name> {
    for column in schema.columns() {
        if column.bytes().eq_ignore_ascii_case(name) {
            return Some(column);
        }
    }
    None
}
