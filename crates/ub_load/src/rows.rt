//! The rows that a CSV text holds for a table that there is.

ghost use Rattle.std.specs.Prelude.{◌≡◌, ◌≤◌, ◌<◌, ◌+◌, ◌-◌, ◌⊎◌, ◌∷◌, ◌==◌, ℕ, List, [], length, map, take, All, IfOk, IfErr, slice_get, slice_index};
ghost use Rattle.std.specs.List.{enumerate_from, list_any};
ghost use Rattle.std.specs.Result.{OnOk};
ghost use Rattle.std.specs.Str.{bytes_eq};
ghost use Rattle.csv.specs.Records.{fields_of};
ghost use Rattle.ub_load.specs.Appending.{AreRowsOf, IsRowsFault, heading_refusals, is_named, missing_refusal, named_refusal, place_in, placed_refusals, places_in};
ghost use Rattle.ub_load.specs.Appending as spec;
ghost use Rattle.ub_load.specs.LoadedTable.{columns_of, row_of};
ghost use Rattle.ub_load.specs.Refusals.{first_of};
ghost use Rattle.ub_load.specs.inner.Arranged.{ArePlaces, HasReadFirst, HasRowsFrom, IsOfColumns, IsRefusedFrom};
ghost use Rattle.ub_table.specs.Region.{measures_of};
ghost use Rattle.ub_table.specs.declared.row.TheConstants.{MAX_ROW_NUMBER};
ghost use Rattle.ub_tree.specs.Change.{Suits};

use crate::fault::LoadFault;
use crate::field::trim_spaces;
use crate::reading::{read_record, reader_of};
use crate::row::{field_at, read_row};
use csv::{ByteRecord, Reader};
use std::alloc::{AllocError, Global};
use ub_table::{Axes, MAX_ROW_NUMBER, Name, Row, Schema};
use ub_tree::TreeFault;

/// The rows that a CSV text holds for a table of this schema whose next row gets this number, or the first thing that is
/// wrong with the text. The first record is the header, which names each column of the table once, in any order; case
/// counts, spaces at the ends of a name don't. Each record after it is a row; its number is that of the record, from 1: the
/// row gets its number in the table where it is put in. Nothing is put in here. Records and fields are read as `load` does.
///
/// The error is the first thing that is wrong, in the order of the text: `NoHeader` for a text of no record, `BadName` for a
/// field of the header (its place from 1) that names no column of the table, or one that an earlier field names,
/// `ColumnCount` where a column isn't named, and then for each record `Csv` for a length other than the header's,
/// `BadNumber` or `OutOfRange` for a field, in the order of the table's columns, told with the record's number and the
/// field's place in the text, both from 1, and `Tree` with `Full` where no row number is left for it. `Csv` comes also where
/// `csv` refused a record, which it does where reading failed, and `Memory` only where memory was refused.
pub fn read_rows(
    alloc: Global,
    text: &[u8],
    schema: &Schema,
    next: u32,
) -> Result<Vec<Row>, LoadFault>
    ensures rows { IfOk result (λ rows. AreRowsOf text.now schema.now next rows.items) }
    ensures suit { IfOk result (λ rows.
        All (Suits schema.now.dims (measures_of schema.now)) rows.items) }
    ensures refused { IfErr result (IsRowsFault text.now schema.now next) }
{
    let mut reader = reader_of(alloc, text);
    // Each record is read into the place of the one before.
    let mut fields = ByteRecord::new(alloc);
    let places = read_heading(&mut reader, &mut fields, schema)?;
    let places = &places[..schema.columns().len()];
    take_rows(alloc, &mut reader, &mut fields, places, schema, next)
}

// Where in the first record each column of the table stands, in the first places, or the first thing that is wrong with it.
fn read_heading(
    reader: &mut Reader<&[u8]>,
    fields: &mut ByteRecord,
    schema: &Schema,
) -> Result<[usize; 8], LoadFault>
    ensures read { OnOk result (HasReadFirst reader.old (fields_of fields.new) reader.new) }
    ensures fine { OnOk result (first_of
        (heading_refusals schema.now.columns (columns_of (fields_of fields.new))) ≡ None) }
    ensures places { IfOk result (λ all. take (length schema.now.columns) all
        ≡ places_in schema.now.columns (columns_of (fields_of fields.new))) }
    ensures refused { IfErr result (λ f. (next : ℕ) → IsRefusedFrom reader.old [] schema.now next f) }
{
    if !read_record(reader, fields)? {
        return Err(LoadFault::NoHeader);
    }
    let columns = schema.columns();
    check_names(fields, columns)?;
    find_places(fields, columns)
}

// Whether each field names a column, and one that no earlier field names; or the first one's refusal.
fn check_names(header: &ByteRecord, columns: &[Name]) -> Result<(), LoadFault>
    requires { length columns.now ≤ 8 }
    ensures accepted { OnOk result (first_of (map
        (named_refusal columns.now (columns_of (fields_of header.now)))
        (enumerate_from 0 (columns_of (fields_of header.now)))) ≡ None) }
    ensures refused { IfErr result (λ f. first_of (map
        (named_refusal columns.now (columns_of (fields_of header.now)))
        (enumerate_from 0 (columns_of (fields_of header.now)))) ≡ Some f) }
{
    for place in 0..header.len() {
        if !names_column(header, place, columns) {
            return Err(LoadFault::BadName(place as u32 + 1));
        }
    }
    Ok(())
}

// Whether the field at a place names a column, and no earlier field does.
fn names_column(header: &ByteRecord, place: usize, columns: &[Name]) -> bool
    requires { place < length (fields_of header.now) }
    ensures { (name : List ℕ) → slice_get (columns_of (fields_of header.now)) place ≡ Some name
        → result ≡ is_named columns.now (columns_of (fields_of header.now)) (place, name) }
{
    let name = trim_spaces(field_at(header, place));
    is_column(name, columns) && place_of(name, header) == place
}

// Whether it is the name of a column.
fn is_column(name: &[u8], columns: &[Name]) -> bool
    ensures { result ≡ list_any (bytes_eq name.now) columns.now }
{
    columns.iter().any(|column| name == column.bytes())
}

// The place of the first field that is this name, or how many fields there are.
fn place_of(name: &[u8], header: &ByteRecord) -> usize
    ensures { result ≡ place_in (columns_of (fields_of header.now)) name.now }
{
    let count = header.len();
    for place in 0..count {
        if is_same(name, trim_spaces(field_at(header, place))) {
            return place;
        }
    }
    count
}

// Whether two names have the same bytes.
fn is_same(name: &[u8], other: &[u8]) -> bool
    ensures { result ≡ bytes_eq name.now other.now }
{
    name == other
}

// Where each column stands, in the first places, and 0 in the others; or that one is missing.
fn find_places(header: &ByteRecord, columns: &[Name]) -> Result<[usize; 8], LoadFault>
    requires { length columns.now ≤ 8 }
    ensures places { IfOk result (λ all. take (length columns.now) all
        ≡ places_in columns.now (columns_of (fields_of header.now))) }
    ensures accepted { OnOk result
        (missing_refusal columns.now (columns_of (fields_of header.now)) ≡ None) }
    ensures refused { IfErr result
        (λ f. missing_refusal columns.now (columns_of (fields_of header.now)) ≡ Some f) }
{
    let mut places = [0; 8];
    for (index, column) in columns.iter().enumerate() {
        let place = place_of(column.bytes(), header);
        if place == header.len() {
            return Err(LoadFault::ColumnCount);
        }
        places[index] = place;
    }
    Ok(places)
}

// The rows of the records after the header, which was read last, and whose columns stand at these places of it.
fn take_rows(
    alloc: Global,
    reader: &mut Reader<&[u8]>,
    fields: &mut ByteRecord,
    places: &[usize],
    schema: &Schema,
    next: u32,
) -> Result<Vec<Row>, LoadFault>
    requires fine { first_of
        (heading_refusals schema.now.columns (columns_of (fields_of fields.old))) ≡ None }
    requires places { places.now ≡ places_in schema.now.columns (columns_of (fields_of fields.old)) }
    ensures rows { IfOk result
        (λ rows. HasRowsFrom reader.old (fields_of fields.old) schema.now next rows.items) }
    ensures suit { IfOk result (λ rows.
        All (Suits schema.now.dims (measures_of schema.now)) rows.items) }
    ensures refused { IfErr result
        (IsRefusedFrom reader.old (fields_of fields.old ∷ []) schema.now next) }
{
    let axes = schema.axes();
    let width = fields.len();
    let left = (MAX_ROW_NUMBER + 1).saturating_sub(next);
    // A record's fields in the order of the table's columns, each record in the place of the one before.
    let mut ordered = ByteRecord::new(alloc);
    let mut rows = Vec::new(alloc);
    let mut number = 1;
    while read_record(reader, fields)? {
        let row = read_placed(fields, &mut ordered, places, width, axes, number)?;
        if left < number {
            return Err(LoadFault::Tree(TreeFault::Full));
        }
        rows.push(row)?;
        number += 1;
    }
    Ok(rows)
}

// The row of this number that a record holds, where the header has so many fields (the width) and the table's columns stand at
// these places of it; or the first thing that is wrong with what it holds.
fn read_placed(
    fields: &ByteRecord,
    ordered: &mut ByteRecord,
    places: &[usize],
    width: usize,
    axes: Axes,
    number: u32,
) -> Result<Row, LoadFault>
    requires { ArePlaces axes width places.now }
    ensures row { IfOk result
        (λ row. row ≡ row_of axes (number, spec.arranged places.now (fields_of fields.now))) }
    ensures suit { IfOk result (Suits axes.dims (length places.now - axes.dims)) }
    ensures accepted { OnOk result (first_of
        (placed_refusals axes width places.now (number, fields_of fields.now)) ≡ None) }
    ensures refused { IfErr result (λ f. (f ≡ LoadFault.Memory) ⊎ (first_of
        (placed_refusals axes width places.now (number, fields_of fields.now)) ≡ Some f)) }
{
    if fields.len() != width {
        return Err(LoadFault::Csv);
    }
    arrange(fields, places, ordered)?;
    match read_row(ordered, axes, places.len(), number) {
        Ok(row) => Ok(row),
        Err(fault) => Err(told_at(fault, places)),
    }
}

// Puts the fields at these places into the place of what stood in another record.
fn arrange(
    fields: &ByteRecord,
    places: &[usize],
    ordered: &mut ByteRecord,
) -> Result<(), AllocError>
    requires { All (λ place. place < length (fields_of fields.now)) places.now }
    ensures { OnOk result (fields_of ordered.new ≡ spec.arranged places.now (fields_of fields.now)) }
{
    ordered.clear();
    for place in places {
        ordered.push_field(field_at(fields, *place))?;
    }
    Ok(())
}

// A field's refusal, told with the column of the text in which the table's column stands.
fn told_at(fault: LoadFault, places: &[usize]) -> LoadFault
    requires columns { IsOfColumns (length places.now) fault }
    requires few { All (λ place. place < 8) places.now }
    ensures { result ≡ spec.told_at places.now fault }
{
    match fault {
        LoadFault::BadNumber { row, column } => LoadFault::BadNumber {
            row,
            column: column_at(places, column),
        },
        LoadFault::OutOfRange { row, column } => LoadFault::OutOfRange {
            row,
            column: column_at(places, column),
        },
        fault => fault,
    }
}

// The column of the text in which a column of the table stands, both from 1.
fn column_at(places: &[usize], column: u32) -> u32
    requires column { (1 ≤ column) × (column ≤ length places.now) }
    requires few { All (λ place. place < 8) places.now }
    ensures { result ≡ slice_index places.now (column - 1) + 1 }
{
    places[column as usize - 1] as u32 + 1
}
