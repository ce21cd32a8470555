//! The header of a CSV text as the schema of the table.

ghost use Rattle.std.specs.Prelude.{◌≡◌, ◌+◌, ◌≤◌, ◌<◌, true, false, length, take, IfOk, IfErr};
ghost use Rattle.std.specs.Result.{OnOk, OnErr};
ghost use Rattle.csv.specs.Records.{fields_of};
ghost use Rattle.ub_load.specs.Field.{trimmed};
ghost use Rattle.ub_load.specs.LoadedTable.{columns_of, IsSchemaOf};
ghost use Rattle.ub_load.specs.Refusals.{header_refusal, is_new_name, names_refusal};
ghost use Rattle.ub_load.specs.inner.Calls.{Reads};
ghost use Rattle.ub_table.specs.Schema.{AreTableNumbers, IsMask};

use crate::fault::LoadFault;
use crate::field::trim_spaces;
use crate::row::field_at;
use csv::ByteRecord;
use ub_table::{Axes, Name, Schema};

/// The schema of a table of this name with these dimensions whose columns are the header's fields, or the first thing that is wrong with them:
/// `ColumnCount`, `BadName(0)` for the table's name, `BadName` for a column's.
pub fn read_schema(
    header: &ByteRecord,
    axes: Axes,
    page_rows: u32,
    name: &[u8],
) -> Result<Schema, LoadFault>
    requires numbers { AreTableNumbers axes.dims page_rows }
    requires mask { IsMask axes.dims axes.signed }
    ensures reads { Reads (IsSchemaOf (fields_of header.now) axes page_rows name.now)
        (header_refusal axes.dims name.now (columns_of (fields_of header.now))) result }
    ensures few_columns { OnOk result (length (fields_of header.now) ≤ axes.dims + 4) }
{
    let width = header.len();
    let dims = axes.dims as usize;
    if width < dims || width > dims + 4 {
        return Err(LoadFault::ColumnCount);
    }
    let Ok(table) = Name::new(name) else {
        return Err(LoadFault::BadName(0));
    };
    let columns = read_names(header, table)?;
    // The numbers are in range and the names distinct, so there is such a schema.
    Ok(Schema::new(table, &columns[..width], axes.dims, page_rows, axes.signed).unwrap())
}

// The names of the columns in the first places, and the filler in the others; or the first name's refusal.
fn read_names(header: &ByteRecord, filler: Name) -> Result<[Name; 8], LoadFault>
    requires { length (fields_of header.now) ≤ 8 }
    ensures { Reads
        (λ all. take (length (fields_of header.now)) all ≡ columns_of (fields_of header.now))
        (names_refusal (columns_of (fields_of header.now))) result }
{
    let mut names = [filler; 8];
    for place in 0..header.len() {
        names[place] = read_name(field_at(header, place), place, &names[..place])?;
    }
    Ok(names)
}

// The name in the column at a place from 0, which is none of the earlier ones.
fn read_name(field: &[u8], place: usize, earlier: &[Name]) -> Result<Name, LoadFault>
    requires { place < 8 }
    ensures name { IfOk result (λ name. name ≡ trimmed field.now) }
    ensures accepted { OnOk result (is_new_name earlier.now (trimmed field.now) ≡ true) }
    ensures refused { OnErr result (is_new_name earlier.now (trimmed field.now) ≡ false) }
    ensures column { IfErr result (λ fault. fault ≡ LoadFault.BadName (place + 1)) }
{
    match Name::new(trim_spaces(field)) {
        Ok(name) if !earlier.contains(&name) => Ok(name),
        _ => Err(LoadFault::BadName(place as u32 + 1)),
    }
}
