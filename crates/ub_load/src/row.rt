//! A record of a CSV text as a row of the table.

ghost use Rattle.std.specs.Prelude.{◌≡◌, ◌+◌, ◌≤◌, ◌<◌, length, slice_get};
ghost use Rattle.csv.specs.Records.{fields_of};
ghost use Rattle.ub_load.specs.LoadedTable.{row_of};
ghost use Rattle.ub_load.specs.Refusals.{content_refusal, fields_refusal};
ghost use Rattle.ub_load.specs.inner.Calls.{Reads};

use crate::fault::LoadFault;
use crate::field::read_field;
use csv::ByteRecord;
use ub_table::{Axes, Row, coordinate_at};

/// The row of this number that a record holds, for a table with these dimensions and so many columns (the width), or the first
/// thing that is wrong with what it holds: `Csv` for another length, or a field's refusal.
pub fn read_row(
    fields: &ByteRecord,
    axes: Axes,
    width: usize,
    number: u32,
) -> Result<Row, LoadFault>
    requires few_dims { axes.dims ≤ 4 }
    requires few_columns { width ≤ axes.dims + 4 }
    ensures { Reads (λ row. row ≡ row_of axes (number, fields_of fields.now))
        (content_refusal axes width (number, fields_of fields.now)) result }
{
    if fields.len() != width {
        return Err(LoadFault::Csv);
    }
    read_values(fields, axes, number)
}

// The row that the record's fields make, or the first field's refusal.
fn read_values(fields: &ByteRecord, axes: Axes, number: u32) -> Result<Row, LoadFault>
    requires few_dims { axes.dims ≤ 4 }
    requires few_columns { length (fields_of fields.now) ≤ axes.dims + 4 }
    ensures { Reads (λ row. row ≡ row_of axes (number, fields_of fields.now))
        (fields_refusal axes number (fields_of fields.now)) result }
{
    let mut row = Row {
        number,
        dims: [0; 4],
        measures: [0; 4],
    };
    for place in 0..fields.len() {
        let value = read_field(field_at(fields, place), place, axes, number)?;
        if place < axes.dims as usize {
            // The number fits its dimension, so there is such a coordinate.
            let coordinate = coordinate_at(axes, place, i128::from(value)).unwrap();
            row.dims[place] = coordinate;
        } else {
            row.measures[place - axes.dims as usize] = value;
        }
    }
    Ok(row)
}

// The field at a place of the record.
pub(crate) fn field_at(fields: &ByteRecord, place: usize) -> &[u8]
    requires { place < length (fields_of fields.now) }
    ensures { slice_get (fields_of fields.now) place ≡ Some result.now }
{
    fields.get(place).unwrap()
}
