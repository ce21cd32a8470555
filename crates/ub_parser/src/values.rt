// The values of an INSERT, and the columns that they are for.
ghost use Rattle.std.specs.Prelude.{◌≡◌, ◌<◌, ◌≤◌, ◌⊎◌, ℕ, true, length, map, slice_index_or, IfOk, IfErr, OnOk};
ghost use Rattle.std.specs.List.{All, enumerate_from};
ghost use Rattle.ub_parser.specs.Refusals as spec;
ghost use Rattle.ub_parser.specs.Sense.{value_of, values_of};
ghost use Rattle.ub_parser.specs.Spans.{IsInsertWritten, IsNumber};
ghost use Rattle.ub_parser.specs.declared.fault.SqlFault.{SqlFault};
ghost use Rattle.ub_syntax.specs.declared.syntax.Value.{Value};
ghost use Rattle.ub_table.specs.Value.{fits, fits_measure};

use crate::check::is_unknown_table;
use crate::fault::SqlFault;
use crate::sense::value;
use std::alloc::Global;
use ub_lexer::Token;
use ub_syntax::{Insertion, Value};
use ub_table::Schema;

/// The values that an INSERT over a table of the schema gives to the columns, in order; or why it is refused: the first of
/// `UnknownTable`, `ValueCount` and `ValueRange` that holds, or `Memory`, which comes only where memory is refused.
pub(crate) fn values(
    alloc: Global,
    source: &[u8],
    schema: &Schema,
    insertion: &Insertion,
) -> Result<Vec<i64>, SqlFault>
    requires { IsInsertWritten source.now insertion.now }
    ensures values { IfOk result (λ values. values.items ≡ values_of source.now insertion.now) }
    // where nothing is refused, each column has a value that it can hold
    ensures count { OnOk result
        (length insertion.now.values ≡ length schema.now.columns) }
    ensures fit { OnOk result
        (All (λ v. fits schema.now v.0 (value_of source.now v.1.literal) ≡ true)
        (enumerate_from 0 insertion.now.values)) }
    ensures fine { OnOk result
        ((fault : SqlFault) → ¬ spec.IsInsertMisfit source.now schema.now insertion.now fault) }
    ensures refused { IfErr result (λ fault. (fault ≡ SqlFault.Memory)
        ⊎ spec.IsFirstInsertMisfit source.now schema.now insertion.now fault) }
{
    if is_unknown_table(source, schema, &insertion.table) {
        return Err(SqlFault::UnknownTable {
            at: insertion.table.from,
        });
    }
    let columns = schema.columns().len();
    if insertion.values.as_slice().len() != columns {
        return Err(SqlFault::ValueCount {
            at: miscounted(columns, insertion).from,
        });
    }
    fitting(alloc, source, schema, insertion.values.as_slice())
}

// The first token of the first value after so many, or else the `)`.
fn miscounted(columns: usize, insertion: &Insertion) -> Token
    ensures { result ≡ slice_index_or (map (λ v. v.first) insertion.now.values) columns
        insertion.now.close }
{
    match insertion.values.as_slice().get(columns) {
        Some(value) => value.first,
        None => insertion.close,
    }
}

// The numbers that these write, where each column can hold its own, or `ValueRange` of the first that its column can't.
fn fitting(
    alloc: Global,
    source: &[u8],
    schema: &Schema,
    literals: &[Value],
) -> Result<Vec<i64>, SqlFault>
    requires columns { length literals.now ≤ length schema.now.columns }
    requires numbers { All (λ v. IsNumber source.now v.literal.digits) literals.now }
    ensures values { IfOk result
        (λ values. values.items ≡ map (λ v. value_of source.now v.literal) literals.now) }
    ensures fit { OnOk result
        (All (λ v. ¬ spec.IsUnfit source.now schema.now v) (enumerate_from 0 literals.now)) }
    ensures refused { IfErr result (λ fault. (fault ≡ SqlFault.Memory)
        ⊎ ((v : ℕ × Value) × spec.IsFirst (λ v. spec.IsUnfit source.now schema.now v)
        (enumerate_from 0 literals.now) v × (fault ≡ SqlFault.ValueRange v.1.first.from))) }
{
    let mut values = Vec::with_capacity(alloc, literals.len())?;
    for (column, literal) in literals.iter().enumerate() {
        let value = fit(source, schema, column, literal)?;
        match values.push(value) {
            Ok(()) => {}
            Err(_) => return Err(SqlFault::Memory),
        }
    }
    Ok(values)
}

// The number that stands in the place of a column, where that can hold it, or else `ValueRange`.
fn fit(source: &[u8], schema: &Schema, column: usize, literal: &Value) -> Result<i64, SqlFault>
    requires column { column < length schema.now.columns }
    requires number { IsNumber source.now literal.now.literal.digits }
    ensures value { IfOk result (λ x. x ≡ value_of source.now literal.now.literal) }
    ensures fits { OnOk result (¬ spec.IsUnfit source.now schema.now (column, literal.now)) }
    ensures refused { IfErr result (λ fault. (fault ≡ SqlFault.ValueRange literal.now.first.from)
        × spec.IsUnfit source.now schema.now (column, literal.now)) }
{
    let value = value(source, &literal.literal);
    if schema.fits(column, value) {
        Ok(measure(value))
    } else {
        Err(SqlFault::ValueRange {
            at: literal.first.from,
        })
    }
}

// A number that a measure can hold.
fn measure(value: i128) -> i64
    requires { fits_measure value ≡ true }
    ensures { result ≡ value }
{
    i64::try_from(value).unwrap()
}
