ghost use Rattle.std.specs.Prelude.{◌≡◌, nat_le, pos, ◌+ℤ◌, OnOk, IfOk};
ghost use Rattle.std.specs.List.{position_from};
ghost use Rattle.ub_boxes.specs.Truths.{shape_of};
ghost use Rattle.ub_boxes.specs.Cuts as spec;
ghost use Rattle.ub_query.specs.Shape.{shape};

use std::alloc::{AllocError, Global};
use ub_query::{Cond, Operator};
use ub_table::Schema;

// The cut that a value of a dimension is: the coordinate that stands for it, if that is one from 1 on.
fn cut_of(schema: &Schema, dim: usize, value: i128) -> Option<u32>
    ensures { result ≡ spec.cut_of schema.now dim value }
{
    match schema.coordinate(dim, value) {
        Some(cut) if cut > 0 => Some(cut),
        _ => None,
    }
}

// The place of the first number that isn't below another.
fn place_of(cuts: &[u32], cut: u32) -> Option<usize>
    ensures { result ≡ position_from (λ other. nat_le cut other) 0 cuts.now }
{
    cuts.iter().position(|other| cut <= *other)
}

// Puts a number into an ascending list, if it isn't there.
fn put(cuts: &mut Vec<u32>, cut: u32) -> Result<(), AllocError>
    ensures { OnOk result (cuts.new.items ≡ spec.put cut cuts.old.items) }
{
    match place_of(cuts, cut) {
        Some(at) if cuts[at] == cut => Ok(()),
        Some(at) => Ok(cuts.insert(at, cut)?),
        None => Ok(cuts.push(cut)?),
    }
}

// Puts the cut that a value is, if it is one, into an ascending list.
fn put_cut(cuts: &mut Vec<u32>, schema: &Schema, dim: usize, value: i128) -> Result<(), AllocError>
    ensures { OnOk result (cuts.new.items
        ≡ spec.put_some (spec.cut_of schema.now dim value) cuts.old.items) }
{
    match cut_of(schema, dim, value) {
        Some(cut) => put(cuts, cut),
        None => Ok(()),
    }
}

// Puts the cut behind a value, if there is one, into an ascending list.
fn put_cut_after(
    cuts: &mut Vec<u32>,
    schema: &Schema,
    dim: usize,
    value: i128,
) -> Result<(), AllocError>
    ensures { OnOk result (cuts.new.items
        ≡ spec.put_some (spec.cut_of schema.now dim (value +ℤ pos 1)) cuts.old.items) }
{
    put_cut(cuts, schema, dim, value.saturating_add(1))
}

// Puts the cuts of a comparison on a dimension into an ascending list.
fn put_turns(
    cuts: &mut Vec<u32>,
    schema: &Schema,
    dim: usize,
    operator: Operator,
    value: i128,
) -> Result<(), AllocError>
    ensures { OnOk result (cuts.new.items
        ≡ spec.put_cuts schema.now dim (spec.turns_of operator value) cuts.old.items) }
{
    match operator {
        Operator::Less | Operator::AtLeast => put_cut(cuts, schema, dim, value),
        Operator::AtMost | Operator::Greater => put_cut_after(cuts, schema, dim, value),
        Operator::Equal | Operator::NotEqual => {
            put_cut(cuts, schema, dim, value)?;
            put_cut_after(cuts, schema, dim, value)
        }
    }
}

// Puts the cuts of a condition on a dimension into an ascending list. Calls itself no deeper than the condition is
// high.
#[tactic(auto, using(crate::proofs::CutFacts::put_cuts_append))]
fn put_cuts(
    cuts: &mut Vec<u32>,
    schema: &Schema,
    dim: usize,
    condition: &Cond,
) -> Result<(), AllocError>
    ensures { OnOk result (cuts.new.items
        ≡ spec.put_cuts schema.now dim (spec.turns dim (shape condition.now)) cuts.old.items) }
{
    match condition {
        Cond::And(a, b) | Cond::Or(a, b) => {
            put_cuts(cuts, schema, dim, a)?;
            put_cuts(cuts, schema, dim, b)
        }
        Cond::Not(a) => put_cuts(cuts, schema, dim, a),
        Cond::Compare {
            column,
            operator,
            value,
        } if *column == dim => put_turns(cuts, schema, dim, *operator, *value),
        Cond::Between { column, low, high } if *column == dim => {
            put_cut(cuts, schema, dim, *low)?;
            put_cut_after(cuts, schema, dim, *high)
        }
        _ => Ok(()),
    }
}

// The cuts of a dimension, in ascending order.
pub(crate) fn cuts(
    alloc: Global,
    filter: Option<&Cond>,
    schema: &Schema,
    dim: usize,
) -> Result<Vec<u32>, AllocError>
    ensures { IfOk result (λ cuts. cuts.items ≡ spec.cuts schema.now (shape_of filter.entry) dim) }
{
    let mut cuts = Vec::new(alloc);
    if let Some(condition) = filter {
        put_cuts(&mut cuts, schema, dim, condition)?;
    }
    Ok(cuts)
}
