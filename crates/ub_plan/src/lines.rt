ghost use Rattle.std.specs.Prelude.{◌≡◌, ◌≤◌, ◌^◌, ◌∷◌, [], ◌++◌, if◌then◌else◌, codes, decimal, IfOk, OnOk};
ghost use Rattle.std.specs.Fmt.{signed_decimal};
ghost use Rattle.std.specs.List.{flat_map, join_by};
ghost use Rattle.ub_boxes.specs.Points as points;
ghost use Rattle.ub_plan.specs.Explained as spec;
ghost use Rattle.ub_query.specs.Cells as sql;
ghost use Rattle.ub_query.specs.Shape.{shape};
ghost use Rattle.ub_table.specs.Value.{value};
ghost use Rattle.std.specs.Option.{option_map};

use crate::numbers::{push_number, push_signed};
use std::alloc::{AllocError, Global};
use ub_bigmin::ZBox;
use ub_boxes::total;
use ub_planning::{Kind, Plan};
use ub_query::Cond;
use ub_table::{Name, Schema};

// The lines of a plan over a table of this schema, where of so many regions so many meet its boxes.
#[tactic(auto, unfolding(crate::specs::Explained::explain_text))]
pub(crate) fn plan_text(
    alloc: Global,
    schema: &Schema,
    plan: &Plan,
    met: u64,
    regions: u32,
) -> Result<Vec<u8>, AllocError>
    ensures { IfOk result (λ text. text.items ≡ spec.explain_text schema.now plan.now met regions) }
{
    let mut text = Vec::new(alloc);
    push_kind(&mut text, schema, plan.kind())?;
    push_line(
        &mut text,
        b"cover ",
        cover_word(plan.is_exact(), plan.is_wide()),
    )?;
    push_line(&mut text, b"filter ", filter_word(plan.residual()))?;
    push_boxes(&mut text, schema, plan.boxes())?;
    push_points(&mut text, plan.boxes())?;
    push_regions(&mut text, met, regions)?;
    Ok(text)
}

// Puts the line of how regions are read.
fn push_kind(text: &mut Vec<u8>, schema: &Schema, kind: Kind) -> Result<(), AllocError>
    ensures { OnOk result (text.new.items
        ≡ text.old.items ++ spec.line (codes "plan " ++ spec.kind_text schema.now kind)) }
{
    match kind {
        Kind::Empty => push_line(text, b"plan ", b"empty"),
        Kind::Scan => push_line(text, b"plan ", b"scan"),
        Kind::Sweep { dim, is_descending } => {
            text.extend_from_slice(b"plan sweep ")?;
            push_line(
                text,
                name_of(schema, dim),
                if is_descending { b" desc" } else { b" asc" },
            )
        }
    }
}

// The name of a column; nothing where there is no such column.
fn name_of(schema: &Schema, column: usize) -> &[u8]
    ensures { result.now ≡ sql.name_of schema.now column }
{
    match schema.columns().get(column) {
        Some(name) => name.bytes(),
        None => &[],
    }
}

// What is known of the points of the query's condition.
fn cover_word(is_exact: bool, is_wide: bool) -> &'static [u8]
    ensures { result.now ≡ spec.cover_text is_exact is_wide }
{
    match (is_exact, is_wide) {
        (_, true) => b"wide",
        (true, false) => b"exact",
        (false, false) => b"partial",
    }
}

// Whether something is still asked of a row.
fn filter_word(residual: Option<&Cond>) -> &'static [u8]
    ensures { result.now ≡ spec.filter_text (option_map (λ c. shape c.now) residual.entry) }
{
    match residual {
        Some(_) => b"yes",
        None => b"no",
    }
}

// Puts a line for each box.
fn push_boxes(text: &mut Vec<u8>, schema: &Schema, boxes: &[ZBox]) -> Result<(), AllocError>
    ensures { OnOk result (text.new.items
        ≡ text.old.items ++ flat_map (λ b. spec.line (spec.box_text schema.now b)) boxes.now) }
{
    for space in boxes {
        push_box(text, schema, space)?;
    }
    Ok(())
}

// Puts the line of a box.
fn push_box(text: &mut Vec<u8>, schema: &Schema, space: &ZBox) -> Result<(), AllocError>
    ensures { OnOk result (text.new.items
        ≡ text.old.items ++ spec.line (spec.box_text schema.now space.now)) }
{
    text.extend_from_slice(b"box ")?;
    push_sides(text, schema, space.lo().values(), space.hi().values())?;
    text.extend_from_slice(b"\n")
}

// Puts the values of a box in each dimension.
fn push_sides(text: &mut Vec<u8>, schema: &Schema, lo: &[u32], hi: &[u32]) -> Result<(), AllocError>
    ensures { OnOk result (text.new.items
        ≡ text.old.items ++ join_by (λ side. side) (codes ", ")
        (spec.sides schema.now 0 schema.now.columns lo.now hi.now)) }
{
    let names = schema.columns();
    let dims = names.len().min(lo.len()).min(hi.len());
    for dim in 0..dims {
        push_gap(text, dim == 0)?;
        push_side(text, schema, dim, &names[dim], lo[dim], hi[dim])?;
    }
    Ok(())
}

// Puts what stands between two dimensions, unless this is the first.
fn push_gap(text: &mut Vec<u8>, is_first: bool) -> Result<(), AllocError>
    ensures { OnOk result (text.new.items
        ≡ text.old.items ++ (if is_first then [] else codes ", ")) }
{
    if !is_first {
        text.extend_from_slice(b", ")?;
    }
    Ok(())
}

// Puts the values of a box in one dimension, which has this name, from its least coordinate there to its greatest.
fn push_side(
    text: &mut Vec<u8>,
    schema: &Schema,
    dim: usize,
    name: &Name,
    low: u32,
    high: u32,
) -> Result<(), AllocError>
    ensures { OnOk result (text.new.items ≡ text.old.items
        ++ spec.side_text name.now (value schema.now dim low) (value schema.now dim high)) }
{
    text.extend_from_slice(name.bytes())?;
    text.push(b' ')?;
    push_value(text, schema, dim, low)?;
    text.extend_from_slice(b"..")?;
    push_value(text, schema, dim, high)
}

// Puts the line of how many points the boxes have together.
fn push_points(text: &mut Vec<u8>, boxes: &[ZBox]) -> Result<(), AllocError>
    requires { points.total boxes.now ≤ 2 ^ 128 }
    ensures { OnOk result (text.new.items
        ≡ text.old.items ++ spec.line (codes "points " ++ decimal (points.total boxes.now))) }
{
    text.extend_from_slice(b"points ")?;
    push_total(text, boxes)?;
    text.extend_from_slice(b"\n")
}

// Puts how many points the boxes have together: 2^128 where `total` tells no number.
fn push_total(text: &mut Vec<u8>, boxes: &[ZBox]) -> Result<(), AllocError>
    requires { points.total boxes.now ≤ 2 ^ 128 }
    ensures { OnOk result (text.new.items ≡ text.old.items ++ decimal (points.total boxes.now)) }
{
    match total(boxes) {
        Some(points) => push_number(text, points),
        None => text.extend_from_slice(b"340282366920938463463374607431768211456"),
    }
}

// Puts the line of how many regions meet the boxes, and how many there are.
fn push_regions(text: &mut Vec<u8>, met: u64, regions: u32) -> Result<(), AllocError>
    ensures { OnOk result (text.new.items
        ≡ text.old.items ++ spec.line (codes "regions " ++ decimal met ++ codes " of " ++ decimal regions)) }
{
    text.extend_from_slice(b"regions ")?;
    push_number(text, u128::from(met))?;
    text.extend_from_slice(b" of ")?;
    push_number(text, u128::from(regions))?;
    text.extend_from_slice(b"\n")
}

// Puts a line of two pieces.
fn push_line(text: &mut Vec<u8>, label: &[u8], word: &[u8]) -> Result<(), AllocError>
    ensures { OnOk result (text.new.items ≡ text.old.items ++ spec.line (label.now ++ word.now)) }
{
    text.extend_from_slice(label)?;
    text.extend_from_slice(word)?;
    text.extend_from_slice(b"\n")
}

// Puts the value that a coordinate of a dimension stands for.
fn push_value(
    text: &mut Vec<u8>,
    schema: &Schema,
    dim: usize,
    coordinate: u32,
) -> Result<(), AllocError>
    ensures { OnOk result (text.new.items
        ≡ text.old.items ++ signed_decimal (value schema.now dim coordinate)) }
{
    push_signed(text, i128::from(schema.value(dim, coordinate)))
}
