ghost use Rattle.std.specs.Prelude.{◌≡◌, IfOk};
ghost use Rattle.std.specs.Option.{option_map};
ghost use Rattle.ub_boxes.specs.Boxes.{boxes_of};
ghost use Rattle.ub_planning.specs.Meaning.{MeansAs};
ghost use Rattle.ub_planning.specs.Plan as spec;
ghost use Rattle.ub_query.specs.Shape.{asked, shape};

use crate::planned::{Kind, Plan};
use std::alloc::{AllocError, Global};
use ub_bigmin::ZBox;
use ub_boxes::boxes;
use ub_query::{Item, Query, SortKey};
use ub_table::Schema;

/// The plan of a query over a table of this schema. Takes memory for the boxes, and for the query, of which it keeps a copy.
pub fn plan(alloc: Global, query: &Query, schema: &Schema) -> Result<Plan, AllocError>
    ensures plan { IfOk result (λ p. p ≡ spec.plan_of schema.now (asked query.now)) }
    ensures meaning { IfOk result (λ p. MeansAs schema.now p (asked query.now)) }
{
    let cover = boxes(alloc, query.filter.as_ref(), schema)?;
    let kind = planned_kind(schema, query, cover.boxes());
    Ok(Plan::new(kind, cover, query.copy(alloc)?))
}

// How the regions are read for a query whose condition has these boxes, by the first rule that holds.
fn planned_kind(schema: &Schema, query: &Query, boxes: &[ZBox]) -> Kind
    requires { boxes.now ≡ boxes_of schema.now (option_map shape query.now.filter) }
    ensures { result ≡ spec.planned_kind schema.now (asked query.now) }
{
    if boxes.is_empty() || query.limit == Some(0) {
        return Kind::Empty;
    }
    if query.is_one_entry() {
        return Kind::Scan;
    }
    match query.group_lead() {
        Some(lead) => along(schema, Some(&lead)),
        None => along(schema, query.order.as_slice().first()),
    }
}

// A sweep along the dimension that an order key names, if there is a key and it names one; else a scan.
fn along(schema: &Schema, key: Option<&SortKey>) -> Kind
    ensures { result ≡ spec.along schema.now.dims (option_map (λ k. k.now) key.entry) }
{
    match key {
        Some(
            SortKey {
                item: Item::Column(dim),
                is_descending,
            },
        ) if *dim < schema.dims() as usize => {
            Kind::Sweep {
                dim: *dim,
                is_descending: *is_descending,
            }
        }
        _ => Kind::Scan,
    }
}
