ghost use Rattle.std.specs.Prelude.{◌≡◌, ◌<◌, ◌↔◌, ◌++◌, List, None, length, IsTrue, IfSome, OnOk, if◌then◌else◌};
ghost use Rattle.std.specs.Int.{bit_at};
ghost use Rattle.std.specs.List.{filter};
ghost use Rattle.std.specs.Option.{option_map};
ghost use Rattle.ub_filter.specs.Batch.{rows_at};
ghost use Rattle.ub_filter.specs.Choice.{IsFit, is_chosen};
ghost use Rattle.ub_query.specs.Groups as sql;
ghost use Rattle.ub_query.specs.Posed.{IsPosed, IsOver};
ghost use Rattle.ub_query.specs.Shape.{asked, shape};
ghost use Rattle.ub_table.specs.declared.row.Row.{Row as RowView};

use crate::batch::PageBatch;
use crate::choice::Choice;
use std::alloc::AllocError;
use ub_page::RegionPage;
use ub_planning::Plan;
use ub_query::{Cond, Query, RowSink};
use ub_table::{Row, Schema};

/// Hands a sink the rows of a page that are chosen, in the order in which they stand there: all at once where their places tell
/// all, and the sink takes them so, and else one by one.
///
/// `AllocError` where the sink was refused memory; it is used no more then.
pub fn push_chosen<K: RowSink>(
    sink: &mut K,
    schema: &Schema,
    plan: &Plan,
    choice: Choice,
    page: &RegionPage,
) -> Result<(), AllocError>
    requires posed { IsPosed (length schema.now.columns) plan.now.asked }
    requires fit { IsFit schema.now plan.now choice }
    requires dims { page.now.dims ≡ schema.now.dims }
    ensures { (before : K) (taken : List RowView)
        → K.HasTaken schema.now plan.now.asked before taken sink.old
        → OnOk result (K.HasTaken schema.now plan.now.asked before
        (taken ++ filter (is_chosen choice schema.now plan.now) page.now.region.rows) sink.new) }
{
    let candidates = choice.candidates(plan, schema, page);
    let condition = choice.recheck(plan);
    let query = plan.query();
    let count = page.len();
    let batch = PageBatch {
        page,
        mask: candidates,
    };
    if are_taken_at_once(sink, schema, query, condition, &batch) {
        return Ok(());
    }
    for place in 0..count {
        if is_set(candidates, place) {
            let row = page.row(place);
            if is_true(condition, schema, &row) {
                sink.push(schema, query, &row)?;
            }
        }
    }
    Ok(())
}

// Hands a sink some rows at once, where no condition is left to be asked of them, and says whether it took them. Where it
// didn't, none was handed over.
fn are_taken_at_once<K: RowSink>(
    sink: &mut K,
    schema: &Schema,
    query: &Query,
    condition: Option<&Cond>,
    batch: &PageBatch,
) -> bool
    requires { IsPosed (length schema.now.columns) (asked query.now) }
    ensures taken { (before : K) (taken : List RowView)
        → K.HasTaken schema.now (asked query.now) before taken sink.old
        → K.HasTaken schema.now (asked query.now) before (if result
        then taken ++ rows_at batch.now.mask batch.now.page.now.region.rows else taken) sink.new }
    ensures told { IsTrue result → option_map (λ c. shape c.now) condition.entry ≡ None }
{
    condition.is_none() && sink.push_batch(schema, query, batch)
}

// Whether a condition is true of a row, where there is one.
fn is_true(condition: Option<&Cond>, schema: &Schema, row: &Row) -> bool
    requires { IfSome (option_map (λ c. shape c.now) condition)
        (λ c. IsOver (length schema.now.columns) c) }
    ensures { result ≡ sql.is_selected schema.now (option_map (λ c. shape c.now) condition.entry)
        row.now }
{
    match condition {
        None => true,
        Some(condition) => condition.truth(schema, row),
    }
}

// Whether the bit of a number at a place is 1.
fn is_set(mask: u64, place: usize) -> bool
    requires { place < 64 }
    ensures { IsTrue result ↔ (bit_at mask place ≡ 1) }
{
    (mask >> place) & 1 == 1
}
