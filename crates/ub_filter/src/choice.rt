ghost use Rattle.std.specs.Prelude.{◌≡◌, ◌≤◌, ◌<◌, ◌↔◌, ℕ, Some, length, take, slice_get, IsTrue, IfSome};
ghost use Rattle.std.specs.Int.{bit_at};
ghost use Rattle.std.specs.List.{AllByRecursion};
ghost use Rattle.std.specs.Option.{option_map};
ghost use Rattle.ub_boxes.specs.Laws.{IsInSome};
ghost use Rattle.ub_filter.specs.Choice as spec;
ghost use Rattle.ub_filter.specs.Choice.{IsFit};
ghost use Rattle.ub_query.specs.Posed.{IsPosed, IsOver, comparisons};
ghost use Rattle.ub_query.specs.Shape.{asked, shape};
ghost use Rattle.ub_table.specs.declared.row.Row.{Row as RowView};

use ub_bigmin::ZBox;
use ub_page::RegionPage;
use ub_planning::Plan;
use ub_query::{Cond, Query};
use ub_table::Schema;

// So many columns of a page are asked by lanes in no more time than each of its rows is for one comparison.
const COLUMNS_FOR_A_COMPARISON: usize = 4;

/// By what the rows that a plan takes are told from the others of a page. On a sound tree both tell the same rows, and these
/// are the selected ones (`law::chosen_are_selected`).
#[derive(Clone, Copy, PartialEq, Eq, Debug)]
pub enum Choice {
    /// A row is taken that lies in one of the boxes, and of which the residual is true.
    Boxes,
    /// A row is taken of which the query's condition is true.
    Condition,
}

impl Choice {
    /// What costs less. The boxes ask each column of coordinates once for each box, by lanes, and the condition asks a value of each
    /// row once for each of its comparisons. An exact condition can have a thousand boxes, so the boxes are asked only where they and
    /// their dimensions are no more than the comparisons, or, where no row is rechecked, than `COLUMNS_FOR_A_COMPARISON` times these.
    /// Without a condition nothing is asked.
    pub fn of(plan: &Plan, schema: &Schema) -> Choice
        requires { IsPosed (length schema.now.columns) plan.now.asked }
        ensures { IsFit schema.now plan.now result }
    {
        let dims = schema.dims() as usize;
        let asked_of_boxes = plan.boxes().len().saturating_mul(dims);
        let asked_of_rows = comparisons_of(plan.query());
        let is_cheap = asked_of_boxes <= asked_of_rows.saturating_mul(columns_for_each(plan));
        if is_cheap && have_dims(plan.boxes(), dims) {
            Choice::Boxes
        } else {
            Choice::Condition
        }
    }

    /// Which rows of a page can be taken, as far as their points tell: bit i is that of the row at place i.
    pub(crate) fn candidates(self, plan: &Plan, schema: &Schema, page: &RegionPage) -> u64
        requires fit { IsFit schema.now plan.now self }
        requires dims { page.now.dims ≡ schema.now.dims }
        ensures { (i : ℕ) (row : RowView) → i < 64 → slice_get page.now.region.rows i ≡ Some row
            → (bit_at result i ≡ 1) ↔ IsTrue (spec.is_candidate self schema.now plan.now.covering.boxes
            row) }
    {
        match self {
            Choice::Boxes => rows_inside(plan.boxes(), page),
            Choice::Condition => u64::MAX,
        }
    }

    /// What is asked of such a row.
    pub(crate) fn recheck(self, plan: &Plan) -> Option<&Cond>
        ensures { option_map (λ c. shape c.now) result ≡ spec.recheck_by self plan.now }
    {
        match self {
            Choice::Boxes => plan.residual(),
            Choice::Condition => plan.query().filter.as_ref(),
        }
    }
}

// How many columns of a page may be asked for each comparison.
fn columns_for_each(plan: &Plan) -> usize {
    match plan.residual() {
        None => COLUMNS_FOR_A_COMPARISON,
        Some(_) => 1,
    }
}

// How many comparisons the condition of a query has.
fn comparisons_of(query: &Query) -> usize
    requires { IfSome (asked query.now).filter (λ c. comparisons c ≤ 64) }
{
    match &query.filter {
        None => 0,
        Some(condition) => comparisons(condition),
    }
}

// How many comparisons a condition has; a BETWEEN is one.
fn comparisons(condition: &Cond) -> usize
    requires { comparisons (shape condition.now) ≤ 64 }
    ensures { result ≡ comparisons (shape condition.now) }
{
    match condition {
        Cond::And(a, b) | Cond::Or(a, b) => comparisons(a) + comparisons(b),
        Cond::Not(a) => comparisons(a),
        Cond::Compare { .. } | Cond::Between { .. } => 1,
    }
}

// Whether the boxes have so many dimensions; those of a plan for a table have as many as the table.
fn have_dims(boxes: &[ZBox], dims: usize) -> bool
    ensures { IsTrue result → AllByRecursion (λ b. length b.lo ≡ dims) boxes.now }
{
    boxes.iter().all(|zbox| zbox.lo().values().len() == dims)
}

// Which rows of a page lie in one of the boxes: bit i is that of the row at place i.
fn rows_inside(boxes: &[ZBox], page: &RegionPage) -> u64
    requires { AllByRecursion (λ b. length b.lo ≡ page.now.dims) boxes.now }
    ensures { (i : ℕ) (row : RowView) → slice_get page.now.region.rows i ≡ Some row
        → (bit_at result i ≡ 1) ↔ IsInSome boxes.now (take page.now.dims row.dims) }
{
    let mut inside = 0;
    for zbox in boxes {
        inside |= page.mask(zbox);
    }
    inside
}
