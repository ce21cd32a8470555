ghost use Rattle.std.specs.Prelude.{◌≡◌, ◌++◌, List, Some, length, option_copied, IfOk, IfSome, OnErr, OnOk};
ghost use Rattle.std.specs.List.{filter};
ghost use Rattle.ub_exec.specs.Reading.{AreRowsOfNext, HasReadAll, HasReadNext, HasReadRows, ReadsNoting, StandAhead};
ghost use Rattle.ub_filter.specs.Choice.{IsFit, is_chosen};
ghost use Rattle.ub_exec.specs.Visits.{Hands, HasTurned, HasTurnedSome, HasWalked, HasWalkedFirst};
ghost use Rattle.ub_query.specs.Posed.{IsPosed};
ghost use Rattle.ub_table.specs.declared.row.Row.{Row as RowView};
ghost use Rattle.ub_tree.specs.Effects.{SearchesFor};
ghost use Rattle.ub_tree.specs.Spans.{First, IsLater, Meets};
ghost use Rattle.ub_tree.specs.Told.{GivesNext, IsRegionOf, SeeksNext};
ghost use Rattle.ub_tree.specs.View.{IsSound, spans_of};

use std::alloc::Global;
use std::collections::VecDeque;
use ub_bigmin::ZBox;
use ub_filter::{Choice, push_chosen};
use ub_page::RegionPage;
use ub_planning::Plan;
use ub_query::RowSink;
use ub_store::PageStore;
use ub_tree::{ReadFault, Region, Tree, TreeFault};

/// Reads each region that meets the plan's boxes, once, in the order of their keys, and hands a sink the rows in them that are
/// chosen. Of the index it goes along one leaf after the other.
pub(crate) fn walk<S: PageStore, K: RowSink>(
    alloc: Global,
    tree: &mut Tree<S>,
    plan: &Plan,
    choice: Choice,
    sink: &mut K,
) -> Result<(), ReadFault>
    requires posed { IsPosed (length tree.old.schema.columns) plan.now.asked }
    requires fit { IsFit tree.old.schema plan.now choice }
    ensures rows { OnOk result (Hands (K.HasTaken tree.old.schema plan.now.asked)
        (is_chosen choice tree.old.schema plan.now) sink.old sink.new
        (λ rows. HasReadRows plan.now.covering.boxes tree.old tree.new rows
        × (IsSound tree.old → HasWalked plan.now.covering.boxes tree.old tree.new rows))) }
    ensures broken { (before : K) (taken : List RowView)
        → K.HasTaken tree.old.schema plan.now.asked before taken sink.old → IsSound tree.old
        → OnErr result (HasWalkedFirst plan.now.covering.boxes tree.old tree.new) }
    ensures all { OnOk result (HasReadAll plan.now.covering.boxes tree.old tree.new) }
    ensures effect { ReadsNoting tree.old tree.new result }
{
    let mut page = tree.empty_region();
    let mut ahead = VecDeque::new(alloc);
    let mut after = None;
    while let Some(region) = visit_next(
        tree,
        plan,
        choice,
        after.as_ref(),
        &mut ahead,
        &mut page,
        sink,
    )? {
        after = Some(region);
    }
    Ok(())
}

// Reads the next region that meets the boxes, later than the one given, into the page, and hands the sink its chosen rows; None
// where there is no more. Those that are known to come next stand ahead.
fn visit_next<S: PageStore, K: RowSink>(
    tree: &mut Tree<S>,
    plan: &Plan,
    choice: Choice,
    after: Option<&Region>,
    ahead: &mut VecDeque<Region>,
    page: &mut RegionPage,
    sink: &mut K,
) -> Result<Option<Region>, ReadFault>
    requires fit { IsPosed (length tree.old.schema.columns) plan.now.asked
        × IsFit tree.old.schema plan.now choice }
    requires ahead { IfSome (option_copied after) (IsRegionOf tree.old)
        × StandAhead plan.now.covering.boxes tree.old (option_copied after) ahead.old.items }
    ensures rows { IfOk result (λ found. Hands (K.HasTaken tree.old.schema plan.now.asked)
        (is_chosen choice tree.old.schema plan.now) sink.old sink.new
        (λ rows. AreRowsOfNext tree.old found rows × (IsSound tree.old
        → HasTurned plan.now.covering.boxes (option_copied after.entry) tree.old tree.new found
        rows))) }
    ensures broken { IsSound tree.old → OnErr result
        (HasTurnedSome plan.now.covering.boxes (option_copied after.entry) tree.old tree.new) }
    ensures next { IfOk result (λ found. HasReadNext plan.now.covering.boxes
        (option_copied after.entry) tree.old tree.new found × IfSome found
        (λ span. StandAhead plan.now.covering.boxes tree.old (Some span) ahead.new.items)) }
    ensures effect { ReadsNoting tree.old tree.new result }
{
    let are_new = ahead.is_empty();
    let Some(region) = take_next(tree, plan.boxes(), after, ahead)? else {
        return Ok(None);
    };
    let run = run_of(&region, after, ahead, are_new);
    tree.read_in_run(&region, run, page)?;
    push_chosen(sink, tree.schema(), plan, choice, page)?;
    Ok(Some(region))
}

// How many pages from a region's on are those of the regions that stand ahead. None where that was told before: the region stands on
// the page behind that of the one before it, and those ahead aren't new.
fn run_of(region: &Region, after: Option<&Region>, ahead: &VecDeque<Region>, are_new: bool) -> u32 {
    if !are_new && stands_behind(region, after) {
        return 0;
    }
    let mut run = 1u32;
    for next in ahead.iter() {
        if region.page.checked_add(run) != Some(next.page) {
            return run;
        }
        run = run.saturating_add(1);
    }
    run
}

// Whether a region stands on the page behind that of another one.
fn stands_behind(region: &Region, before: Option<&Region>) -> bool {
    match before {
        Some(before) => before.page.checked_add(1) == Some(region.page),
        None => false,
    }
}

// Takes the next region that meets the boxes, later than the one given, of those that stand ahead. Where none does, the next ones come
// there first: some of those that one leaf of the index names.
fn take_next<S: PageStore>(
    tree: &mut Tree<S>,
    boxes: &[ZBox],
    after: Option<&Region>,
    ahead: &mut VecDeque<Region>,
) -> Result<Option<Region>, TreeFault>
    requires told { IfSome (option_copied after) (IsRegionOf tree.old) }
    requires ahead { StandAhead boxes.now tree.old (option_copied after) ahead.old.items }
    ensures found { IsSound tree.old → IfOk result
        (λ found. First (λ r. IsLater (option_copied after.entry) r × Meets boxes.now r)
        (spans_of tree.old) found) }
    ensures gives { IfOk result (GivesNext boxes.now tree.old (option_copied after.entry)) }
    ensures left { IfOk result (λ found. IfSome found
        (λ span. StandAhead boxes.now tree.old (Some span) ahead.new.items)) }
    ensures effect { SearchesFor (SeeksNext boxes.now tree.old (option_copied after.entry))
        tree.old tree.new result }
{
    if let Some(region) = ahead.pop_front() {
        return Ok(Some(region));
    }
    tree.hand_next(boxes, after, ahead)?;
    Ok(ahead.pop_front())
}
