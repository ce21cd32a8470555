ghost use Rattle.std.specs.Prelude.{◌≡◌, ℕ, IfOk, IsTrue, Err};
ghost use Rattle.ub_plan.specs.Counted.{AreCounted};
ghost use Rattle.ub_plan.specs.Explained.{AreMet, IsExplained, explain_text};
ghost use Rattle.ub_tree.specs.Reading.{SearchesTree};
ghost use Rattle.ub_tree.specs.View.{IsSound, region_count, regions};

use crate::lines::plan_text;
use std::alloc::{AllocError, Global};
use ub_bigmin::ZBox;
use ub_planning::Plan;
use ub_store::PageStore;
use ub_tree::{ReadFault, Region, RegionSink, Tree, TreeFault};

/// The text of an EXPLAIN: how the plan reads the tree's regions, its cover, whether it asks more of a row, its boxes, how many
/// points these have, and how many of the regions meet them: over any tree so many as its searches tell of. No region is
/// fetched, and the trace stays.
///
/// `Memory` where memory was refused; `Tree` where the tree refused, as it does where it has failed. On a sound tree it refuses
/// only where its store failed in this call.
pub fn explain<S: PageStore>(
    alloc: Global,
    plan: &Plan,
    tree: &mut Tree<S>,
) -> Result<Vec<u8>, ReadFault>
    ensures lines { IfOk result (λ text. (met : ℕ)
        × AreCounted plan.now.covering.boxes tree.old met
        × (text.items ≡ explain_text tree.old.schema plan.now met (region_count tree.old))) }
    ensures text { IsSound tree.old
        → IfOk result (λ text. IsExplained tree.old.schema plan.now (regions tree.old) text.items) }
    ensures failed { IsTrue tree.old.is_failed → result ≡ Err (ReadFault.Tree TreeFault.Failed) }
    ensures effect { SearchesTree plan.now.covering.boxes tree.old tree.new result }
{
    if tree.has_failed() {
        return Err(ReadFault::Tree(TreeFault::Failed));
    }
    let met = count_met(tree, plan.boxes())?;
    Ok(plan_text(alloc, tree.schema(), plan, met, tree.regions())?)
}

// How many regions meet the boxes. None is fetched.
fn count_met<S: PageStore>(tree: &mut Tree<S>, boxes: &[ZBox]) -> Result<u64, ReadFault>
    ensures counted { IfOk result (AreCounted boxes.now tree.old) }
    ensures met { IsSound tree.old → IfOk result (AreMet tree.old.schema boxes.now
        (regions tree.old)) }
    ensures effect { SearchesTree boxes.now tree.old tree.new result }
{
    let mut met = Counter {
        count: 0,
        last: None,
    };
    loop {
        let after = met.last;
        met.last = None;
        tree.hand_next(boxes, after.as_ref(), &mut met)?;
        if met.last.is_none() {
            return Ok(met.count);
        }
    }
}

/// Counts the regions that it is handed, as far as 64 bits count, and keeps the last of them.
#[derive(Drop)]
pub struct Counter {
    count: u64,
    last: Option<Region>,
}

impl RegionSink for Counter {
    ghost use Rattle.std.specs.Prelude.{◌≡◌, ◌+◌, min, length};
    ghost use Rattle.ub_plan.specs.inner.Counting.{last_or};

    ghost Takes = { λ boxes start taken now. (now.count ≡ min (start.count + length taken) 18446744073709551615)
        × (now.last ≡ last_or start.last taken) };

    fn push(&mut self, _boxes: &[ZBox], region: &Region) -> Result<(), AllocError> {
        self.count = self.count.saturating_add(1);
        self.last = Some(*region);
        Ok(())
    }
}
