ghost use Rattle.std.specs.Prelude.{IfOk};
ghost use Rattle.ub_tetris.specs.Awaited.{HaveDimension};
ghost use Rattle.ub_tetris.specs.inner.Events.{AwaitsWhole};

use crate::awaiting::Awaiting;
use crate::course::{Course, NOWHERE, course_of};
use crate::event::{Awaited, first_value};
use crate::fault::{SweepFault, settled};
use crate::state::State;
use std::alloc::{AllocError, Global};
use std::marker::Model;
use ub_bigmin::ZBox;
use ub_page::RegionPage;
use ub_planning::Plan;
use ub_query::RowSink;
use ub_store::PageStore;
use ub_table::Row;
use ub_tree::{Stretch, Tree, TreeFault};

/// A sweep over the regions of a tree, by a plan.
///
/// It borrows nothing: each call is given the tree and the plan that `new` was given, the tree as the sweep's last call left
/// it.
#[derive(Drop)]
pub struct Sweep {
    state: State,
    is_failed: bool,
}

impl Model for Sweep {
    ghost use Rattle.ub_tetris.specs.Sweep.{SweepView};
    ghost use Rattle.ub_tetris.specs.inner.Turns.{view_by};

    ghost Value = { SweepView };

    ghost view = { λ s. view_by s.state s.is_failed };
}

impl Sweep {
    ghost use Rattle.std.specs.Prelude.{◌≡◌, length};
    ghost use Rattle.ub_query.specs.Posed.{IsPosed};
    ghost use Rattle.ub_tetris.specs.Calls.{BeginsBy, GivesRow, GivesValue, HandsAll};
    ghost use Rattle.ub_tetris.specs.Effects.{FailsOnce};
    ghost use Rattle.ub_tetris.specs.inner.Turns.{begun_view};

    /// Begins a sweep by a plan. The trace begins anew, and no page is read, neither of a region nor of the index. Of a plan that
    /// is no sweep it comes to no region; of a query's plan over the tree's schema that is one it awaits the whole tree, over any
    /// tree, or nothing, where no address of the space lies in a box.
    ///
    /// `Memory` where memory was refused; `Tree` with Failed where the tree has failed, whatever the plan.
    pub fn new<S: PageStore>(
        alloc: Global,
        tree: &mut Tree<S>,
        plan: &Plan,
    ) -> Result<Sweep, SweepFault>
        ensures { BeginsBy plan.now tree.old tree.new result }
    {
        tree.begin();
        if tree.has_failed() {
            return Err(SweepFault::Tree(TreeFault::Failed));
        }
        let Some(course) = course_of(plan) else {
            let ahead = Awaiting::new(alloc, NOWHERE);
            return Ok(Sweep::over(alloc, ahead, tree.empty_region()));
        };
        let ahead = await_whole(alloc, tree.whole(), plan.boxes(), course)?;
        Ok(Sweep::over(alloc, ahead, tree.empty_region()))
    }

    // A sweep that awaits these stretches, and reads each region into this page.
    fn over(alloc: Global, ahead: Awaiting, page: RegionPage) -> Sweep
        ensures { result ≡ begun_view ahead }
    {
        Sweep {
            state: State::new(alloc, ahead, page),
            is_failed: false,
        }
    }

    /// The next row in the order asked, or by the lead of the groups; `None` after the last, however often it is asked.
    ///
    /// No region is fetched that can only hold rows after this one. Over any tree, also one that isn't sound: none is fetched
    /// twice, also where it answers a fault; where it answers none, each that was fetched was taken in, and the rows held before
    /// and those chosen of these regions are the row given and the rows held now. `None` comes only where no row is held and no
    /// region is left, and from then on each call answers it and changes nothing. With each row there are fewer that it can
    /// still give. `Memory` where memory was refused; `Tree` where the tree refused; after either of them `Failed` each time.
    pub fn next<S: PageStore>(
        &mut self,
        tree: &mut Tree<S>,
        plan: &Plan,
    ) -> Result<Option<Row>, SweepFault>
        requires { IsPosed (length tree.old.schema.columns) plan.now.asked }
        ensures gives { GivesRow plan.now self.old self.new tree.old tree.new result }
        ensures once { FailsOnce self.old self.new tree.old tree.new result }
    {
        if self.is_failed {
            return Err(SweepFault::Failed);
        }
        let found = self.state.step(tree, plan);
        settled(&mut self.is_failed, found)
    }

    /// All selected rows of the next value of the sweep's dimension that a selected row has, by row number; `None` after the
    /// last, however often it is asked. Of a query with GROUP BY these are whole groups.
    ///
    /// No region is fetched that can only hold rows past that value. Over any tree it gives one row at least, and no empty list,
    /// and else it is as `next`: what it fetches, where its rows come from, when it answers `None`, and its faults.
    pub fn next_value<S: PageStore>(
        &mut self,
        tree: &mut Tree<S>,
        plan: &Plan,
    ) -> Result<Option<Vec<Row>>, SweepFault>
        requires { IsPosed (length tree.old.schema.columns) plan.now.asked }
        ensures gives { GivesValue plan.now self.old self.new tree.old tree.new result
            (λ rows. rows.items) }
        ensures once { FailsOnce self.old self.new tree.old tree.new result }
    {
        if self.is_failed {
            return Err(SweepFault::Failed);
        }
        let rows = self.state.step_value(tree, plan);
        settled(&mut self.is_failed, rows)
    }

    /// Fetches all regions that are left, in order, and hands a sink the selected rows of each, as they stand there: so all rows
    /// come where no order of them is asked for. A sweep that has given none hands over all selected rows. Those that it holds
    /// stay held.
    ///
    /// Over any tree, also one that isn't sound: no region is fetched twice, also where it answers a fault; where it answers
    /// none each was taken in, none is left, and what the sink takes are the rows chosen of each, and no others. It has the
    /// faults of `next`, and after one the sink is used no more.
    pub fn hand_over<S: PageStore, K: RowSink>(
        &mut self,
        tree: &mut Tree<S>,
        plan: &Plan,
        sink: &mut K,
    ) -> Result<(), SweepFault>
        requires { IsPosed (length tree.old.schema.columns) plan.now.asked }
        ensures hands { HandsAll (K.HasTaken tree.old.schema plan.now.asked) plan.now self.old
            self.new tree.old tree.new sink.old sink.new result }
        ensures once { FailsOnce self.old self.new tree.old tree.new result }
    {
        if self.is_failed {
            return Err(SweepFault::Failed);
        }
        let handed = self.state.hand_over(tree, plan, sink);
        settled(&mut self.is_failed, handed)
    }

    /// How many rows are held: they were fetched, and are still to be given.
    pub fn held(&self) -> usize
        ensures { result ≡ length self.now.held }
    {
        self.state.held()
    }
}

// Awaits the whole of a tree with its event value; nothing where it doesn't meet the boxes.
fn await_whole(
    alloc: Global,
    whole: Stretch,
    boxes: &[ZBox],
    course: Course,
) -> Result<Awaiting, AllocError>
    requires { HaveDimension course.dim boxes.now }
    ensures { IfOk result (AwaitsWhole boxes.now course whole) }
{
    let mut ahead = Awaiting::new(alloc, course);
    let Some(value) = first_value(boxes, &whole.span, course) else {
        return Ok(ahead);
    };
    ahead.put(Awaited {
        value,
        is_descending: course.is_descending,
        stretch: whole,
    })?;
    Ok(ahead)
}
