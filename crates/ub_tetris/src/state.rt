ghost use Rattle.std.specs.Prelude.{◌≡◌, ◌≤◌, length};
ghost use Rattle.ub_query.specs.Posed.{IsPosed};
ghost use Rattle.ub_tetris.specs.Calls.{GivesRow, GivesValue, HandsAll};
ghost use Rattle.ub_tetris.specs.Effects.{of_reading};
ghost use Rattle.ub_tetris.specs.inner.Events.{seen};
ghost use Rattle.ub_tetris.specs.inner.Turns.{HandsTurn, HoldsNext, IsDueAs, OpensNext, ReadsNext, TakesDue, begun_view, view_of};

use crate::awaiting::Awaiting;
use crate::course::{Course, have_dimension};
use crate::event::{Awaited, is_past};
use crate::held::{HeldRows, coordinate};
use std::alloc::Global;
use ub_filter::{Choice, push_chosen};
use ub_page::RegionPage;
use ub_planning::Plan;
use ub_query::RowSink;
use ub_store::PageStore;
use ub_table::Row;
use ub_tree::{ReadFault, Tree};

/// How far a sweep has come.
#[derive(Drop)]
pub struct State {
    held: HeldRows,
    // The stretches that it is to come to.
    ahead: Awaiting,
    // The region fetched last; each takes its place, so that none moves.
    page: RegionPage,
}

impl State {
    /// A sweep that awaits these stretches, and reads each region into this page.
    pub fn new(alloc: Global, ahead: Awaiting, page: RegionPage) -> State
        ensures { view_of result ≡ begun_view ahead }
    {
        State {
            held: HeldRows::new(alloc),
            ahead,
            page,
        }
    }

    /// How many rows are held.
    pub fn held(&self) -> usize
        ensures { result ≡ length self.now.held }
    {
        self.held.len()
    }

    /// Fetches regions until none can hold a row before the first that is held, and takes that row.
    #[inline(always)]
    pub fn step<S: PageStore>(
        &mut self,
        tree: &mut Tree<S>,
        plan: &Plan,
    ) -> Result<Option<Row>, ReadFault>
        requires { IsPosed (length tree.old.schema.columns) plan.now.asked }
        ensures { GivesRow plan.now (view_of self.old) (view_of self.new) tree.old tree.new
            (of_reading result) }
    {
        while let Some(next) = self.take_due() {
            self.come_to(tree, plan, &next)?;
        }
        Ok(self.held.take_first())
    }

    /// Fetches regions until none can hold a row of the next value or of one before it, and takes the rows of that value.
    pub fn step_value<S: PageStore>(
        &mut self,
        tree: &mut Tree<S>,
        plan: &Plan,
    ) -> Result<Option<Vec<Row>>, ReadFault>
        requires { IsPosed (length tree.old.schema.columns) plan.now.asked }
        ensures { GivesValue plan.now (view_of self.old) (view_of self.new) tree.old tree.new
            (of_reading result) (λ rows. rows.items) }
    {
        let Some(first) = self.step(tree, plan)? else {
            return Ok(None);
        };
        let Course { dim, .. } = self.ahead.course();
        let rows = self.held.take_value(first, dim)?;
        Ok(Some(rows))
    }

    /// Fetches all regions that are left, in order, and hands a sink the rows of each that are chosen. Those held stay held.
    pub fn hand_over<S: PageStore, K: RowSink>(
        &mut self,
        tree: &mut Tree<S>,
        plan: &Plan,
        sink: &mut K,
    ) -> Result<(), ReadFault>
        requires { IsPosed (length tree.old.schema.columns) plan.now.asked }
        ensures { HandsAll (K.HasTaken tree.old.schema plan.now.asked) plan.now (view_of self.old)
            (view_of self.new) tree.old tree.new sink.old sink.new (of_reading result) }
    {
        while let Some(next) = self.ahead.take_first() {
            self.hand_next(tree, plan, &next, sink)?;
        }
        Ok(())
    }

    // Takes the first of those awaited, where it can hold a row that isn't after the first of those held.
    fn take_due(&mut self) -> Option<Awaited>
        ensures { TakesDue (view_of self.old) (view_of self.new) result }
    {
        let value = self.ahead.first_value()?;
        if !self.is_due(value) {
            return None;
        }
        self.ahead.take_first()
    }

    // Whether a stretch of this event value can hold a row that isn't after the first of those held.
    fn is_due(&self, value: u32) -> bool
        ensures { IsDueAs (view_of self.now) value result }
    {
        let Course { dim, is_descending } = self.ahead.course();
        match self.held.first() {
            Some(row) => !is_past(is_descending, coordinate(row, dim), value),
            None => true,
        }
    }

    // Opens a stretch, or fetches a region and holds its rows that are chosen.
    fn come_to<S: PageStore>(
        &mut self,
        tree: &mut Tree<S>,
        plan: &Plan,
        next: &Awaited,
    ) -> Result<(), ReadFault>
        requires { IsPosed (length tree.old.schema.columns) plan.now.asked }
        ensures { HoldsNext plan.now tree.old tree.new (view_of self.old) (view_of self.new)
            (seen next.now) result }
    {
        if next.stretch.level > 0 {
            return self.open(tree, plan, next);
        }
        self.read(tree, next)?;
        // Each call is given its plan, so the choice is made for that one.
        let choice = Choice::of(plan, tree.schema());
        push_chosen(&mut self.held, tree.schema(), plan, choice, &self.page)?;
        Ok(())
    }

    // Opens a stretch, or fetches a region and hands a sink its rows that are chosen.
    fn hand_next<S: PageStore, K: RowSink>(
        &mut self,
        tree: &mut Tree<S>,
        plan: &Plan,
        next: &Awaited,
        sink: &mut K,
    ) -> Result<(), ReadFault>
        requires { IsPosed (length tree.old.schema.columns) plan.now.asked }
        ensures { HandsTurn (K.HasTaken tree.old.schema plan.now.asked) plan.now tree.old tree.new
            (view_of self.old) (view_of self.new) (seen next.now) sink.old sink.new result }
    {
        if next.stretch.level > 0 {
            return self.open(tree, plan, next);
        }
        self.read(tree, next)?;
        let choice = Choice::of(plan, tree.schema());
        push_chosen(sink, tree.schema(), plan, choice, &self.page)?;
        Ok(())
    }

    // Awaits the parts of a stretch that meet the plan's boxes. None do of a plan whose boxes lack the sweep's dimension, which
    // isn't the one by which the sweep was begun.
    fn open<S: PageStore>(
        &mut self,
        tree: &mut Tree<S>,
        plan: &Plan,
        next: &Awaited,
    ) -> Result<(), ReadFault>
        requires { 1 ≤ next.now.stretch.level }
        ensures { OpensNext plan.now tree.old tree.new (view_of self.old) (view_of self.new)
            (seen next.now) result }
    {
        let Course { dim, .. } = self.ahead.course();
        if !have_dimension(plan.boxes(), dim) {
            return Ok(());
        }
        tree.open_stretch(&next.stretch, plan.boxes(), &mut self.ahead)?;
        Ok(())
    }

    // Reads a region.
    fn read<S: PageStore>(&mut self, tree: &mut Tree<S>, next: &Awaited) -> Result<(), ReadFault>
        requires { next.now.stretch.level ≡ 0 }
        ensures { ReadsNext tree.old tree.new self.old self.new (seen next.now) result }
    {
        tree.read_region(&next.stretch.span, &mut self.page)?;
        Ok(())
    }
}
