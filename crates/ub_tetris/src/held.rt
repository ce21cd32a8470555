ghost use Rattle.std.specs.Prelude.{◌≡◌, ◌∷◌, ◌≤ℤ◌, [], List, ℕ, ℤ, pos, neg_ℤ, length, map, IfOk, OnOk, OnErr, IsTrue, option_copied, slice_index};
ghost use Rattle.std.specs.List.{All};
ghost use Rattle.std.specs.List.Sorted.{IsPermutation};
ghost use Rattle.ub_query.specs.Lead.{group_lead, swept_order};
ghost use Rattle.ub_query.specs.Posed.{IsItemOver};
ghost use Rattle.ub_tetris.specs.Held as spec;
ghost use Rattle.ub_tetris.specs.inner.Kept.{HoldsAlso, IsFirstOf, TakesFirst, TakesFirstAt, TakesValue};

use crate::place::Held;
use crate::ranked::Ranked;
use std::alloc::{AllocError, Global};
use std::collections::BinaryHeap;
use std::marker::Model;
use std::slice;
use ub_query::{Query, RowSink, SortKey};
use ub_table::{Row, Schema};

/// The rows that a sweep holds, of which the first that is to be given is found at once.
#[derive(Drop)]
pub struct HeldRows {
    alloc: Global,
    heap: BinaryHeap<Ranked>,
    // Memory of rows that were given, for those that are held next.
    spare: Vec<Box<Held>>,
}

impl Model for HeldRows {
    ghost use Rattle.std.specs.BinaryHeap.{IsHeap, heap_items};
    ghost use Rattle.std.specs.Prelude.{List};
    ghost use Rattle.ub_tetris.specs.Held.{HeldRow};
    ghost use Rattle.ub_tetris.specs.inner.Kept.{held_cmp, held_of};

    ghost Value = { List HeldRow };

    ghost view = { λ h. held_of (heap_items h.heap) };

    ghost invariant = { λ h. IsHeap held_cmp (heap_items h.heap) };
}

impl HeldRows {
    /// None are held. Takes no memory.
    pub fn new(alloc: Global) -> HeldRows
        ensures { result ≡ [] }
    {
        HeldRows {
            alloc,
            heap: BinaryHeap::new(alloc),
            spare: Vec::new(alloc),
        }
    }

    /// How many are held.
    pub fn len(&self) -> usize
        ensures { result ≡ length self.now }
    {
        self.heap.len()
    }

    /// Holds one more row, in the order of these keys. Refused memory leaves those held as they were.
    #[inline(always)]
    pub fn hold(&mut self, schema: &Schema, keys: &[SortKey], row: &Row) -> Result<(), AllocError>
        requires { All (λ key. IsItemOver (length schema.now.columns) key.item) keys.now }
        ensures ok { OnOk result (IsPermutation
            (spec.held_row schema.now keys.now row.now ∷ self.old) self.new) }
        ensures err { OnErr result (self.new ≡ self.old) }
    {
        let mut held = room(&mut self.spare, self.alloc)?;
        held.fill(schema, keys, row)?;
        self.heap.push(Ranked::new(held))?;
        Ok(())
    }

    /// The first of those held by their keys, if there is one.
    pub fn first(&self) -> Option<&Row>
        ensures { IsFirstOf self.now (option_copied result) }
    {
        let first = self.heap.peek()?;
        Some(&first.held.row)
    }

    /// Takes the first of those held by their keys, if there is one.
    pub fn take_first(&mut self) -> Option<Row>
        ensures { TakesFirst self.old self.new result }
    {
        let Ranked { held, .. } = self.heap.pop()?;
        let row = held.row;
        // Where this is refused, the memory is given back.
        let _ = self.spare.push(held);
        Some(row)
    }

    /// This row, and after it those held of its coordinate in the dimension, each taken as the first while it has that. Where
    /// memory is refused some of them may be gone.
    pub fn take_value(&mut self, first: Row, dim: usize) -> Result<Vec<Row>, AllocError>
        ensures { IfOk result (λ rows. TakesValue dim first self.old self.new rows.items) }
    {
        let value = coordinate(&first, dim);
        let mut rows = Vec::new(self.alloc);
        rows.push(first)?;
        while let Some(row) = self.take_first_at(dim, value) {
            rows.push(row)?;
        }
        Ok(rows)
    }

    // Takes the first of those held by their keys, if there is one and it has this coordinate in the dimension.
    fn take_first_at(&mut self, dim: usize, value: u32) -> Option<Row>
        ensures { TakesFirstAt dim value self.old self.new result }
    {
        let at = coordinate(self.first()?, dim);
        if at != value {
            return None;
        }
        self.take_first()
    }
}

/// The sink of a sweep: its rows are held until they are given, in the order asked, or by the lead of the groups.
impl RowSink for HeldRows {
    ghost HasTaken = { λ schema q before taken now. HoldsAlso schema (swept_order q.group q.order)
        taken before now };

    fn push(&mut self, schema: &Schema, query: &Query, row: &Row) -> Result<(), AllocError> {
        let lead = query.group_lead();
        self.hold(schema, keys_by(query, &lead), row)
    }
}

// The keys by which rows are held: the lead of the groups, or where there is none the order asked.
#[inline(always)]
fn keys_by<'a>(query: &'a Query, lead: &'a Option<SortKey>) -> &'a [SortKey]
    requires { lead.now ≡ group_lead query.now.group query.now.order }
    ensures { result.now ≡ swept_order query.now.group query.now.order }
{
    match lead {
        Some(lead) => slice::from_ref(lead),
        None => query.order.as_slice(),
    }
}

/// The coordinate of a row in a dimension; 0 in one that no row has.
pub fn coordinate(row: &Row, dim: usize) -> u32
    ensures { result ≡ slice_index row.now.dims dim }
{
    row.dims.get(dim).copied().unwrap_or(0)
}

// Memory for one row more: some that is spare, or more.
fn room(spare: &mut Vec<Box<Held>>, alloc: Global) -> Result<Box<Held>, AllocError> {
    match spare.pop() {
        Some(held) => Ok(held),
        None => Ok(Box::new(alloc, Held::blank(alloc))?),
    }
}
