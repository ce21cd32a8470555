ghost use Rattle.std.specs.Prelude.{◌≡◌, ◌↔◌, IfOk, IsTrue};
ghost use Rattle.std.specs.List.{list_any};
ghost use Rattle.std.specs.Option.{option_map};
ghost use Rattle.ub_query.specs.Lead as lead;
ghost use Rattle.ub_query.specs.Posed as spec;
ghost use Rattle.ub_query.specs.Shape.{asked, shape};
ghost use Rattle.ub_query.specs.contracts.query.ItemPartialEq.TheImpl as derived;

use crate::condition::Cond;
use std::alloc::{AllocError, Global};
use ub_table::Items;

/// A query over the columns of one table. Columns are counted from 0, dimensions first.
#[derive(Drop)]
pub struct Query {
    /// What each row of the result has; `*` is all columns.
    pub items: Items<Item>,
    /// Which rows are selected; all where there is none.
    pub filter: Option<Cond>,
    /// The columns by which rows are grouped.
    pub group: Items<usize>,
    /// The keys by which the result is ordered, the first of them first.
    pub order: Items<SortKey>,
    /// How many rows the result has at most.
    pub limit: Option<u64>,
}

impl Query {
    /// The same query in memory of its own.
    pub fn copy(&self, alloc: Global) -> Result<Query, AllocError>
        ensures { IfOk result (λ q. asked q ≡ asked self.now) }
    {
        Ok(Query {
            items: self.items.copy(alloc)?,
            filter: copy_of(alloc, &self.filter)?,
            group: self.group.copy(alloc)?,
            order: self.order.copy(alloc)?,
            limit: self.limit,
        })
    }

    /// Whether the query gives groups: it has GROUP BY, or an aggregate among its items. Takes no memory.
    pub fn has_groups(&self) -> bool
        ensures told { result ≡ spec.has_groups (asked self.now) }
        ensures groups { IsTrue result ↔ spec.IsGroupQuery (asked self.now) }
    {
        !self.group.as_slice().is_empty() || has_aggregate(self.items.as_slice())
    }

    /// Whether the result is one entry of all selected rows: it has an aggregate among its items, and no GROUP BY. Takes no memory.
    pub fn is_one_entry(&self) -> bool
        ensures { result ≡ lead.is_one_entry (asked self.now) }
    {
        self.group.as_slice().is_empty() && has_aggregate(self.items.as_slice())
    }

    /// The lead of a query with GROUP BY, along which its groups can be swept: its first order key, else its first group column
    /// ascending. None without GROUP BY. Takes no memory.
    pub fn group_lead(&self) -> Option<SortKey>
        ensures { result ≡ lead.group_lead (asked self.now).group (asked self.now).order }
    {
        let column = *self.group.as_slice().first()?;
        match self.order.as_slice().first() {
            Some(key) => Some(*key),
            None => Some(SortKey {
                item: Item::Column(column),
                is_descending: false,
            }),
        }
    }
}

// Whether some item is an aggregate.
fn has_aggregate(items: &[Item]) -> bool
    ensures { result ≡ list_any spec.is_aggregate items.now }
{
    items.iter().any(|item| item.is_aggregate())
}

// The same condition in memory of its own, if there is one.
fn copy_of(alloc: Global, filter: &Option<Cond>) -> Result<Option<Cond>, AllocError>
    ensures { IfOk result (λ c. option_map shape c ≡ option_map shape filter.now) }
{
    match filter {
        Some(condition) => Ok(Some(condition.copy(alloc)?)),
        None => Ok(None),
    }
}

/// One thing that is selected, or by which is ordered.
#[derive(Clone, Copy, PartialEq, Eq, Debug)]
pub enum Item {
    /// The value in a column.
    Column(usize),
    /// COUNT(*)
    Count,
    /// SUM, MIN or MAX of a column.
    Aggregate(Aggregate, usize),
}

impl Item {
    /// Whether the item is COUNT, SUM, MIN or MAX. Takes no memory.
    pub fn is_aggregate(self) -> bool
        ensures told { result ≡ spec.is_aggregate self }
        ensures aggregate { IsTrue result ↔ spec.IsAggregate self }
    {
        match self {
            Item::Column(_) => false,
            Item::Count | Item::Aggregate(_, _) => true,
        }
    }

    /// Whether the other item is the same. Takes no memory.
    pub fn is_same(self, other: Item) -> bool
        ensures told { result ≡ derived.eq-value.it self other }
        ensures same { IsTrue result ↔ (self ≡ other) }
    {
        self == other
    }
}

/// What is taken of a column's values.
#[derive(Clone, Copy, PartialEq, Eq, Debug)]
pub enum Aggregate {
    Sum,
    Min,
    Max,
}

/// A key by which a result is ordered.
#[derive(Clone, Copy, PartialEq, Eq, Debug)]
pub struct SortKey {
    /// The item whose values are compared.
    pub item: Item,
    /// Whether greater values come first.
    pub is_descending: bool,
}
