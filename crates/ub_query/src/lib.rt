//! Queries: what is asked of one table, and what it means.
//!
//! A query is items, a condition, groups, order keys and a limit, over the columns of a table, which are counted from 0. What it
//! means stands in specs/ as plain relations on lists and whole numbers, in nine files that are read in this order: `Shape` (a
//! query without its memory), `Truth` (whether a condition holds of a row), `Cells` (what stands in a result), `Groups` (which
//! rows are selected, and into which groups they fall), `Order` (the order asked), `Posed` (what is true of every query that is
//! accepted, and which of them give groups), `Meaning` (which rows of cells a query gives on a table), `Lead` (the key along
//! which the rows of a result can be found) and `Laws`. Worked examples stand in `Examples`. How a query is written, where the
//! rows are kept and how they are found stands elsewhere: those who find rows of a query hand them to a `RowSink`, one by one, or as
//! a `RowBatch`.
#![tactic(auto)]

pub mod cell;
pub mod condition;
pub mod example;
pub mod law;
pub mod query;
pub mod sink;

pub use cell::Cell;
pub use condition::{Cond, Operator};
pub use query::{Aggregate, Item, Query, SortKey};
pub use sink::{RowBatch, RowSink};
pub use ub_table::Items;
