//! The answer of a query, made from its selected rows, which are handed over one by one or some at once, in any order.
//!
//! A gathering holds what its answer needs and no more: `rows` those of a query of rows, with LIMIT n not many
//! more than n of them; `totals` the cells of aggregates over all rows; `groups` the cells of each group of these
//! rows, also where LIMIT asks for fewer groups. So memory grows with the answer, or with the groups, and not with
//! the table. `tally` takes a row into the cells of a group, or some rows at once by what each item shows of these (`part`), `order`
//! compares entries by the keys of a query. The answer is a `result_set`: of a query of rows it is those rows, which have no
//! cells until these are read (`row_set`), else the `cells` of the groups. To whoever finds the rows a gathering is a `RowSink`
//! (`sink`). No tree and no page is known here, and what a query means stands in `ub_query`.
#![tactic(auto)]

pub mod cells;
pub mod gathering;
mod groups;
mod order;
mod part;
pub mod result_set;
mod row_set;
mod rows;
mod sink;
mod tally;
mod totals;
mod values;

pub use cells::Cells;
pub use gathering::Gathering;
pub use result_set::ResultSet;
