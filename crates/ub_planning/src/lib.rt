//! The plan of a query: what is read of a table, and what is asked of each row that is read.
//!
//! A plan has the boxes of the query's condition, outside of which no selected row lies, and the residual, which is what a row in
//! a box may still fail. So only the regions that meet a box are fetched. What is said of plans is said of lists of regions
//! (`ub_region`): no tree, store or page stands here, and a plan is carried out elsewhere.
#![tactic(auto)]

pub mod example;
pub mod law;
mod planned;
mod planning;

pub use planned::{Kind, Plan};
pub use planning::plan;
pub use ub_bigmin::ZBox;
pub use ub_query::{Cond, Query};
pub use ub_table::Schema;
