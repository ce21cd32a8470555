//! EXPLAIN: how a plan reads a tree, told without fetching any region. The plan itself, which is passed on here, stands in
//! `ub_planning`, and how it is carried out elsewhere. Numbers are put in lines here (`numbers`), for the lines of a script too.
#![tactic(auto)]

mod explaining;
pub mod law;
mod lines;
pub mod numbers;

pub use explaining::explain;
pub use numbers::{push_number, push_signed};
pub use ub_bigmin::ZBox;
pub use ub_planning::{Kind, Plan, plan};
pub use ub_query::{Cond, Query};
pub use ub_table::Schema;
pub use ub_tree::ReadFault as PlanFault;
