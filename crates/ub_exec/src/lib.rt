//! Plans carried out over a tree: the answer of a query, of which no more regions are fetched than its plan visits.
//!
//! A walk reads the regions that meet the plan's boxes, each once, in the order of their keys, and hands the chosen rows of each
//! to a sink (`walking`; which are chosen, and the loop over them, stand in `ub_filter`). The sink of a query is its gathering,
//! which makes the answer of them (`executing`). Where the plan is a sweep, the rows come from it in the order asked
//! (`sweeping`). Where there is a GROUP BY, they come by its lead: with LIMIT the rows of one value after the other, and the
//! groups of each value are made of these rows alone; without, all rows go to one gathering as their regions come (`grouping`).
//!
//! A deletion walks in the same way first, and its sink puts by the keys of the selected rows. Only then are they taken out of
//! the tree, in the order of their numbers (`deleting`): a removal can join two regions, so that a walk which took rows out on
//! its way would pass over some. Where a table stands, and where it stands without some rows, is said in `Stand`; the functions
//! of `law` ensure what holds of that.
#![tactic(auto)]

mod deleting;
mod executing;
mod grouping;
pub mod law;
mod sweeping;
mod walking;

pub use deleting::delete;
pub use executing::{Answer, execute};
pub use ub_answer::ResultSet;
pub use ub_planning::Plan;
pub use ub_tree::ReadFault as ExecFault;
