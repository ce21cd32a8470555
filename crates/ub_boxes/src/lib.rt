//! The boxes of a condition: disjoint boxes of points, outside of which no selected row lies.
//!
//! Each dimension is cut where a comparison on it turns. Between the cuts lie intervals, and one interval of each dimension is
//! a cell: on all points of a cell the condition has the same truths, so they are asked at its least corner. The cells on which
//! the condition can be true are the boxes, joined along the last dimension. What belongs here speaks of conditions, points and
//! boxes; which regions meet the boxes and which rows they have stands elsewhere.
#![tactic(auto)]

mod cover;
mod covering;
mod cuts;
pub mod example;
mod front;
mod interval;
pub mod law;
mod size;
mod truths;

pub use cover::{Cover, MAX_CELLS};
pub use covering::boxes;
pub use size::{points, total};
