//! The regions of a UB-tree (Bayer 1997) whose rows are put in one after the other, made without a store: a region holds the
//! rows of an interval of keys, and splits when the first rows of the interval, one more than a page holds, have come, at the
//! separator of just these. So the rows are parted at it, in the order in which they come, and both halves are the same
//! problem; no page is touched before it is final.
//!
//! Of many rows the first half is put in first (`grow`): what that makes are parts, to which the other half comes. Where these are many
//! the rows are parted by halving over their first keys, and else each is put behind the rows of its part (`spreading`). So rows that ascend
//! cost no more than n log² n steps, and the calls go as deep as a logarithm. Keys are compared by their coordinates.
//!
//! What belongs here is rows, and the regions that they make, as lists. Pages and the index stand above. The definitions are
//! in specs/: `Growing` (rows in order, rows before a key), `Parts` (parts of the rows, and what becomes of them); the functions
//! of `law` ensure the laws by which parting gives what insertion gives. It is for loading a table (`ub_load`).

#![tactic(auto)]

mod growing;
pub mod law;
mod order;
mod part;
mod parting;
mod spreading;

pub use growing::{Grown, grow};
