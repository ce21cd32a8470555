//! The Tetris sweep (Markl, Zirkel and Bayer 1999): the rows of a plan in the order of a dimension, each given as soon as no
//! region that isn't fetched yet can hold an earlier one; or, for groups along that dimension, all rows of a value together; or
//! all that are left, region after region.
//!
//! A sweep goes over the regions that meet the plan's boxes in the order of their event values, and holds the selected rows of
//! those that it has fetched: these are the sink that `ub_filter` hands them to (`held`). It borrows nothing: each call is given
//! the plan and the tree.
//!
//! It finds the regions through the index of the tree, best first. What waits is a heap of *stretches* (`awaiting`), of any level:
//! at first the whole tree. The event value of one is the first along the sweep of those of all regions within it, and its first
//! key is none after theirs. So where the first that waits is a region it is the next one of all, and else it is opened: its parts
//! that meet the boxes come in its place. A page of the index is read only where a region below it is due.
//!
//! Held rows stand in a heap (`held`), of which an element (`ranked`) is the first of a row's values and
//! a pointer: a row given costs some comparisons and moves for each power of two of those held, and
//! few go to the row. The memory of a row that was given is kept for the next one held.
#![tactic(auto)]

mod awaiting;
mod course;
mod event;
mod fault;
mod held;
mod order;
mod place;
mod ranked;
mod state;
mod sweep;

pub use fault::SweepFault;
pub use sweep::Sweep;
