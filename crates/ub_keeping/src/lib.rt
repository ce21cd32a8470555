//! Keeping a table at a place so that no crash loses it.
//!
//! A table is opened in one of two ways. Whoever only asks it reads it as it is found: where a stopped run has left a journal that
//! is one of the table, through that journal, and nothing is written (`ask`). Whoever wants to change it finishes such a journal
//! first (`change`). In both cases what is handed out is an overlay: the pages that are changed stay in memory, and the place's own
//! are only read (`PlaceStore`).
//!
//! At the end the changed pages are kept, all of them or none, by a journal of their own (`keep`). A table is made anew in the same
//! way where one stands, by a journal that changes each page (`make`); where none stands there is nothing to be lost, and the
//! first page is written last.
//!
//! Nothing here is tried again after a failure, and nothing is taken back: what the place holds then is found by the next one that
//! opens it.
//!
//! The definitions: `Store` (what contracts see of a place as a store), `Calm` (a place that is only looked at), `Found` (what is
//! found there), `Kept` (what is kept there, and what a crash may leave meanwhile).

#![tactic(auto)]

mod ahead;
mod asking;
mod changing;
mod fitting;
mod keeping;
mod making;
mod replacing;
mod store;

pub use asking::ask;
pub use changing::change;
pub use keeping::keep;
pub use making::make;
pub use store::PlaceStore;
