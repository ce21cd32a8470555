//! Changed pages in memory, over a store that is only read.
//!
//! An overlay is a store whose pages are those of a store below, but for the pages that were written or added since: these are kept
//! in memory, each in a box of its own under its number. A read gives the page that is held, or else reads the one below. No other
//! call reaches the store below: it stands in a type of its own (`Below`) that passes reads on and nothing else.
//!
//! What was written lasts as long as memory does, so a sync has nothing to do. At the end an overlay is taken apart (`into_parts`), with
//! no call of the store below: into that store and the changed pages, which stay in their boxes. With the first page of the store below
//! these are told as the journal that makes the overlay's pages of its pages, as a commit wants it (`Redo`). Where a crash has left a
//! journal beside a table, the pages that it stands for are read `through` it, and the table isn't touched.
//!
//! The definitions: `Changes` (pages by number), `Overlay` (what contracts see of an overlay), `Journal` (which journal it makes); for
//! the steps alone, `inner/Split`.

#![tactic(auto)]

mod below;
mod changes;
mod overlay;
mod redo;

pub use overlay::{Overlay, Parts};
pub use redo::{Changed, Redo};
