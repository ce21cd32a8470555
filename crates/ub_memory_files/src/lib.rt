//! Files in memory, for programs that have no others, and for tests.
//!
//! A path holds a text, or a table file with a journal beside it, as a place in memory (`TornPlace`) has them. Whoever opens a table file is
//! handed what is seen there, as another process would find it, so nothing is lent away: what a store holds comes back by keeping it.
//! A test lets a call of such a place fail: what was done up to then is what the next one finds, as after a crash.
//!
//! `entries` is the list of files by their names, `texts` is how texts are read piece after piece, `tables` opens, keeps and makes the table
//! files among them, and `memory` makes of these a source of files.
#![tactic(auto)]

mod entries;
pub mod memory;
mod tables;
mod texts;

pub use memory::MemFiles;
pub use tables::MemTable;
pub use texts::MemText;
