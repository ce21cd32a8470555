//! Where the files that a command names come from, and what is known of them.
//!
//! `files` is the contract of a source of files: texts are read whole, of table files stores of pages are lent, and what was changed in
//! such a store is kept whole or not at all. The sources stand in crates of their own: the system (`ub_host_files`) and memory
//! (`ub_memory_files`). Nothing here knows what a table is.
#![tactic(auto)]

mod fault;
pub mod files;

pub use fault::OpenFault;
pub use files::Files;
