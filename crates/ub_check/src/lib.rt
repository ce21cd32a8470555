//! The check of a whole table's pages: from the root of its index on each page is read and looked at in full, before what it leads to.
//!
//!     root, level 2        I                    looked at first: its reader, its level, its ends
//!                        /   \
//!     level 1           I     I                 each before the regions that it names, in the order of their keys
//!                      / \   / \
//!     regions         R   R R   R               each: its reader, its first key, its end, and that its rows' numbers are new
//!
//! It stops at the first page that is refused. At the end the regions and rows that it met are held against those that are told. Pages
//! to which no entry leads aren't looked at. It keeps a bit for each row number, and one page of the index a level.
//!
//! What belongs here is what needs no tree: `ub_tree` says what is told of its table, and which fault of its own each one is. The
//! definitions stand in specs/: `Standing` (which region stands where one is due, why its page is refused, and how it is read),
//! `Placed` (regions on pages), `Numbers` (row numbers that are new), `Checking` (what a check takes, and where it stops first),
//! `Calls` (what it answers). The code: `checking` goes from page to page, `walk` says how far it has come, `numbers` is the set of
//! the row numbers that were met, `reading` reads one region from its page, as the tree does for its own calls.

#![tactic(auto)]

pub mod checking;
mod numbers;
pub mod reading;
mod walk;

pub use checking::{Told, check_pages};
pub use reading::{fetch_region, read_region};
