//! What of the pages of an older table file is brought over to a new store: its pages one by one, and of format 1 an index in the
//! place of its directory. `bringing` reads the header of such a table, and brings its other pages over; `table` does both, over a new
//! store that it marks as changed first, and opens the index that stands there then.
//!
//! A table of format 1 has no index, but a directory: a chain of pages, each of which tells of up to 170 regions and names the next
//! one. `copying` copies all pages of the old store but the first under their own numbers; `building` reads the chain page by page
//! and puts an index behind all pages of the new store, level by level:
//!
//!     the old store     D(1..170) -> D(171..340) -> D(341..)          the chain, each page of it read once
//!                           |             |             |
//!     the new store     I1(1..170)    I1(171..340)   I1(341..)        level 1: a page for each page of the chain
//!                            \            |            /
//!                             I2(.., .., ..)                          level 2: 170 pages of the level below each; and so on
//!
//! The pages of a level have numbers that follow each other, and the first key of each stands on it, so that nothing is kept in
//! memory but where a level begins and how many pages it has: memory doesn't grow with the table. The level that has one page alone
//! is the root's; that is level 5 at most.
//!
//! What is checked: each page of the chain by its reader, and against the pages before it (`chain`); that the old store has each
//! region's page. The regions' pages themselves aren't looked at here.
//!
//! What belongs here is what needs no tree. How the levels above the lowest one are put, and what an index is that is built so,
//! stands in `ub_laying`. The definitions stand in specs/: `Chain` and `Reading` (the old directory, and why it is refused), `Effects`
//! and `Building` (what the two calls do), `Bringing` (what they do for a header), `Table` (what is made of a whole table).

#![tactic(auto)]

pub mod bringing;
pub mod building;
mod chain;
pub mod copying;
pub mod fault;
pub mod table;

pub use bringing::{bring_pages, read_head};
pub use building::build_index;
pub use copying::copy_pages;
pub use fault::UpgradeFault;
pub use table::bring_table;
