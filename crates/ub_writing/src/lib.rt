//! In which order the pages of a table go out, so that what lasts is a closed table, or is marked as changed.
//!
//! `order` puts pages into a store by a pager: the first ones of a new table, those of a change, and the header of a closing; `mark`
//! is what marks a table as changed, written or due, and `header` the mark of a new table; `room` is the memory in which a region is
//! changed, and puts its page from there. The definitions stand in specs/: `Marks` (when a table is marked as changed), `Puts` (which
//! pages a call puts), `Creation` (the first pages), `Closing` (what stands once a table is closed).
//!
//! What belongs here is which page goes out before which. What a region's rows become is `ub_tree`'s, where each region's page
//! is, `ub_index`'s, and how a page is spelled, `ub_region`'s and `ub_page`'s.

#![tactic(auto)]

mod header;
pub mod mark;
mod order;
pub mod room;

pub use header::first_header;
pub use mark::Mark;
pub use order::{write_first_pages, write_mark, write_page, write_pages, write_table};
pub use room::{Drafts, Room, put_halves, put_region, take_room};
