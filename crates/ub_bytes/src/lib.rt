//! The bytes of a page: numbers where they stand, whether all is zero from somewhere on, and a page that is written from its front
//! (`Draft`), number by number or a column of numbers at once. All numbers have their highest byte first.
//!
//! What belongs here is bytes: what a page tells of stands above, of a region in `ub_region`, of all other pages in `ub_page`. Nothing
//! in this crate takes memory.

#![tactic(auto)]

pub mod draft;
pub mod page;
mod spelling;

pub use draft::Draft;
pub use page::Page;
