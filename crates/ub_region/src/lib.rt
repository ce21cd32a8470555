//! The regions of a UB-tree (Bayer 1997), without a store: which keys a region holds, where a row goes in, how a region is split
//! and joined (the definitions stand in specs/: `Regions`, `Rows`, `Joins`, `Spans`; the functions of `law` ensure their laws);
//! what those that look for a region are told of it (`Region`), and what an entry of an index says (`Entry`); and one region in
//! memory (`RegionPage`), in columns, from its page and back to it, by which it is put in, taken out, split and joined (`changes`).
//! Its page has one spelling (`RegionPage` in specs/): a reader takes what the writer spells and refuses all else.
//!
//! What belongs here is one region, or regions as lists. Where a region's page is, and where pages are kept, stands above; what names,
//! rows and keys are, and the bytes of a page, below. Nothing in this crate takes memory.

#![tactic(auto)]

mod changes;
mod columns;
pub mod entry;
pub mod keys;
pub mod law;
pub mod masks;
mod order;
pub mod region;
pub mod region_page;

pub use entry::Entry;
pub use keys::{first_between, is_equal};
pub use region::{ORIGIN, Region};
pub use region_page::{RegionPage, write_region};
