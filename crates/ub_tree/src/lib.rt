//! The UB-tree (Bayer 1997) over a store: each row stands in the region that holds its key, and each region on a page. The definitions
//! stand in specs/: `Spans` (the addresses that a region covers, and which region a search asks for), `View` (what contracts see of a
//! tree, and when it is sound), `Indexed` (where its index stands), `Effects` (what a call leaves), `Stored` (the pages of a closed table),
//! `Opened` (which pages are opened), `Old` and `Upgrade` (the pages of a table of an older format, and what is made of them), `Laid` (the
//! tree of regions that were laid), `Closing`, `Checking` (where a check of all pages stops), `Holding`, `Others` and `Pages` (what a change
//! of any tree must answer, and what it leaves of the pages), `Stretches` (what an entry of any level of the index names); the functions of
//! `law` ensure the laws of a sound tree. The code: `creation`, `opening`, `upgrading` and `laying` to begin, `checking` to look at all
//! pages, `tree` to search, to walk over regions and to read, `stretches` to go down the index step by step, `change` to put rows in,
//! `removal` to take them out, `closing` to end; `finding` asks the index where a region is.
//!
//! What belongs here is what a tree does over a store. In which order its pages go out, and the mark of a changed table, stand in
//! `ub_writing`; where each region's page is, in `ub_index`, and how that changes, in `ub_index_change`; how a region is taken in, and all
//! pages are checked, in `ub_check`; how the pages of an older format are brought over, in `ub_upgrade`; how a table is begun before its
//! rows are read, its regions laid on pages and an index made of them, in `ub_laying`; what regions are, in `ub_region`; how pages are
//! spelled, and stores kept, in the other crates below.

#![tactic(auto)]

mod change;
mod checking;
mod closing;
mod creation;
pub mod fault;
mod finding;
pub mod law;
mod laying;
mod opening;
pub mod read_fault;
mod removal;
mod stretches;
pub mod tree;
mod upgrading;

pub use fault::TreeFault;
pub use read_fault::ReadFault;
pub use tree::Tree;
pub use ub_index::{RegionSink, Stretch, StretchSink};
pub use ub_laying::Begun;
pub use ub_region::Region;
