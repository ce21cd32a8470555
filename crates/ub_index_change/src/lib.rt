//! How an index of a UB-tree's regions (Bayer 1997; `ub_index` says what one is) changes where a region comes or goes: which of
//! its pages are spelled anew, which come, and which page is the root from then on.
//!
//! A change is one region's entry that goes, or gets another one behind it. It goes down as a search does and back up
//! (`turning`), checks each page on its way in full, held or not, since it spells the entries anew that stand there, and tells
//! each page above by which entries to name what it led to (`told`):
//!
//!  - by the same one: then no page above changes, nor is one of them spelled;
//!  - by one with another first key, where the first entry of the page went: the page above gets that key, and so on up;
//!  - by none, where its last entry went: an empty page leaves the page above it, and stands in the store with no use;
//!  - by two, where 171 entries stand on two pages: the first 86 stay on the old page, and 85 stand on a new one.
//!
//! A root of two pages gets a new one above it, which names both: it grows by a level. With 16 levels that is refused as Full. A
//! root above level 1 that names one page alone gives way to it when a region went, and so on down (`change`).
//!
//! An index that has only grown is filled: each page below its root has 85 entries at least, and a root above level 1 has two. So
//! it has fewer than 16 levels where it has fewer than 2^32 regions, and none of its additions is refused as Full then.
//!
//! THE ORDER. What changes is spelled in memory (`sheets`), with the numbers that the store's next pages will have: the region's
//! page first, then a new page as it comes on the way up, the new root last. All reading, and all want of memory for it, comes
//! before that (`preparing`): a call that is refused so far has changed nothing. Then the store grows, and the region's page is
//! put by the caller; then the pages are put, a new one before any that names it; and the root is taken over last, when all of
//! them stand (`making`). A failure in between leaves the old root, and pages of which some may be those of the change.
//!
//! WORDS. A *sheet* is a page that is spelled, and not yet put. What a change *tells* of an entry is by which entries its page is
//! named from then on. A change is *prepared* when all of it is spelled, and *made* when its sheets stand in the store and the
//! index has the new root. A way is *full* where each page on it has 170 entries.
//!
//! DEFINITIONS (specs). What each page on the way becomes, and what the flat list of entries: `Changed`; what is spelled, and why
//! it is refused: `Changing`; how many of the pages on a way are full: `FullWay`; a change that is prepared, and which index it
//! makes: `Preparing`; a root that gives way: `Lowering`; a change that is made: `Making`; how full an index is that has only
//! grown: `Filling`. What each call promises: `Calls`. `Laws`.
//!
//! What belongs here is what becomes of several pages at once. What an index is, and the way down it (`ub_index`), how one page
//! is spelled (`ub_page`), and how pages are kept (`ub_store`), stands below; in which order the pages of a table go out, above.
//! The functions of `law` ensure what a change of one entry does to the whole.

#![tactic(auto)]

pub mod change;
pub mod law;
mod making;
mod preparing;
pub mod sheet;
mod sheets;
mod told;
mod turning;

pub use change::Change;
pub use making::commit;
pub use preparing::{prepare_add, prepare_drop};
