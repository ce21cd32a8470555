//! The pages of a table's file that no region stands on: the header, the pages of an index of several levels, and the directory that
//! names the regions of a file of format 1, each value with one spelling of 4096 bytes. A reader takes what a writer spells and
//! refuses all else. The page of an index:
//!
//!     0      'I'
//!     1      the level: 1 where the entries name regions, else one more than that of the pages that they name, at most 16
//!     2..4   how many entries there are: 1 to 170
//!     4..16  zeros
//!     16..   the entries, 24 bytes each: the first key (16 bytes of address, 4 of row number), and the page
//!            zeros to the end
//!
//! All numbers have their highest byte first. It is read whole (`read_index`) or where it stands: `check_index` refuses what isn't
//! such a page, and `entry_at`, `first_at` and `slot_in` look into its bytes, so that a search decodes one entry of each page that
//! it comes to.
//!
//! What belongs here is how one page is spelled (the definitions stand in specs/). A region's page is in `ub_region`, and is passed on
//! here; how pages make an index, and where pages are kept, stands above. Nothing in this crate takes memory.

#![tactic(auto)]

mod check;
pub mod directory;
pub mod entries;
pub mod header;
pub mod index;
mod slots;

pub use check::check_index;
pub use directory::{Directory, read_directory, write_directory};
pub use entries::{Entries, MAX_ENTRIES};
pub use header::{Header, MAX_LEVEL, OldHeader, read_header, read_old_header, write_header};
pub use index::{Head, IndexPage, read_head, read_index, write_index};
pub use slots::{entry_at, first_at, slot_in};
pub use ub_bytes::{Draft, Page};
pub use ub_region::{Entry, RegionPage, masks as laws, write_region};
pub use ub_table::{Key, PageFault, Row, Schema};
