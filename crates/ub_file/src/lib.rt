//! Pages of a store in a file.
//!
//! Below the store stands a medium: a length in bytes, and whole pages that are read and written by their place. The store
//! on it is proved over any medium. One medium lies in memory and fails when a test wants it to (`memory`); the other lies on a
//! file (`host`), and is proved over any that has the four calls of the standard library (`raw`). The one file of these that the
//! program uses is the system's (`system`): that it gives back what was written to it is a premise.

#![tactic(auto)]

pub mod host;
pub mod medium;
pub mod memory;
pub mod raw;
pub mod store;
pub mod system;

pub use host::HostFile;
pub use medium::{Medium, PAGE_BYTES};
pub use memory::MemMedium;
pub use raw::RawFile;
pub use store::FileStore;
pub use system::{Opened, SystemFile};
pub use ub_store::{MAX_PAGES, Page, PageStore, Rejected, StoreFault};
