//! Pages of 4096 bytes by number, and who keeps them.
//!
//! A store holds the pages: one in memory, and one that fails when a test wants it to. A pager stands before a store with a
//! cache of the pages last used, and notes which region pages were asked for. Pages that are only to be told, one by one, need
//! no store (`Pages`). The bytes of a page mean nothing here: the crates ub_region and ub_page spell and read them, and the
//! crates above say which page holds what.

#![tactic(auto)]

mod cache;
pub mod fault;
pub mod faulty;
mod kept;
pub mod memory;
pub mod page;
pub mod pager;
pub mod pages;
pub mod store;

pub use fault::{Rejected, StoreFault};
pub use faulty::FaultyStore;
pub use memory::MemStore;
pub use page::{Page, new_page};
pub use pager::Pager;
pub use pages::Pages;
pub use store::{MAX_PAGES, PageStore, RUN_PAGES};
