use thiserror::Error;
use ub_store::StoreFault;
use ub_table::PageFault;

/// Why the pages of an older table file weren't brought over.
#[derive(Clone, Copy, PartialEq, Eq, Debug, Error)]
pub enum UpgradeFault {
    /// This page of the old store is refused, by its reader or because it doesn't fit the pages that name it.
    #[error("{fault} page {page}")]
    Page { page: u32, fault: PageFault },
    /// The old store refused, or memory was refused for it.
    #[error("{0}")]
    Old(StoreFault),
    /// The new store refused, or memory was refused for it.
    #[error("{0}")]
    New(StoreFault),
}
