use std::alloc::AllocError;
use thiserror::Error;
use ub_store::StoreFault;
use ub_table::PageFault;

/// Why an index refused what it was asked.
#[derive(Clone, Copy, PartialEq, Eq, Debug, Error)]
pub enum IndexFault {
    /// This page is refused, by its reader or because it doesn't fit the pages that name it.
    #[error("{fault} page {page}")]
    Page { page: u32, fault: PageFault },
    /// The store refused, or memory was refused.
    #[error("{0}")]
    Store(StoreFault),
    /// The index has 16 levels, and no page on the way to the region has room for an entry more.
    #[error("Full")]
    Full,
}

impl From<StoreFault> for IndexFault {
    ghost use Rattle.std.specs.Prelude.{◌≡◌};
    ghost use Rattle.ub_index.specs.declared.fault.IndexFault.TheVariants.{Store};

    ghost from_gives = { λ fault e. e ≡ Store fault };

    fn from(fault: StoreFault) -> IndexFault {
        IndexFault::Store(fault)
    }
}

impl From<AllocError> for IndexFault {
    ghost use Rattle.std.specs.Prelude.{◌≡◌};
    ghost use Rattle.ub_index.specs.declared.fault.IndexFault.TheVariants.{Store};
    ghost use Rattle.ub_store.specs.declared.fault.StoreFault.TheVariants.{Memory};

    ghost from_gives = { λ _ e. e ≡ Store Memory };

    fn from(_fault: AllocError) -> IndexFault {
        IndexFault::Store(StoreFault::Memory)
    }
}
