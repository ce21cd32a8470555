use std::alloc::AllocError;
use thiserror::Error;
use ub_index::IndexFault;
use ub_store::StoreFault;
use ub_table::PageFault;
use ub_upgrade::UpgradeFault;

/// Why a tree didn't do what it was asked.
#[derive(Clone, Copy, PartialEq, Eq, Debug, Error)]
pub enum TreeFault {
    /// There is no row number left: the next would be 16777216; or the index has 16 levels, and no room on the way to the row.
    #[error("Full")]
    Full,
    /// This page is refused, by its reader or because it doesn't fit the pages that name it.
    #[error("{fault} page {page}")]
    Page { page: u32, fault: PageFault },
    /// The store refused.
    #[error("{0}")]
    Store(StoreFault),
    /// A write, an extension or a sync failed earlier: nothing is said of what the store holds, and the tree does no more.
    #[error("Device")]
    Failed,
    /// Memory was refused.
    #[error("Memory")]
    Memory,
}

impl From<StoreFault> for TreeFault {
    ghost use Rattle.std.specs.Prelude.{◌≡◌};
    ghost use Rattle.ub_tree.specs.Faults.{tree_fault};

    ghost from_gives = { λ fault e. e ≡ tree_fault fault };

    /// The store's fault, or Memory.
    fn from(fault: StoreFault) -> TreeFault {
        match fault {
            StoreFault::Memory => TreeFault::Memory,
            fault => TreeFault::Store(fault),
        }
    }
}

impl From<IndexFault> for TreeFault {
    ghost use Rattle.std.specs.Prelude.{◌≡◌};
    ghost use Rattle.ub_tree.specs.Faults.{index_fault};

    ghost from_gives = { λ fault e. e ≡ index_fault fault };

    /// The index's fault, or Memory.
    fn from(fault: IndexFault) -> TreeFault {
        match fault {
            IndexFault::Page { page, fault } => TreeFault::Page { page, fault },
            IndexFault::Store(fault) => TreeFault::from(fault),
            IndexFault::Full => TreeFault::Full,
        }
    }
}

impl From<UpgradeFault> for TreeFault {
    ghost use Rattle.std.specs.Prelude.{◌≡◌};
    ghost use Rattle.ub_tree.specs.Faults.{upgrade_fault};

    ghost from_gives = { λ fault e. e ≡ upgrade_fault fault };

    /// The fault of one of the two stores, or of a page of the old one.
    fn from(fault: UpgradeFault) -> TreeFault {
        match fault {
            UpgradeFault::Page { page, fault } => TreeFault::Page { page, fault },
            UpgradeFault::Old(fault) => TreeFault::from(fault),
            UpgradeFault::New(fault) => TreeFault::from(fault),
        }
    }
}

impl From<AllocError> for TreeFault {
    ghost use Rattle.std.specs.Prelude.{◌≡◌};
    ghost use Rattle.ub_tree.specs.declared.fault.TreeFault.TheVariants.{Memory};

    ghost from_gives = { λ _ e. e ≡ Memory };

    fn from(_fault: AllocError) -> TreeFault {
        TreeFault::Memory
    }
}
