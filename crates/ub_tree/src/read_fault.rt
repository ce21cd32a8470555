use crate::fault::TreeFault;
use std::alloc::AllocError;
use thiserror::Error;

/// Why a call that reads a tree gave no answer.
#[derive(Clone, Copy, PartialEq, Eq, Debug, Error)]
pub enum ReadFault {
    /// The tree refused; never `TreeFault::Memory`, which is `Memory` here.
    #[error("{0}")]
    Tree(TreeFault),
    /// Memory was refused.
    #[error("Memory")]
    Memory,
}

impl From<AllocError> for ReadFault {
    ghost use Rattle.std.specs.Prelude.{◌≡◌};
    ghost use Rattle.ub_tree.specs.declared.read_fault.ReadFault.TheVariants.{Memory};

    ghost from_gives = { λ _ fault. fault ≡ Memory };

    fn from(_error: AllocError) -> ReadFault {
        ReadFault::Memory
    }
}

impl From<TreeFault> for ReadFault {
    ghost use Rattle.std.specs.Prelude.{◌≡◌};
    ghost use Rattle.ub_tree.specs.Reading.{fault_of_tree};

    ghost from_gives = { λ tree fault. fault ≡ fault_of_tree tree };

    /// The tree's fault, or Memory.
    fn from(fault: TreeFault) -> ReadFault {
        match fault {
            TreeFault::Memory => ReadFault::Memory,
            fault => ReadFault::Tree(fault),
        }
    }
}
