ghost use Rattle.std.specs.Prelude.{◌≡◌};
ghost use Rattle.ub_script.specs.declared.fault.RunFault.TheVariants.{Memory, Write};
ghost use Rattle.ub_script.specs.Faults.{fault_of_load, fault_of_read, fault_of_tree};

use crate::output::OutFault;
use std::alloc::AllocError;
use thiserror::Error;
use ub_load::LoadFault;
use ub_tree::{ReadFault, TreeFault};

/// Why a script was not run to its end.
#[derive(Clone, Copy, PartialEq, Eq, Debug, Error)]
pub enum RunFault {
    /// The memory for it was refused.
    #[error("Memory")]
    Memory,
    /// The output did not take the bytes.
    #[error("Write")]
    Write,
    /// The text is no table; never `LoadFault::Memory`, which is `Memory` here.
    #[error("{0}")]
    Load(LoadFault),
    /// The tree refused; never `TreeFault::Memory`, which is `Memory` here.
    #[error("{0}")]
    Tree(TreeFault),
}

impl From<AllocError> for RunFault {
    ghost from_gives = { λ _ fault. fault ≡ Memory };

    fn from(_error: AllocError) -> RunFault {
        RunFault::Memory
    }
}

impl From<LoadFault> for RunFault {
    ghost from_gives = { λ load fault. fault ≡ fault_of_load load };

    fn from(fault: LoadFault) -> RunFault {
        match fault {
            LoadFault::Memory => RunFault::Memory,
            fault => RunFault::Load(fault),
        }
    }
}

impl From<ReadFault> for RunFault {
    ghost from_gives = { λ read fault. fault ≡ fault_of_read read };

    fn from(fault: ReadFault) -> RunFault {
        match fault {
            ReadFault::Memory => RunFault::Memory,
            ReadFault::Tree(fault) => RunFault::Tree(fault),
        }
    }
}

impl From<TreeFault> for RunFault {
    ghost from_gives = { λ tree fault. fault ≡ fault_of_tree tree };

    fn from(fault: TreeFault) -> RunFault {
        match fault {
            TreeFault::Memory => RunFault::Memory,
            fault => RunFault::Tree(fault),
        }
    }
}

impl From<OutFault> for RunFault {
    ghost from_gives = { λ _ fault. fault ≡ Write };

    fn from(_error: OutFault) -> RunFault {
        RunFault::Write
    }
}
