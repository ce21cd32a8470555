ghost use Rattle.std.specs.Prelude.{◌≡◌, is_err};
ghost use Rattle.ub_tetris.specs.Effects.{as_read, of_read, of_reading};
ghost use Rattle.ub_tetris.specs.declared.fault.SweepFault.TheVariants.{Memory};
ghost use Rattle.ub_tree.specs.Reading.{fault_of_tree};

use std::alloc::AllocError;
use thiserror::Error;
use ub_tree::{ReadFault, TreeFault};

/// Why a sweep gave no row.
#[derive(Clone, Copy, PartialEq, Eq, Debug, Error)]
pub enum SweepFault {
    /// The tree refused; never `TreeFault::Memory`, which is `Memory` here.
    #[error("{0}")]
    Tree(TreeFault),
    /// Memory was refused.
    #[error("Memory")]
    Memory,
    /// The sweep failed before, and does no more.
    #[error("Failed")]
    Failed,
}

impl From<ReadFault> for SweepFault {
    ghost from_gives = { λ read fault. fault ≡ of_read read };

    fn from(fault: ReadFault) -> SweepFault {
        match fault {
            ReadFault::Tree(fault) => SweepFault::Tree(fault),
            ReadFault::Memory => SweepFault::Memory,
        }
    }
}

impl From<TreeFault> for SweepFault {
    ghost from_gives = { λ tree fault. fault ≡ of_read (fault_of_tree tree) };

    fn from(fault: TreeFault) -> SweepFault {
        SweepFault::from(ReadFault::from(fault))
    }
}

impl From<AllocError> for SweepFault {
    ghost from_gives = { λ _ fault. fault ≡ Memory };

    fn from(_error: AllocError) -> SweepFault {
        SweepFault::Memory
    }
}

impl From<SweepFault> for ReadFault {
    ghost from_gives = { λ sweep fault. fault ≡ as_read sweep };

    /// The sweep's fault; of a sweep that failed before, that of a tree that did.
    fn from(fault: SweepFault) -> ReadFault {
        match fault {
            SweepFault::Tree(fault) => ReadFault::Tree(fault),
            SweepFault::Memory => ReadFault::Memory,
            SweepFault::Failed => ReadFault::Tree(TreeFault::Failed),
        }
    }
}

/// What a sweep answers where its state answers this. After a fault it has failed.
pub fn settled<T>(is_failed: &mut bool, answer: Result<T, ReadFault>) -> Result<T, SweepFault>
    ensures answer { result ≡ of_reading answer }
    ensures failed { is_failed.new ≡ is_err result }
{
    *is_failed = answer.is_err();
    match answer {
        Ok(value) => Ok(value),
        Err(fault) => Err(SweepFault::from(fault)),
    }
}
