use csv::ErrorKind;
use std::alloc::{AllocError, AllocFailed};
use std::fmt;
use thiserror::Error;
use ub_tree::TreeFault;

// Whose name it is: the table's (0), or a column's, counted from 1.
#[derive(Drop)]
struct Named(u32);

impl fmt::Display for Named {
    fn fmt<W: fmt::Write>(&self, f: &mut fmt::Formatter<W>) -> fmt::Result {
        match self.0 {
            0 => write!(f, "table"),
            column => write!(f, "column {column}"),
        }
    }
}

/// Why a CSV text is no table, or holds no rows for a table that there is. Rows and columns are those of the text, from 1, the
/// header not among the rows. Shown, it is what the program prints of it.
#[derive(Clone, Copy, PartialEq, Eq, Debug, Error)]
pub enum LoadFault {
    /// The text has no record at all.
    #[error("NoHeader")]
    NoHeader,
    /// The table's name (0) or a column's (from 1) is no name, or an earlier column has it. Of rows for a table that there is:
    /// a column's name is that of none of the table's columns, or an earlier column has it.
    #[error("BadName {named}", named = Named(*.0))]
    BadName(u32),
    /// The header has fewer columns than dimensions, or more than four more. Of rows for a table that there is: one of the
    /// table's columns is missing.
    #[error("ColumnCount")]
    ColumnCount,
    /// A field is no number.
    #[error("BadNumber row {row} column {column}")]
    BadNumber { row: u32, column: u32 },
    /// A field is a number that its column cannot hold.
    #[error("OutOfRange row {row} column {column}")]
    OutOfRange { row: u32, column: u32 },
    /// `csv` refused a record: it is of another length than the header, or reading failed, which a text in memory does not.
    #[error("Csv")]
    Csv,
    /// The tree refused: `Full` where there are more rows than row numbers (16777215), or its store failed. Never `Memory`.
    #[error("{0}")]
    Tree(TreeFault),
    /// The memory for a record, for the rows or for the tree was refused.
    #[error("Memory")]
    Memory,
}

impl From<csv::Error> for LoadFault {
    ghost use Rattle.std.specs.Prelude.{◌≡◌};
    ghost use Rattle.csv.specs.Reading.{error_kind};
    ghost use Rattle.ub_load.specs.Refusals as spec;

    ghost from_gives = { λ error fault. fault ≡ spec.fault_of (error_kind error) };

    fn from(error: csv::Error) -> LoadFault {
        match error.kind() {
            ErrorKind::OutOfMemory => LoadFault::Memory,
            _ => LoadFault::Csv,
        }
    }
}

impl From<AllocError> for LoadFault {
    ghost use Rattle.std.specs.Prelude.{◌≡◌};
    ghost use Rattle.ub_load.specs.declared.fault.LoadFault.TheVariants.{Memory};

    ghost from_gives = { λ _ fault. fault ≡ Memory };

    fn from(_error: AllocError) -> LoadFault {
        LoadFault::Memory
    }
}

impl<T: Drop> From<AllocFailed<T>> for LoadFault {
    ghost use Rattle.std.specs.Prelude.{◌≡◌};
    ghost use Rattle.ub_load.specs.declared.fault.LoadFault.TheVariants.{Memory};

    ghost from_gives = { λ _ fault. fault ≡ Memory };

    fn from(_error: AllocFailed<T>) -> LoadFault {
        LoadFault::Memory
    }
}

impl From<TreeFault> for LoadFault {
    ghost use Rattle.std.specs.Prelude.{◌≡◌};
    ghost use Rattle.ub_load.specs.Refusals as spec;

    ghost from_gives = { λ fault e. e ≡ spec.fault_of_tree fault };

    fn from(fault: TreeFault) -> LoadFault {
        match fault {
            TreeFault::Memory => LoadFault::Memory,
            fault => LoadFault::Tree(fault),
        }
    }
}
