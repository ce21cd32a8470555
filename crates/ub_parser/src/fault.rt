ghost use Rattle.std.specs.Prelude.{◌≡◌};
ghost use Rattle.ub_parser.specs.declared.fault.SqlFault.TheVariants.{Memory};

use std::alloc::AllocError;
use thiserror::Error;

/// Why a statement is refused, with the byte offset in the source where that is seen. Of those that hold the first in this
/// order is told.
#[derive(Clone, Copy, PartialEq, Eq, Debug, Error)]
pub enum SqlFault {
    /// A byte stands in the statement that begins no token: the first such.
    #[error("BadByte at {at}")]
    BadByte { at: usize },
    /// The tokens are no statement: the first token with which no statement goes on, or the end of the last.
    #[error("Syntax at {at}")]
    Syntax { at: usize },
    /// A number is above 18446744073709551615: the first such.
    #[error("NumberTooLarge at {at}")]
    NumberTooLarge { at: usize },
    /// A `(` or NOT is the 65th round a place.
    #[error("TooDeep at {at}")]
    TooDeep { at: usize },
    /// There are more than 64 comparisons, 8 items, 8 group columns or 8 order keys: the first token past a limit.
    #[error("TooMany at {at}")]
    TooMany { at: usize },
    /// The name after FROM or INTO is not the table's.
    #[error("UnknownTable at {at}")]
    UnknownTable { at: usize },
    /// Another name is no column: the first such.
    #[error("UnknownColumn at {at}")]
    UnknownColumn { at: usize },
    /// In a query with groups, the first item that is a column by which is not grouped, or `*`.
    #[error("NotGrouped at {at}")]
    NotGrouped { at: usize },
    /// In a query with groups, the first order key that is none of the items; in another, the first that is an aggregate.
    #[error("NotSelected at {at}")]
    NotSelected { at: usize },
    /// An INSERT has not one value for each column: the first value too many, or else the `)` after the values.
    #[error("ValueCount at {at}")]
    ValueCount { at: usize },
    /// A value of an INSERT is none that its column can hold: the first such.
    #[error("ValueRange at {at}")]
    ValueRange { at: usize },
    /// Memory was refused.
    #[error("Memory")]
    Memory,
}

impl From<AllocError> for SqlFault {
    ghost from_gives = { λ _ e. e ≡ Memory };

    fn from(_e: AllocError) -> SqlFault {
        SqlFault::Memory
    }
}
