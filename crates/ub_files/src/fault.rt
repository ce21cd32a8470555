use thiserror::Error;
use ub_store::StoreFault;

/// Why a table file isn't opened to be changed, or isn't made.
#[derive(Clone, Copy, PartialEq, Eq, Debug, Error)]
pub enum OpenFault {
    /// Its store refused.
    #[error("{0}")]
    Store(StoreFault),
    /// A journal stands beside it that is damaged, or another table's.
    #[error("BadJournal")]
    BadJournal,
}
