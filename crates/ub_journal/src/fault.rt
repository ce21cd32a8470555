use thiserror::Error;

/// Why a journal isn't read.
#[derive(Clone, Copy, PartialEq, Eq, Debug, Error)]
pub enum JournalFault {
    /// The pages spell no journal.
    #[error("Damaged")]
    Damaged,
    /// Memory was refused.
    #[error("Memory")]
    Memory,
    /// The device failed in this call.
    #[error("Device")]
    Device,
}
