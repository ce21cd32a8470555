use thiserror::Error;

/// Why a shape, a point or an address is refused.
#[derive(Clone, Copy, PartialEq, Eq, Debug, Error)]
pub enum ZFault {
    /// A space has one to four dimensions.
    #[error("a space has 1 to 4 dimensions")]
    BadDims,
    /// A point has one coordinate for each dimension.
    #[error("a point has one coordinate for each dimension")]
    WrongCount,
    /// The number is above the last address of the space.
    #[error("the number is above the last address of the space")]
    TooLarge,
}
