use thiserror::Error;

/// What is wrong with a name, a schema or a page.
#[derive(Clone, Copy, PartialEq, Eq, Debug, Error)]
pub enum PageFault {
    /// The page is of another kind, or of a version that is not known.
    #[error("WrongKind")]
    WrongKind,
    /// The page is a header of an older format. No reader answers it yet.
    #[error("OldFormat")]
    OldFormat,
    /// The table was not closed after its last change.
    #[error("Unclean")]
    Unclean,
    /// A number of dimensions, measures or rows, or another number of a header, is out of range.
    #[error("BadCount")]
    BadCount,
    /// A name breaks the rule for names, or two columns have one name.
    #[error("BadName")]
    BadName,
    /// A row's number, an address or the number of a page is out of range.
    #[error("BadRow")]
    BadRow,
    /// The keys on a page are not in ascending order.
    #[error("BadOrder")]
    BadOrder,
    /// A key on a page is before the page's first key.
    #[error("OutOfRegion")]
    OutOfRegion,
    /// A byte that no field uses is not zero.
    #[error("BadPadding")]
    BadPadding,
}
