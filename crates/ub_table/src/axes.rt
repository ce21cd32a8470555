/// The dimensions of a table: how many they are, and which of them are signed, bit i for dimension i. A signed dimension has the
/// values -2147483648 to 2147483647, another one 0 to 4294967295.
#[derive(Clone, Copy, PartialEq, Eq, Debug)]
pub struct Axes {
    /// How many dimensions there are.
    pub dims: u32,
    /// Which of them are signed.
    pub signed: u32,
}
