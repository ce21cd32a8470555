/// What stands in one place of a result.
#[derive(Clone, Copy, PartialEq, Eq, Debug)]
pub enum Cell {
    /// A whole number: a sum may be greater than every value of a table.
    Number(i128),
    /// What SUM, MIN and MAX give over no rows.
    Null,
}
