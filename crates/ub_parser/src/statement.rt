use ub_query::{Items, Query};

/// A statement of a script.
#[derive(Drop)]
pub enum Statement {
    /// Asks for the query's result.
    Select(Query),
    /// Asks how the query would be answered.
    Explain(Query),
    /// Puts in a row of these values, one for each column, each of which its column can hold.
    Insert(Items<i64>),
    /// Takes out the rows that the query selects, which asks for `*` and nothing else but its condition.
    Delete(Query),
}
