ghost use Rattle.std.specs.Prelude.{◌≡◌, ◌≤◌, ◌<◌, ℕ, ◌++◌, ◌∷◌, [], List, length, map, take, if◌then◌else◌, OnOk};
ghost use Rattle.ub_query.specs.Posed.{IsPosed};
ghost use Rattle.ub_query.specs.Shape.{Asked, asked};
ghost use Rattle.ub_table.specs.Table.{column_value};
ghost use Rattle.ub_table.specs.declared.row.Row.{Row as RowView};
ghost use Rattle.ub_table.specs.declared.schema.Schema.{Schema as SchemaView};

use crate::query::Query;
use std::alloc::AllocError;
use ub_table::{MAX_ROWS, Row, Schema};

/// Rows of a table that are handed over at once, as those of a page: how many they are, and their values column by column. No
/// `Row` is made of them.
pub trait RowBatch {
    // The rows, in the order in which they are taken.
    ghost rows: { Self → List RowView };

    /// How many rows there are: at most 64.
    fn count(&self) -> usize
        ensures count { result ≡ length (rows self.now) }
        ensures few { result ≤ MAX_ROWS };

    /// Puts the values of the rows in a column of a table of this schema, counted from 0, into the first places of a list, in the
    /// order of the rows. What stands in the other places means nothing.
    fn put_values(&self, schema: &Schema, column: usize, values: &mut [i64; MAX_ROWS])
        requires { column < length schema.now.columns }
        ensures long { length values.new ≡ MAX_ROWS }
        ensures values { take (length (rows self.now)) values.new
            ≡ map (λ row. column_value schema.now row column) (rows self.now) };
}

/// What is handed rows of a table for a query, one by one or some at once, and makes something of them: its answer, say, or a
/// list of what is to be given later.
///
/// What it makes of them is its own affair. A proof sees which rows it took between two of its states (`HasTaken`).
pub trait RowSink {
    // Of a table of this schema and for this query the sink in the first state took these rows, in this order, which led to the
    // second one.
    ghost HasTaken: { SchemaView → Asked → Self → List RowView → Self → Type 0 };

    /// Takes one more row of a table of this schema. After a refusal the sink is used no more.
    fn push(&mut self, schema: &Schema, query: &Query, row: &Row) -> Result<(), AllocError>
        requires { IsPosed (length schema.now.columns) (asked query.now) }
        ensures { (before : Self) (taken : List RowView)
            → HasTaken schema.now (asked query.now) before taken self.old
            → OnOk result (HasTaken schema.now (asked query.now) before (taken ++ row.now ∷ [])
            self.new) };

    /// Takes some more rows of a table of this schema at once, in their order, where the sink has a quicker way than one by one:
    /// then this is true. Else it is false, and none of them is taken. Takes no memory.
    fn push_batch<B: RowBatch>(&mut self, schema: &Schema, query: &Query, batch: &B) -> bool
        requires { IsPosed (length schema.now.columns) (asked query.now) }
        ensures { (before : Self) (taken : List RowView)
            → HasTaken schema.now (asked query.now) before taken self.old
            → HasTaken schema.now (asked query.now) before
            (if result then taken ++ B.rows batch.now else taken) self.new }
    {
        false
    }
}
