ghost use Rattle.std.specs.Prelude.{◌≡◌, length};
ghost use Rattle.ub_query.specs.Cells as sql;
ghost use Rattle.ub_query.specs.Posed.{IsItemOver};

use ub_query::{Cell, Item};
use ub_table::{Row, Schema};

/// The cell of a row for an item; NULL for an aggregate.
pub fn row_cell(schema: &Schema, row: &Row, item: Item) -> Cell
    requires { IsItemOver (length schema.now.columns) item }
    ensures { result ≡ sql.row_cell schema.now row.now item }
{
    match item {
        Item::Column(column) => Cell::Number(i128::from(schema.value_of(row, column))),
        Item::Count | Item::Aggregate(_, _) => Cell::Null,
    }
}
