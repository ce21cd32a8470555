ghost use Rattle.std.specs.Prelude.{◌≡◌, length, OnOk};
ghost use Rattle.std.specs.List.{All};
ghost use Rattle.ub_query.specs.Posed.{IsItemOver};
ghost use Rattle.ub_tetris.specs.Held.{held_row, item_value, turned};
ghost use Rattle.ub_tetris.specs.inner.Kept.{seen_row};

use smallvec::SmallVec;
use std::alloc::{AllocError, Global};
use ub_query::{Item, SortKey};
use ub_table::{Row, Schema};

/// A row that is held, and the values by which it is given before others or after them, one for each key.
#[derive(Drop)]
pub struct Held {
    /// For each key the row's value, turned round where the key is descending.
    pub values: SmallVec<i64, 2>,
    /// The row.
    pub row: Row,
}

impl Held {
    /// No row, for `fill`. Takes no memory.
    pub fn blank(alloc: Global) -> Held {
        Held {
            values: SmallVec::new(alloc),
            row: Row {
                number: 0,
                dims: [0; 4],
                measures: [0; 4],
            },
        }
    }

    /// Puts a row with its values by these keys in the place of this one. Takes memory for more
    /// than two of them; where it is refused any values may stand here.
    pub fn fill(&mut self, schema: &Schema, keys: &[SortKey], row: &Row) -> Result<(), AllocError>
        requires { All (λ key. IsItemOver (length schema.now.columns) key.item) keys.now }
        ensures { OnOk result (seen_row self.new ≡ held_row schema.now keys.now row.now) }
    {
        self.row = *row;
        self.values.clear();
        for key in keys {
            let value = turned(key.is_descending, item_value(schema, row, key.item));
            self.values.push(value)?;
        }
        Ok(())
    }
}

// The value of a row for an item; an aggregate has none, and stands for no row.
fn item_value(schema: &Schema, row: &Row, item: Item) -> i64
    requires { IsItemOver (length schema.now.columns) item }
    ensures { result ≡ item_value schema.now row.now item }
{
    match item {
        Item::Column(column) => schema.value_of(row, column),
        Item::Count | Item::Aggregate(_, _) => 0,
    }
}

/// A value by which lesser ones come first: where greater ones do, its complement, which turns the whole order round.
pub fn turned(is_descending: bool, value: i64) -> i64
    ensures { result ≡ turned is_descending value }
{
    if is_descending { -1 - value } else { value }
}
