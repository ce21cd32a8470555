// Names that are no columns of a table.
ghost use Rattle.std.specs.Prelude.{[], ◌∷◌, ◌↔◌, IfSome, IsTrue};
ghost use Rattle.std.specs.List.{All, flat_map};
ghost use Rattle.std.specs.Option.{option_map};
ghost use Rattle.ub_syntax.specs.Tree.{select_of, shape};
ghost use Rattle.ub_parser.specs.Firsts.{IsFirstOrNone};
ghost use Rattle.ub_parser.specs.Known.{AreComparedWithin, IsUnknown};
ghost use Rattle.ub_syntax.specs.Limits.{comparisons, compared, key_items};
ghost use Rattle.ub_parser.specs.Refusals.{item_names, names};
ghost use Rattle.ub_parser.specs.Spans.{IsWithin};

use crate::items::listed;
use crate::sense::place;
use crate::text::text;
use ub_lexer::Token;
use ub_syntax::{Condition, Item, OrderKey, Syntax};
use ub_table::Schema;

/// The first name of a statement, its table's left aside, that is no column of the schema.
pub(crate) fn unknown_column(source: &[u8], schema: &Schema, syntax: &Syntax) -> Option<Token>
    requires { All (λ t. IsWithin source.now t) (names (select_of syntax.now)) }
    ensures { IsFirstOrNone (λ name. IsUnknown source.now schema.now name)
        (names (select_of syntax.now)) result }
{
    let item = unknown_in_items(source, schema, listed(&syntax.selection));
    let compared = unknown_in_filter(source, schema, &syntax.filter);
    let name = unknown_in_names(source, schema, syntax.group.as_slice());
    let key = unknown_in_keys(source, schema, syntax.order.as_slice());
    item.or(compared).or(name).or(key)
}

// Whether the token names no column.
fn is_unknown(source: &[u8], schema: &Schema, name: &Token) -> bool
    requires { IsWithin source.now name.now }
    ensures { IsTrue result ↔ IsUnknown source.now schema.now name.now }
{
    place(schema.columns(), text(source, name)).is_none()
}

// The name, if it is no column.
fn unknown_name(source: &[u8], schema: &Schema, name: &Token) -> Option<Token>
    requires { IsWithin source.now name.now }
    ensures { IsFirstOrNone (λ name. IsUnknown source.now schema.now name) (name.now ∷ []) result }
{
    if is_unknown(source, schema, name) {
        Some(*name)
    } else {
        None
    }
}

// The first of these names that is no column.
fn unknown_in_names(source: &[u8], schema: &Schema, names: &[Token]) -> Option<Token>
    requires { All (λ t. IsWithin source.now t) names.now }
    ensures { IsFirstOrNone (λ name. IsUnknown source.now schema.now name) names.now result }
{
    for name in names {
        if is_unknown(source, schema, name) {
            return Some(*name);
        }
    }
    None
}

// The name of an item, if it is no column.
fn unknown_in_item(source: &[u8], schema: &Schema, item: &Item) -> Option<Token>
    requires { All (λ t. IsWithin source.now t) (item_names item.now) }
    ensures { IsFirstOrNone (λ name. IsUnknown source.now schema.now name) (item_names item.now)
        result }
{
    match item {
        Item::Column(name) | Item::Aggregate(_, _, name) => { unknown_name(source, schema, name) }
        Item::Count(_) => None,
    }
}

// The first name of these items that is no column.
fn unknown_in_items(source: &[u8], schema: &Schema, items: &[Item]) -> Option<Token>
    requires { All (λ item. All (λ t. IsWithin source.now t) (item_names item)) items.now }
    ensures { IsFirstOrNone (λ name. IsUnknown source.now schema.now name)
        (flat_map item_names items.now) result }
{
    for item in items {
        if let Some(name) = unknown_in_item(source, schema, item) {
            return Some(name);
        }
    }
    None
}

// The first name of these keys that is no column.
fn unknown_in_keys(source: &[u8], schema: &Schema, keys: &[OrderKey]) -> Option<Token>
    requires { All (λ key. All (λ t. IsWithin source.now t) (item_names key.item)) keys.now }
    ensures { IsFirstOrNone (λ name. IsUnknown source.now schema.now name)
        (flat_map item_names (key_items keys.now)) result }
{
    for key in keys {
        if let Some(name) = unknown_in_item(source, schema, &key.item) {
            return Some(name);
        }
    }
    None
}

// The first column of a comparison that is none.
fn unknown_in_filter(source: &[u8], schema: &Schema, filter: &Option<Condition>) -> Option<Token>
    requires { IfSome (option_map shape filter.now) (λ c. AreComparedWithin source.now c) }
    ensures { IsFirstOrNone (λ name. IsUnknown source.now schema.now name)
        (comparisons (option_map shape filter.now)) result }
{
    match filter {
        Some(condition) => unknown_in_condition(source, schema, condition),
        None => None,
    }
}

// The first column of a comparison that is none.
fn unknown_in_condition(source: &[u8], schema: &Schema, condition: &Condition) -> Option<Token>
    requires { AreComparedWithin source.now (shape condition.now) }
    ensures { IsFirstOrNone (λ name. IsUnknown source.now schema.now name)
        (compared (shape condition.now)) result }
{
    match condition {
        Condition::And(a, b) | Condition::Or(a, b) => {
            let first = unknown_in_condition(source, schema, a);
            first.or(unknown_in_condition(source, schema, b))
        }
        Condition::Not(a) => unknown_in_condition(source, schema, a),
        Condition::Compare(name, _, _) | Condition::Between(name, _, _) => {
            unknown_name(source, schema, name)
        }
    }
}
