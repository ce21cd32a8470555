// Queries with groups: what may be selected in them, and by what may be ordered.
ghost use Rattle.std.specs.Prelude.{◌≡◌, ◌↔◌, map, Contains, IsTrue, MatchOption};
ghost use Rattle.std.specs.List.{All};
ghost use Rattle.ub_lexer.specs.Tokens.{text_of};
ghost use Rattle.ub_lexer.specs.declared.token.Token.{Token};
ghost use Rattle.ub_syntax.specs.Tree.{select_of};
ghost use Rattle.ub_syntax.specs.declared.syntax.Item.{Item};
ghost use Rattle.ub_parser.specs.Firsts.{IsFirstOrNone};
ghost use Rattle.ub_parser.specs.Known.{IsColumn, IsKnownItem};
ghost use Rattle.ub_syntax.specs.Limits.{key_items, listed};
ghost use Rattle.ub_parser.specs.Refusals.{IsGrouping, IsNotGrouped, IsUngrouped, IsUnselected, item_names, names};
ghost use Rattle.ub_parser.specs.Sense.{item_of};
ghost use Rattle.ub_parser.specs.Spans.{IsWithin};

use crate::items::{first_token, listed};
use crate::sense::item;
use crate::text::text;
use ub_lexer::Token;
use ub_syntax::{Item, OrderKey, Selection, Syntax};
use ub_table::Schema;

/// In a statement with groups, the `*`, or the first token of the first item that is a column by which is not grouped.
pub(crate) fn not_grouped(source: &[u8], syntax: &Syntax, has_groups: bool) -> Option<Token>
    requires names { All (λ t. IsWithin source.now t) (names (select_of syntax.now)) }
    requires groups { IsTrue has_groups ↔ IsGrouping (select_of syntax.now) }
    ensures { MatchOption result
        ((t : Token) → IsGrouping (select_of syntax.now)
        → ¬ IsNotGrouped source.now (select_of syntax.now) syntax.now.selection t)
        (λ t. IsGrouping (select_of syntax.now)
        × IsNotGrouped source.now (select_of syntax.now) syntax.now.selection t) }
{
    if !has_groups {
        return None;
    }
    match &syntax.selection {
        Selection::All(star) => Some(*star),
        Selection::Listed(items) => {
            let item = first_ungrouped(source, syntax, items.as_slice())?;
            Some(first_token(&item))
        }
    }
}

/// The first key by which may not be ordered: with groups, one that is none of the items; without, an aggregate.
pub(crate) fn not_selected(
    source: &[u8],
    schema: &Schema,
    syntax: &Syntax,
    has_groups: bool,
) -> Option<Item>
    requires names { All (λ t. IsColumn source.now schema.now t) (names (select_of syntax.now)) }
    requires groups { IsTrue has_groups ↔ IsGrouping (select_of syntax.now) }
    ensures { IsFirstOrNone (λ key. IsUnselected source.now schema.now (select_of syntax.now) key)
        (key_items syntax.now.order) result }
{
    first_unselected(source, schema, syntax, has_groups, syntax.order.as_slice())
}

// The first of these keys by which may not be ordered.
fn first_unselected(
    source: &[u8],
    schema: &Schema,
    syntax: &Syntax,
    has_groups: bool,
    keys: &[OrderKey],
) -> Option<Item>
    requires groups { IsTrue has_groups ↔ IsGrouping (select_of syntax.now) }
    requires keys { All (λ key. IsKnownItem source.now schema.now key.item) keys.now }
    requires items { All (λ item. IsKnownItem source.now schema.now item)
        (listed syntax.now.selection) }
    ensures { IsFirstOrNone (λ key. IsUnselected source.now schema.now (select_of syntax.now) key)
        (key_items keys.now) result }
{
    for key in keys {
        if is_unselected(source, schema, syntax, has_groups, &key.item) {
            return Some(key.item);
        }
    }
    None
}

// The first of these items that is a column by which is not grouped.
fn first_ungrouped(source: &[u8], syntax: &Syntax, items: &[Item]) -> Option<Item>
    requires group { All (λ t. IsWithin source.now t) syntax.now.group }
    requires items { All (λ item. All (λ t. IsWithin source.now t) (item_names item)) items.now }
    ensures { IsFirstOrNone (λ item. IsUngrouped source.now (select_of syntax.now) item) items.now
        result }
{
    for item in items {
        if is_ungrouped(source, syntax, item) {
            return Some(*item);
        }
    }
    None
}

// Whether the item is a column by which is not grouped.
fn is_ungrouped(source: &[u8], syntax: &Syntax, item: &Item) -> bool
    requires group { All (λ t. IsWithin source.now t) syntax.now.group }
    requires item { All (λ t. IsWithin source.now t) (item_names item.now) }
    ensures { IsTrue result ↔ IsUngrouped source.now (select_of syntax.now) item.now }
{
    match item {
        Item::Column(name) => !is_grouped(source, syntax.group.as_slice(), name),
        Item::Count(_) | Item::Aggregate(_, _, _) => false,
    }
}

// Whether a name is one of these, case included.
fn is_grouped(source: &[u8], group: &[Token], name: &Token) -> bool
    requires group { All (λ t. IsWithin source.now t) group.now }
    requires name { IsWithin source.now name.now }
    ensures { IsTrue result
        ↔ Contains (map (λ t. text_of source.now t) group.now) (text_of source.now name.now) }
{
    for other in group {
        if is_same(text(source, other), text(source, name)) {
            return true;
        }
    }
    false
}

fn is_same(a: &[u8], b: &[u8]) -> bool
    ensures { IsTrue result ↔ (a.now ≡ b.now) }
{
    a == b
}

// Whether by this may not be ordered.
fn is_unselected(
    source: &[u8],
    schema: &Schema,
    syntax: &Syntax,
    has_groups: bool,
    key: &Item,
) -> bool
    requires groups { IsTrue has_groups ↔ IsGrouping (select_of syntax.now) }
    requires key { IsKnownItem source.now schema.now key.now }
    requires items { All (λ item. IsKnownItem source.now schema.now item)
        (listed syntax.now.selection) }
    ensures { IsTrue result ↔ IsUnselected source.now schema.now (select_of syntax.now) key.now }
{
    if has_groups {
        !is_selected(source, schema, listed(&syntax.selection), key)
    } else {
        item(source, schema, key).is_aggregate()
    }
}

// Whether what is wanted is what one of the items selects.
fn is_selected(source: &[u8], schema: &Schema, items: &[Item], wanted: &Item) -> bool
    requires wanted { IsKnownItem source.now schema.now wanted.now }
    requires items { All (λ item. IsKnownItem source.now schema.now item) items.now }
    ensures { IsTrue result ↔ Contains (map (λ item. item_of source.now schema.now item) items.now)
        (item_of source.now schema.now wanted.now) }
{
    let wanted = item(source, schema, wanted);
    for other in items {
        if item(source, schema, other).is_same(wanted) {
            return true;
        }
    }
    false
}
