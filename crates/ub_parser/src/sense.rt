// What the syntax of a statement asks: names become columns, digits become numbers.
ghost use Rattle.std.specs.Prelude.{◌≡◌, ◌<◌, true, length, map, MatchOption, IfOk, IfSome, Contains};
ghost use Rattle.std.specs.List.{All, position_from};
ghost use Rattle.std.specs.Option.{option_map};
ghost use Rattle.std.specs.Str.{bytes_eq};
ghost use Rattle.ub_lexer.specs.Tokens.{text_of};
ghost use Rattle.ub_syntax.specs.Tree.{select_of};
ghost use Rattle.ub_syntax.specs.Tree as syntax;
ghost use Rattle.ub_parser.specs.Known.{IsColumn, IsKnown, IsKnownItem};
ghost use Rattle.ub_syntax.specs.Limits.{listed};
ghost use Rattle.ub_parser.specs.Refusals.{names};
ghost use Rattle.ub_parser.specs.Sense as spec;
ghost use Rattle.ub_parser.specs.Known.{IsAskedOver};
ghost use Rattle.ub_query.specs.Posed.{IsItemOver, IsOver};
ghost use Rattle.ub_query.specs.Shape.{asked, shape};
ghost use Rattle.ub_parser.specs.Spans.{AreWritten, IsNumber};

use crate::text::{number, text};
use std::alloc::{AllocError, Global};
use ub_lexer::Token;
use ub_query::{Cond, Item, Items, Query, SortKey};
use ub_syntax::{Condition, Literal, OrderKey, Selection, Syntax};
use ub_table::{Name, Schema};

/// The place, from 0, of the first of the names that is this text.
pub(crate) fn place(names: &[Name], text: &[u8]) -> Option<usize>
    ensures { result ≡ position_from (λ name. bytes_eq name text.now) 0 names.now }
{
    names.iter().position(|name| name.bytes() == text)
}

/// The column that the token names.
fn column(source: &[u8], schema: &Schema, token: &Token) -> usize
    requires { IsColumn source.now schema.now token.now }
    ensures column { result ≡ spec.column_of source.now schema.now token.now }
    ensures over { result < length schema.now.columns }
{
    place(schema.columns(), text(source, token)).unwrap()
}

/// The number that a literal writes.
pub(crate) fn value(source: &[u8], literal: &Literal) -> i128
    requires { IsNumber source.now literal.now.digits }
    ensures { result ≡ spec.value_of source.now literal.now }
{
    let magnitude = i128::from(number(source, &literal.digits).unwrap());
    if literal.is_negative {
        -magnitude
    } else {
        magnitude
    }
}

/// What an item selects.
pub(crate) fn item(source: &[u8], schema: &Schema, item: &ub_syntax::Item) -> Item
    requires { IsKnownItem source.now schema.now item.now }
    ensures item { result ≡ spec.item_of source.now schema.now item.now }
    ensures over { IsItemOver (length schema.now.columns) result }
{
    match item {
        ub_syntax::Item::Column(name) => Item::Column(column(source, schema, name)),
        ub_syntax::Item::Count(_) => Item::Count,
        ub_syntax::Item::Aggregate(aggregate, _, name) => {
            Item::Aggregate(*aggregate, column(source, schema, name))
        }
    }
}

/// What a condition asks of a row.
fn condition(
    alloc: Global,
    source: &[u8],
    schema: &Schema,
    condition: &Condition,
) -> Result<Cond, AllocError>
    requires { IsKnown source.now schema.now (syntax.shape condition.now) }
    ensures shape { IfOk result
        (λ c. shape c ≡ spec.shape_of source.now schema.now (syntax.shape condition.now)) }
    ensures over { IfOk result (λ c. IsOver (length schema.now.columns) (shape c)) }
{
    Ok(match condition {
        Condition::And(a, b) => {
            let a = self::condition(alloc, source, schema, a)?;
            let b = self::condition(alloc, source, schema, b)?;
            Cond::And(Box::new(alloc, a)?, Box::new(alloc, b)?)
        }
        Condition::Or(a, b) => {
            let a = self::condition(alloc, source, schema, a)?;
            let b = self::condition(alloc, source, schema, b)?;
            Cond::Or(Box::new(alloc, a)?, Box::new(alloc, b)?)
        }
        Condition::Not(a) => {
            let a = self::condition(alloc, source, schema, a)?;
            Cond::Not(Box::new(alloc, a)?)
        }
        Condition::Compare(name, operator, literal) => Cond::Compare {
            column: column(source, schema, name),
            operator: *operator,
            value: value(source, literal),
        },
        Condition::Between(name, low, high) => Cond::Between {
            column: column(source, schema, name),
            low: value(source, low),
            high: value(source, high),
        },
    })
}

/// What the items of a list select.
fn listed(
    alloc: Global,
    source: &[u8],
    schema: &Schema,
    spelled: &[ub_syntax::Item],
) -> Result<Vec<Item>, AllocError>
    requires { All (λ item. IsKnownItem source.now schema.now item) spelled.now }
    ensures items { IfOk result
        (λ items. items.items ≡ map (λ item. spec.item_of source.now schema.now item) spelled.now) }
    ensures over { IfOk result
        (λ items. All (λ item. IsItemOver (length schema.now.columns) item) items.items) }
{
    let mut items = Vec::new(alloc);
    for item in spelled {
        items.push(self::item(source, schema, item))?;
    }
    Ok(items)
}

/// All columns, in order.
fn all_columns(alloc: Global, schema: &Schema) -> Result<Vec<Item>, AllocError>
    ensures items { IfOk result (λ items. items.items ≡ spec.all_columns schema.now) }
    ensures over { IfOk result
        (λ items. All (λ item. IsItemOver (length schema.now.columns) item) items.items) }
{
    schema
        .columns()
        .iter()
        .enumerate()
        .map(|(column, _)| Item::Column(column))
        .collect(alloc)
}

/// The columns by which is grouped.
fn group(
    alloc: Global,
    source: &[u8],
    schema: &Schema,
    names: &[Token],
) -> Result<Vec<usize>, AllocError>
    requires { All (λ name. IsColumn source.now schema.now name) names.now }
    ensures group { IfOk result
        (λ group. group.items ≡ map (λ name. spec.column_of source.now schema.now name) names.now) }
    ensures over { IfOk result (λ group. All (λ column. column < length schema.now.columns)
        group.items) }
{
    let mut group = Vec::new(alloc);
    for name in names {
        group.push(column(source, schema, name))?;
    }
    Ok(group)
}

/// The keys by which is ordered.
fn order(
    alloc: Global,
    source: &[u8],
    schema: &Schema,
    keys: &[OrderKey],
) -> Result<Vec<SortKey>, AllocError>
    requires { All (λ key. IsKnownItem source.now schema.now key.item) keys.now }
    ensures order { IfOk result
        (λ order. order.items ≡ map (λ key. spec.key_of source.now schema.now key) keys.now) }
    ensures over { IfOk result
        (λ order. All (λ key. IsItemOver (length schema.now.columns) key.item) order.items) }
{
    let mut order = Vec::new(alloc);
    for key in keys {
        order.push(SortKey {
            item: item(source, schema, &key.item),
            is_descending: key.is_descending,
        })?;
    }
    Ok(order)
}

/// What is selected.
fn items(
    alloc: Global,
    source: &[u8],
    schema: &Schema,
    selection: &Selection,
) -> Result<Vec<Item>, AllocError>
    requires { All (λ item. IsKnownItem source.now schema.now item) (listed selection.now) }
    ensures items { IfOk result (λ items. items.items
        ≡ spec.items_of source.now schema.now selection.now) }
    ensures over { IfOk result
        (λ items. All (λ item. IsItemOver (length schema.now.columns) item) items.items) }
{
    match selection {
        Selection::All(_) => all_columns(alloc, schema),
        Selection::Listed(spelled) => listed(alloc, source, schema, spelled.as_slice()),
    }
}

/// Which rows are selected.
fn filter(
    alloc: Global,
    source: &[u8],
    schema: &Schema,
    filter: &Option<Condition>,
) -> Result<Option<Cond>, AllocError>
    requires { IfSome (option_map syntax.shape filter.now) (λ c. IsKnown source.now schema.now c) }
    ensures filter { IfOk result (λ c. option_map shape c
        ≡ option_map (λ c. spec.shape_of source.now schema.now c)
        (option_map syntax.shape filter.now)) }
    ensures over { IfOk result
        (λ c. IfSome (option_map shape c) (λ c. IsOver (length schema.now.columns) c)) }
{
    match filter {
        Some(filter) => Ok(Some(condition(alloc, source, schema, filter)?)),
        None => Ok(None),
    }
}

/// How many rows are asked for.
fn limit(source: &[u8], limit: &Option<Token>) -> Option<u64>
    requires { IfSome limit.now (λ t. IsNumber source.now t) }
    ensures { result ≡ option_map (λ t. spec.number_of source.now t) limit.now }
{
    match limit {
        Some(digits) => number(source, digits),
        None => None,
    }
}

/// What the syntax of a SELECT asks of a table of the schema.
///
/// # Errors
///
/// `AllocError` where memory runs out.
pub(crate) fn query(
    alloc: Global,
    source: &[u8],
    schema: &Schema,
    syntax: &Syntax,
) -> Result<Query, AllocError>
    requires written { AreWritten source.now (select_of syntax.now) }
    requires known { All (λ name. Contains schema.now.columns (text_of source.now name))
        (names (select_of syntax.now)) }
    ensures asked { IfOk result (λ q. asked q ≡ spec.sense_of source.now schema.now
        (select_of syntax.now)) }
    ensures over { IfOk result (λ q. IsAskedOver (length schema.now.columns) (asked q)) }
{
    let items = items(alloc, source, schema, &syntax.selection)?;
    let filter = filter(alloc, source, schema, &syntax.filter)?;
    let group = group(alloc, source, schema, syntax.group.as_slice())?;
    let order = order(alloc, source, schema, syntax.order.as_slice())?;
    Ok(Query {
        items: Items::new(items),
        filter,
        group: Items::new(group),
        order: Items::new(order),
        limit: limit(source, &syntax.limit),
    })
}
