ghost use Rattle.std.specs.Prelude.{◌≡◌, ◌<◌, [], ◌∷◌, ◌++◌, length, map, slice_index_or, decimal, codes, if◌then◌else◌, IfOk, OnOk};
ghost use Rattle.std.specs.List.{All, flat_map};
ghost use Rattle.ub_query.specs.Cells as sql;
ghost use Rattle.ub_query.specs.Posed.{IsItemOver};
ghost use Rattle.ub_query.specs.Shape.{asked};
ghost use Rattle.ub_script.specs.Text as spec;

use std::alloc::{AllocError, Global};
use ub_answer::ResultSet;
use ub_parser::{Aggregate, Item, Query, SqlFault};
use ub_plan::{push_number, push_signed};
use ub_query::Cell;
use ub_table::Schema;

/// The text of a refused statement: the refusal's name, and the byte offset in the script where it is seen; nothing for
/// want of memory, which is no refusal. `AllocError` only where memory is refused.
pub fn refused_text(alloc: Global, fault: &SqlFault) -> Result<Vec<u8>, AllocError>
    ensures { IfOk result (λ text. text.items ≡ spec.refused_text fault.now) }
{
    match fault {
        SqlFault::BadByte { at } => refusal_text(alloc, "BadByte", *at),
        SqlFault::Syntax { at } => refusal_text(alloc, "Syntax", *at),
        SqlFault::NumberTooLarge { at } => refusal_text(alloc, "NumberTooLarge", *at),
        SqlFault::TooDeep { at } => refusal_text(alloc, "TooDeep", *at),
        SqlFault::TooMany { at } => refusal_text(alloc, "TooMany", *at),
        SqlFault::UnknownTable { at } => refusal_text(alloc, "UnknownTable", *at),
        SqlFault::UnknownColumn { at } => refusal_text(alloc, "UnknownColumn", *at),
        SqlFault::NotGrouped { at } => refusal_text(alloc, "NotGrouped", *at),
        SqlFault::NotSelected { at } => refusal_text(alloc, "NotSelected", *at),
        SqlFault::ValueCount { at } => refusal_text(alloc, "ValueCount", *at),
        SqlFault::ValueRange { at } => refusal_text(alloc, "ValueRange", *at),
        SqlFault::Memory => Ok(Vec::new(alloc)),
    }
}

/// The text of a query's answer on a table of this schema, for which so many region pages were fetched: a line of the
/// titles, a line for each row of cells, and a line of counts. `AllocError` only where memory is refused.
#[tactic(auto, unfolding(crate::specs::Text::answer_text))]
pub fn answer_text(
    alloc: Global,
    schema: &Schema,
    query: &Query,
    rows: &ResultSet,
    pages: u64,
) -> Result<Vec<u8>, AllocError>
    requires { All (λ item. IsItemOver (length schema.now.columns) item) query.now.items }
    ensures { IfOk result (λ text.
        text.items ≡ spec.answer_text schema.now (asked query.now) rows.now pages) }
{
    let mut text = Vec::new(alloc);
    push_titles(&mut text, schema, query.items.as_slice())?;
    push_rows(&mut text, rows)?;
    push_counts(&mut text, rows.len(), pages)?;
    Ok(text)
}

// As many bytes as the text of an INSERT can have.
const INSERTED_BYTES: usize = 32;

/// The text of an INSERT: which number its row got. `AllocError` only where memory is refused.
#[tactic(auto, unfolding(crate::specs::Text::inserted_text))]
pub fn inserted_text(alloc: Global, number: u32) -> Result<Vec<u8>, AllocError>
    ensures { IfOk result (λ text. text.items ≡ spec.inserted_text number) }
{
    let mut text = Vec::with_capacity(alloc, INSERTED_BYTES)?;
    text.extend_from_slice(b"-- inserted ")?;
    push_number(&mut text, u128::from(number))?;
    text.push(b'\n')?;
    Ok(text)
}

/// The text of a DELETE: how many rows were taken out. `AllocError` only where memory is refused.
#[tactic(auto, unfolding(crate::specs::Text::deleted_text))]
pub fn deleted_text(alloc: Global, count: u32) -> Result<Vec<u8>, AllocError>
    ensures { IfOk result (λ text. text.items ≡ spec.deleted_text count) }
{
    let mut text = Vec::from_slice(alloc, b"-- deleted ")?;
    push_number(&mut text, u128::from(count))?;
    text.push(b'\n')?;
    Ok(text)
}

// A refusal's line: its name, and the byte offset where it is seen.
#[tactic(auto, unfolding(crate::specs::Text::refusal_text))]
fn refusal_text(alloc: Global, name: &str, at: usize) -> Result<Vec<u8>, AllocError>
    ensures { IfOk result (λ text. text.items ≡ spec.refusal_text name.now at) }
{
    let mut text = Vec::from_slice(alloc, b"! ")?;
    text.extend_from_slice(name.as_bytes())?;
    text.extend_from_slice(b" at ")?;
    push_number(&mut text, at as u128)?;
    text.push(b'\n')?;
    Ok(text)
}

// Puts the line of the items' titles.
fn push_titles(text: &mut Vec<u8>, schema: &Schema, items: &[Item]) -> Result<(), AllocError>
    requires { All (λ item. IsItemOver (length schema.now.columns) item) items.now }
    ensures { OnOk result (text.new.items
        ≡ text.old.items ++ spec.comma_line (map (sql.title schema.now) items.now)) }
{
    for (place, item) in items.iter().enumerate() {
        push_comma(text, place == 0)?;
        push_title(text, schema, *item)?;
    }
    text.push(b'\n')?;
    Ok(())
}

// Puts the title of an item.
fn push_title(text: &mut Vec<u8>, schema: &Schema, item: Item) -> Result<(), AllocError>
    requires { IsItemOver (length schema.now.columns) item }
    ensures { OnOk result (text.new.items ≡ text.old.items ++ sql.title schema.now item) }
{
    match item {
        Item::Column(column) => push_name(text, schema, column),
        Item::Count => text.extend_from_slice(b"COUNT(*)"),
        Item::Aggregate(aggregate, column) => {
            push_call(
                text,
                keyword_of(aggregate),
                schema.columns()[column].bytes(),
            )
        }
    }
}

// Puts a keyword, and in parentheses a name.
fn push_call(text: &mut Vec<u8>, keyword: &[u8], name: &[u8]) -> Result<(), AllocError>
    ensures { OnOk result (text.new.items
        ≡ text.old.items ++ keyword.now ++ codes "(" ++ name.now ++ codes ")") }
{
    text.extend_from_slice(keyword)?;
    text.extend_from_slice(b"(")?;
    text.extend_from_slice(name)?;
    text.extend_from_slice(b")")
}

// Puts the name of a column.
fn push_name(text: &mut Vec<u8>, schema: &Schema, column: usize) -> Result<(), AllocError>
    requires { column < length schema.now.columns }
    ensures { OnOk result (text.new.items ≡ text.old.items ++ sql.name_of schema.now column) }
{
    text.extend_from_slice(schema.columns()[column].bytes())
}

// The keyword of what is taken.
fn keyword_of(aggregate: Aggregate) -> &'static [u8]
    ensures { result.now ≡ sql.keyword_of aggregate }
{
    match aggregate {
        Aggregate::Sum => b"SUM",
        Aggregate::Min => b"MIN",
        Aggregate::Max => b"MAX",
    }
}

// Puts a line for each row of cells.
fn push_rows(text: &mut Vec<u8>, rows: &ResultSet) -> Result<(), AllocError>
    ensures { OnOk result (text.new.items ≡ text.old.items ++ flat_map spec.row_line rows.now) }
{
    for index in 0..rows.len() {
        push_row(text, rows, index)?;
    }
    Ok(())
}

// Puts the line of a row, of which each cell is made here, where no cells are held.
fn push_row(text: &mut Vec<u8>, rows: &ResultSet, index: usize) -> Result<(), AllocError>
    requires { index < length rows.now }
    ensures { OnOk result
        (text.new.items ≡ text.old.items ++ spec.row_line (slice_index_or rows.now index [])) }
{
    for place in 0..rows.width() {
        push_comma(text, place == 0)?;
        push_cell(text, rows.cell(index, place))?;
    }
    text.push(b'\n')?;
    Ok(())
}

// Puts a number in decimal, or NULL.
fn push_cell(text: &mut Vec<u8>, cell: Cell) -> Result<(), AllocError>
    ensures { OnOk result (text.new.items ≡ text.old.items ++ spec.cell_text cell) }
{
    match cell {
        Cell::Number(number) => push_signed(text, number),
        Cell::Null => text.extend_from_slice(b"NULL"),
    }
}

// Puts the line that says how many rows were written and how many region pages were fetched for them.
fn push_counts(text: &mut Vec<u8>, rows: usize, pages: u64) -> Result<(), AllocError>
    ensures { OnOk result (text.new.items ≡ text.old.items ++ spec.counts_line rows pages) }
{
    text.extend_from_slice(b"-- rows ")?;
    push_number(text, rows as u128)?;
    text.extend_from_slice(b", pages ")?;
    push_number(text, u128::from(pages))?;
    text.extend_from_slice(b"\n")
}

// Puts a comma before a piece, unless it is the first of its line.
fn push_comma(text: &mut Vec<u8>, is_first: bool) -> Result<(), AllocError>
    ensures { OnOk result (text.new.items ≡ text.old.items ++ (if is_first then [] else 44 ∷ [])) }
{
    if !is_first {
        text.push(b',')?;
    }
    Ok(())
}
