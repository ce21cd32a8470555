ghost use Rattle.std.specs.Prelude.{◌≡◌, ◌<◌, ◌==◌, ◌++◌, [], if◌then◌else◌, length, codes, decimal, IfOk, OnOk};
ghost use Rattle.ub_table_file.specs.Described as spec;

use itoa::Buffer;
use std::alloc::{AllocError, Global};
use ub_table::Schema;

/// What the header of a table tells beside its schema.
#[derive(Clone, Copy)]
pub struct Numbers {
    pub rows: u32,
    pub next: u32,
    pub regions: u32,
    /// How many levels the index has; in version 1 how many pages the directory has.
    pub levels: u32,
    pub version: u8,
}

/// The text of what a header tells: a line for each fact, and one with the options that load the table's rows as the same table.
/// `AllocError` only where memory is refused.
#[tactic(auto, unfolding(crate::specs::Described::description_text))]
pub fn text_of(alloc: Global, schema: &Schema, numbers: Numbers) -> Result<Vec<u8>, AllocError>
    ensures { IfOk result (λ text.
        text.items ≡ spec.description_text (spec.description schema.now numbers)) }
{
    let mut text = Vec::new(alloc);
    push_fact(&mut text, b"table", schema.name().bytes())?;
    push_columns(&mut text, schema)?;
    push_counts(&mut text, schema, numbers)?;
    push_options(&mut text, schema)?;
    Ok(text)
}

// Puts a line for each column.
fn push_columns(text: &mut Vec<u8>, schema: &Schema) -> Result<(), AllocError>
    ensures { OnOk result (text.new.items ≡ text.old.items ++ spec.column_lines schema.now) }
{
    for column in 0..schema.columns().len() {
        push_column(text, schema, column)?;
    }
    Ok(())
}

// Puts the line of a column.
fn push_column(text: &mut Vec<u8>, schema: &Schema, column: usize) -> Result<(), AllocError>
    requires { column < length schema.now.columns }
    ensures { OnOk result (text.new.items ≡ text.old.items ++ spec.column_line schema.now column) }
{
    let name = schema.columns()[column].bytes();
    if column < schema.dims() as usize {
        push_dimension(text, name, schema.signed(), column)
    } else {
        push_fact(text, b"measure", name)
    }
}

// Puts the line of a dimension of this name, in a table whose signed dimensions this mask tells.
fn push_dimension(
    text: &mut Vec<u8>,
    name: &[u8],
    signed: u32,
    dim: usize,
) -> Result<(), AllocError>
    requires { dim < 32 }
    ensures { OnOk result (text.new.items ≡ text.old.items
        ++ spec.fact_line (codes "dimension") (name.now ++ spec.sign_text signed dim)) }
{
    text.extend_from_slice(b"dimension ")?;
    text.extend_from_slice(name)?;
    text.extend_from_slice(sign_word(signed, dim))?;
    text.extend_from_slice(b"\n")
}

// What stands after the name of a dimension.
fn sign_word(signed: u32, dim: usize) -> &'static [u8]
    requires { dim < 32 }
    ensures { result.now ≡ spec.sign_text signed dim }
{
    if (signed >> dim) & 1 == 1 {
        b" signed"
    } else {
        b""
    }
}

// Puts the lines of the counts.
fn push_counts(text: &mut Vec<u8>, schema: &Schema, numbers: Numbers) -> Result<(), AllocError>
    ensures { OnOk result (text.new.items
        ≡ text.old.items ++ spec.count_lines (spec.description schema.now numbers)) }
{
    push_number(text, b"rows", numbers.rows)?;
    push_number(text, b"next", numbers.next)?;
    push_number(text, b"regions", numbers.regions)?;
    push_number(text, b"page-rows", schema.page_rows())?;
    push_number(text, levels_word(numbers.version), numbers.levels)?;
    push_number(text, b"format", u32::from(numbers.version))
}

// What the levels of a header of this version count.
fn levels_word(version: u8) -> &'static [u8]
    ensures { result.now ≡ spec.levels_word version }
{
    if version == 1 {
        b"directory-pages"
    } else {
        b"levels"
    }
}

// Puts the line of the options with which a CSV file of the rows is loaded as the same table.
fn push_options(text: &mut Vec<u8>, schema: &Schema) -> Result<(), AllocError>
    ensures { OnOk result (text.new.items ≡ text.old.items ++ spec.options_line schema.now) }
{
    push_option(text, b"load-with --dims ", schema.dims())?;
    push_option(text, b" --signed ", schema.signed())?;
    push_option(text, b" --page-rows ", schema.page_rows())?;
    push_fact(text, b" --name", schema.name().bytes())
}

// Puts an option with a number.
fn push_option(text: &mut Vec<u8>, option: &[u8], number: u32) -> Result<(), AllocError>
    ensures { OnOk result (text.new.items
        ≡ text.old.items ++ spec.option_text option.now number) }
{
    text.extend_from_slice(option)?;
    text.extend_from_slice(Buffer::new().format(number).as_bytes())
}

// Puts a line with a number.
fn push_number(text: &mut Vec<u8>, word: &[u8], number: u32) -> Result<(), AllocError>
    ensures { OnOk result (text.new.items ≡ text.old.items ++ spec.number_line word.now number) }
{
    push_fact(text, word, Buffer::new().format(number).as_bytes())
}

// Puts a line: a word, a space, and what is told.
fn push_fact(text: &mut Vec<u8>, word: &[u8], told: &[u8]) -> Result<(), AllocError>
    ensures { OnOk result (text.new.items ≡ text.old.items ++ spec.fact_line word.now told.now) }
{
    text.extend_from_slice(word)?;
    text.extend_from_slice(b" ")?;
    text.extend_from_slice(told)?;
    text.extend_from_slice(b"\n")
}
