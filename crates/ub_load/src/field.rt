//! What one field of a record says.

ghost use Rattle.std.specs.Prelude.{◌≡◌, ◌<◌, ◌≤◌, ◌^◌, ◌↔◌, true, length, reverse, IsSome, IfSome, MatchResult};
ghost use Rattle.std.specs.Char.{is_ascii_digit};
ghost use Rattle.std.specs.List.{list_all};
ghost use Rattle.std.specs.Str.Parse.{AllDigits, digits_value, starts_with_minus, without_leading_sign};
ghost use Rattle.ub_load.specs.Refusals.{field_refusal, HoldsValue};
ghost use Rattle.ub_load.specs.Field as spec;

use crate::fault::LoadFault;
use std::str;
use ub_table::{Axes, fits_at};

/// The field without the spaces (32) at its two ends. No other byte is taken away, a tab neither.
#[tactic(auto, unfolding(crate::specs::Field::trimmed))]
pub fn trim_spaces(field: &[u8]) -> &[u8]
    ensures { result.now ≡ spec.trimmed field.now }
{
    before_spaces(after_spaces(field))
}

// The bytes after any spaces at the front.
fn after_spaces(field: &[u8]) -> &[u8]
    ensures { result.now ≡ spec.after_spaces field.now }
{
    let mut rest = field;
    while let Some((first, after)) = rest.split_first() {
        if *first != b' ' {
            return rest;
        }
        rest = after;
    }
    rest
}

// The bytes before any spaces at the end.
fn before_spaces(field: &[u8]) -> &[u8]
    ensures { result.now ≡ reverse (spec.after_spaces (reverse field.now)) }
{
    let mut rest = field;
    while let Some((last, before)) = rest.split_last() {
        if *last != b' ' {
            return rest;
        }
        rest = before;
    }
    rest
}

// Whether the text is an optional sign (`+` or `-`) and then one digit or more.
#[tactic(auto, unfolding(crate::specs::Field::is_number))]
fn is_number(text: &[u8]) -> bool
    ensures { result ≡ spec.is_number text.now }
{
    let digits = without_sign(text);
    !digits.is_empty() && are_digits(digits)
}

fn are_digits(text: &[u8]) -> bool
    ensures { result ≡ list_all is_ascii_digit text.now }
{
    text.iter().all(|byte| byte.is_ascii_digit())
}

// The text without the sign that may stand first.
fn without_sign(text: &[u8]) -> &[u8]
    ensures { result.now ≡ without_leading_sign text.now }
{
    if !text.is_empty() && (text[0] == b'-' || text[0] == b'+') {
        &text[1..]
    } else {
        text
    }
}

// Each number of so many digits fits 64 bits with sign.
const SURE_DIGITS: usize = 18;

// Whether the text begins with `-`.
fn is_negative(text: &[u8]) -> bool
    ensures { result ≡ starts_with_minus text.now }
{
    !text.is_empty() && text[0] == b'-'
}

// The number that a few digits write.
fn read_digits(digits: &[u8]) -> u64
    requires few { length digits.now ≤ SURE_DIGITS }
    requires digits { AllDigits 10 digits.now }
    ensures value { result ≡ digits_value 10 digits.now }
    ensures small { result < 10 ^ 18 }
{
    let mut value = 0;
    for byte in digits {
        value = 10 * value + u64::from(*byte - b'0');
    }
    value
}

// The number that the text writes, which is a number (`is_number`), where it fits 64 bits with sign.
fn read_number(text: &[u8]) -> Option<i64>
    requires { spec.is_number text.now ≡ true }
    ensures value { IfSome result (λ v. v ≡ spec.number_of text.now) }
    ensures valid { IsSome result ↔ spec.IsWord text.now }
{
    let digits = without_sign(text);
    if digits.len() > SURE_DIGITS {
        return parse_number(text);
    }
    let value = read_digits(digits) as i64;
    Some(if is_negative(text) { -value } else { value })
}

// The same of any text, as std parses it.
fn parse_number(text: &[u8]) -> Option<i64>
    ensures value { IfSome result (λ v. v ≡ spec.number_of text.now) }
    ensures valid { IsSome result ↔ spec.IsWord text.now }
{
    match str::from_utf8(text) {
        Ok(text) => text.parse().ok(),
        Err(_) => None,
    }
}

/// The value of a field in a column (its place counts from 0) of a table with these dimensions, in the row of this
/// number. `BadNumber` where it is no number, and `OutOfRange` where its column cannot hold it.
pub fn read_field(field: &[u8], place: usize, axes: Axes, row: u32) -> Result<i64, LoadFault>
    requires { place < 2 ^ 31 }
    ensures { MatchResult result
        (HoldsValue axes row (place, field.now))
        (λ f. field_refusal axes row (place, field.now) ≡ Some f) }
{
    let text = trim_spaces(field);
    let column = place as u32 + 1;
    if !is_number(text) {
        return Err(LoadFault::BadNumber { row, column });
    }
    match read_number(text) {
        Some(value) if fits_at(axes, place, i128::from(value)) => Ok(value),
        _ => Err(LoadFault::OutOfRange { row, column }),
    }
}
