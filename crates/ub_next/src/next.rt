ghost use Rattle.std.specs.Prelude.{◌≡◌, ◌==◌, ◌≤◌, ◌⊎◌, ℕ, List, length, map, IfOk, IfErr};
ghost use Rattle.std.specs.Char.{is_ascii_digit};
ghost use Rattle.std.specs.List.{list_all, slice_split};
ghost use Rattle.std.specs.String.{string_bytes};
ghost use Rattle.ub_next.specs.Next.{IsPointText, AreNearest, IsNearest, IsNextAnswer, number_in, neighbour_line, next_fault_text, answer_text};
ghost use Rattle.ub_next.specs.declared.next.NextFault.TheVariants.{Memory};

use std::alloc::{AllocError, AllocFailed, Global};
use thiserror::Error;
use ub_bigmin::ZBox;
use ub_zaddr::{Point, Shape, last};

/// The addresses of a box that are nearest to an address: the least from it on, and the greatest up to it.
#[derive(Clone, Copy, PartialEq, Eq, Debug)]
pub struct Neighbours {
    pub next: Option<u128>,
    pub prev: Option<u128>,
}

/// Why there is no answer, each where none before it holds.
#[derive(Clone, Copy, PartialEq, Eq, Debug, Error)]
pub enum NextFault {
    /// A corner is no point, the corners are of two spaces, or the address is no number of 128 bits.
    #[error("BadPoint")]
    BadPoint,
    /// The low corner is above the high one in some coordinate.
    #[error("EmptyBox")]
    EmptyBox,
    /// The address is above the last one of the space.
    #[error("TooLarge")]
    TooLarge,
    /// The memory for it was refused.
    #[error("Memory")]
    Memory,
}

impl From<AllocError> for NextFault {
    ghost from_gives = { λ _ e. e ≡ Memory };

    fn from(_e: AllocError) -> NextFault {
        NextFault::Memory
    }
}

impl<T: Drop> From<AllocFailed<T>> for NextFault {
    ghost from_gives = { λ _ e. e ≡ Memory };

    fn from(_e: AllocFailed<T>) -> NextFault {
        NextFault::Memory
    }
}

// Whether each byte is an ASCII digit.
fn is_digits(text: &str) -> bool
    ensures { result ≡ list_all is_ascii_digit text.now }
{
    text.as_bytes().iter().all(|b| b.is_ascii_digit())
}

// A coordinate: digits alone, 0 to 2^32 - 1.
fn coordinate(text: &str) -> Option<u32>
    ensures { result ≡ number_in 32 text.now }
{
    if !is_digits(text) {
        return None;
    }
    text.parse::<u32>().ok()
}

// An address: digits alone, 0 to 2^128 - 1.
fn whole_number(text: &str) -> Option<u128>
    ensures { result ≡ number_in 128 text.now }
{
    if !is_digits(text) {
        return None;
    }
    text.parse::<u128>().ok()
}

// The pieces of a text between its commas.
fn pieces_of(alloc: Global, text: &str) -> Result<Vec<&str>, AllocError>
    ensures { IfOk result (λ v. map (λ x. x.now) v.items ≡ slice_split (λ c. c == 44) text.now) }
{
    text.split(',').collect(alloc)
}

// One to four coordinates, joined by commas.
fn point_of(alloc: Global, text: &str) -> Result<Vec<u32>, NextFault>
    ensures point { IfOk result (λ p. IsPointText text.now p.items) }
    ensures bad { result ≡ Err NextFault.BadPoint
        → (point : List ℕ) → ¬ (IsPointText text.now point) }
    ensures why { IfErr result (λ e. (e ≡ NextFault.BadPoint) ⊎ (e ≡ NextFault.Memory)) }
{
    let pieces = pieces_of(alloc, text)?;
    if 4 < pieces.len() {
        return Err(NextFault::BadPoint);
    }
    let mut values = Vec::new(alloc);
    for piece in &pieces {
        match coordinate(piece) {
            Some(value) => values.push(value)?,
            None => return Err(NextFault::BadPoint),
        }
    }
    Ok(values)
}

// The addresses of a box nearest to one.
#[tactic(auto, unfolding(crate::specs::Next::AreNearest))]
fn around(zbox: &ZBox, from: u128) -> Neighbours
    ensures { AreNearest zbox.now from result }
{
    Neighbours {
        next: zbox.next_in_box(from),
        prev: zbox.prev_in_box(from),
    }
}

// The addresses nearest to one in the box between two corners, each of one to four coordinates.
fn nearest(low: &[u32], high: &[u32], from: u128) -> Result<Neighbours, NextFault>
    requires some { 1 ≤ length low.now }
    requires few { length low.now ≤ 4 }
    requires same { length low.now ≡ length high.now }
    ensures { IsNearest (record { lo = low.now; hi = high.now }) from result }
{
    let shape = Shape::new(low.len() as u32).unwrap();
    let low = Point::new(shape, low).unwrap();
    let high = Point::new(shape, high).unwrap();
    let Some(zbox) = ZBox::new(shape, &low, &high) else {
        return Err(NextFault::EmptyBox);
    };
    if last(shape) < from {
        return Err(NextFault::TooLarge);
    }
    Ok(around(&zbox, from))
}

/// The addresses nearest to the address `z` in the box between the corners `lo` and `hi`, all as words of a command
/// line: a corner is one to four coordinates, each ASCII digits of a value up to 2^32 - 1, joined by commas, and `z` is
/// ASCII digits of a value up to 2^128 - 1. Leading zeros are allowed, signs and spaces are not. `BadPoint` where a word
/// is not of this form or the corners are of unequal count, else `EmptyBox` where `lo` is above `hi` in a coordinate,
/// else `TooLarge` where `z` is above the last address; `Memory` where the memory for it was refused.
pub fn neighbours_of(alloc: Global, lo: &str, hi: &str, z: &str) -> Result<Neighbours, NextFault>
    ensures { IsNextAnswer lo.now hi.now z.now result }
{
    let low = point_of(alloc, lo)?;
    let high = point_of(alloc, hi)?;
    let Some(from) = whole_number(z) else {
        return Err(NextFault::BadPoint);
    };
    if low.len() != high.len() {
        return Err(NextFault::BadPoint);
    }
    nearest(low.as_slice(), high.as_slice(), from)
}

// A word, and then a number or `none`, on a line.
fn line_of(alloc: Global, word: &str, address: Option<u128>) -> Result<String, AllocError>
    ensures { IfOk result (λ line. string_bytes line ≡ neighbour_line word.now address) }
{
    match address {
        Some(n) => format!(in alloc; "{word} {n}\n"),
        None => format!(in alloc; "{word} none\n"),
    }
}

fn fault_line(fault: NextFault) -> &'static str
    ensures { result.now ≡ next_fault_text fault }
{
    match fault {
        NextFault::BadPoint => "! BadPoint\n",
        NextFault::EmptyBox => "! EmptyBox\n",
        NextFault::TooLarge => "! TooLarge\n",
        NextFault::Memory => "! Memory\n",
    }
}

/// The two lines of an answer, or the line of its fault.
#[tactic(auto, unfolding(crate::specs::Next::answer_text))]
pub fn answer_text(
    alloc: Global,
    answer: &Result<Neighbours, NextFault>,
) -> Result<String, AllocError>
    ensures { IfOk result (λ text. string_bytes text ≡ answer_text answer.now) }
{
    match answer {
        Ok(found) => {
            let mut text = line_of(alloc, "next", found.next)?;
            text.push_str(line_of(alloc, "prev", found.prev)?.as_str())?;
            Ok(text)
        }
        Err(fault) => String::from_str(alloc, fault_line(*fault)),
    }
}
