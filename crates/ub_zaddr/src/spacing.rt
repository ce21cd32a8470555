// The bits of words in turn: each word's bits are put at every second, third or fourth place, without a loop (the Morton
// code by binary magic numbers and by table lookup: S. E. Anderson, Bit Twiddling Hacks).
ghost use Rattle.std.specs.Prelude.{◌≡◌, ◌+◌, ◌*◌, ◌/◌, ◌%◌, ◌^◌, ◌<◌, slice_index};
ghost use Rattle.ub_zaddr.specs.Moved.{spaced};
ghost use Rattle.ub_zaddr.specs.Steps.{opened};

use crate::masks::{EIGHTS_BY_TWO, FOURS_BY_TWO, PAIRS_BY_TWO, SINGLES_BY_TWO, SIXTEENS_BY_TWO};
use crate::tables::{BY_FOUR, BY_THREE};

/// The bits of two words in turn, that of the first higher.
#[tactic(auto, using(crate::proofs::MovedFacts::room_by_two))]
pub fn two_in_turn(x: u32, y: u32) -> u64
    ensures { result ≡ 2 * spaced 2 32 x + spaced 2 32 y }
{
    2 * spaced_by_two(x) + spaced_by_two(y)
}

/// The bits of three words in turn, that of the first highest, by their halves.
pub fn three_in_turn(x: u32, y: u32, z: u32) -> u128
    ensures { result ≡ 4 * spaced 3 32 x + 2 * spaced 3 32 y + spaced 3 32 z }
{
    let upper = three_halves(high(x), high(y), high(z));
    let lower = three_halves(low(x), low(y), low(z));
    u128::from(upper) << 48 | u128::from(lower)
}

/// The bits of four words in turn, that of the first highest, by their halves.
pub fn four_in_turn(x: u32, y: u32, z: u32, w: u32) -> u128
    ensures { result ≡ 8 * spaced 4 32 x + 4 * spaced 4 32 y + 2 * spaced 4 32 z + spaced 4 32 w }
{
    let upper = four_halves(high(x), high(y), high(z), high(w));
    let lower = four_halves(low(x), low(y), low(z), low(w));
    u128::from(upper) << 64 | u128::from(lower)
}

// The bits of three half words in turn.
#[tactic(auto, using(crate::proofs::MovedFacts::room_by_three))]
fn three_halves(x: u16, y: u16, z: u16) -> u64
    ensures value { result ≡ 4 * spaced 3 16 x + 2 * spaced 3 16 y + spaced 3 16 z }
    ensures small { result < 2 ^ 48 }
{
    4 * spaced_by_three(x) + 2 * spaced_by_three(y) + spaced_by_three(z)
}

// The bits of four half words in turn.
#[tactic(auto, using(crate::proofs::MovedFacts::room_by_four))]
fn four_halves(x: u16, y: u16, z: u16, w: u16) -> u64
    ensures { result ≡ 8 * spaced 4 16 x + 4 * spaced 4 16 y + 2 * spaced 4 16 z + spaced 4 16 w }
{
    8 * spaced_by_four(x) + 4 * spaced_by_four(y) + 2 * spaced_by_four(z) + spaced_by_four(w)
}

// The upper half of a word.
fn high(x: u32) -> u16
    ensures { result ≡ x / 2 ^ 16 }
{
    (x >> 16) as u16
}

// The lower half of a word.
fn low(x: u32) -> u16
    ensures { result ≡ x % 2 ^ 16 }
{
    (x & 0xFFFF) as u16
}

// The bits of a word at every second place: the halves of ever smaller groups are moved apart.
fn spaced_by_two(x: u32) -> u64
    ensures { result ≡ spaced 2 32 x }
{
    let x = open_by(u64::from(x), 16, SIXTEENS_BY_TWO);
    let x = open_by(x, 8, EIGHTS_BY_TWO);
    let x = open_by(x, 4, FOURS_BY_TWO);
    let x = open_by(x, 2, PAIRS_BY_TWO);
    open_by(x, 1, SINGLES_BY_TWO)
}

// The bits of a half word at every third place, by a table of bytes.
fn spaced_by_three(x: u16) -> u64
    ensures { result ≡ spaced 3 16 x }
{
    let high = entry(&BY_THREE, (x >> 8) as u8);
    let low = entry(&BY_THREE, (x & 0xFF) as u8);
    high << 24 | low
}

// The bits of a half word at every fourth place, by a table of bytes.
fn spaced_by_four(x: u16) -> u64
    ensures { result ≡ spaced 4 16 x }
{
    let high = entry(&BY_FOUR, (x >> 8) as u8);
    let low = entry(&BY_FOUR, (x & 0xFF) as u8);
    high << 32 | low
}

// The upper half of each group of bits moved up.
#[tactic(auto, unfolding(crate::specs::Steps::opened))]
fn open_by(x: u64, by: u32, mask: u64) -> u64
    requires { by < 64 }
    ensures { result ≡ opened by mask x }
{
    (x | x << by) & mask
}

// The entry of a table of bytes.
fn entry(table: &[u32; 256], x: u8) -> u64
    ensures { result ≡ slice_index table.now x }
{
    u64::from(table[usize::from(x)])
}
