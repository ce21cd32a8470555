// Bits that stand at every second, third or fourth place, put together without a loop: ever larger groups are moved down
// to their neighbours (binary magic numbers backwards: S. E. Anderson, Bit Twiddling Hacks).
ghost use Rattle.std.specs.Prelude.{◌≡◌, ◌%◌, ◌^◌, ◌<◌, ◌≤◌};
ghost use Rattle.ub_zaddr.specs.Moved.{gathered};
ghost use Rattle.ub_zaddr.specs.Steps.{closed};

use crate::masks::{
    EIGHTS_BY_FOUR, EIGHTS_BY_THREE, EIGHTS_BY_TWO, FOURS_BY_FOUR, FOURS_BY_THREE, FOURS_BY_TWO,
    HALF_WORD, PAIRS_BY_FOUR, PAIRS_BY_THREE, PAIRS_BY_TWO, SINGLES_BY_FOUR, SINGLES_BY_THREE,
    SINGLES_BY_TWO, SIXTEENS_BY_TWO, WORD,
};

/// Every second bit of a number of 64 bits, from the lowest on.
pub fn gathered_by_two(x: u64) -> u32
    ensures { result ≡ gathered 2 32 x }
{
    let x = x & SINGLES_BY_TWO;
    let x = close_by(x, 1, PAIRS_BY_TWO);
    let x = close_by(x, 2, FOURS_BY_TWO);
    let x = close_by(x, 4, EIGHTS_BY_TWO);
    let x = close_by(x, 8, SIXTEENS_BY_TWO);
    close_by(x, 16, WORD) as u32
}

/// The lowest sixteen of every third bit.
pub fn gathered_by_three(x: u64) -> u32
    ensures value { result ≡ gathered 3 16 x }
    ensures half { result < 2 ^ 16 }
{
    let x = x & SINGLES_BY_THREE;
    let x = close_by(x, 2, PAIRS_BY_THREE);
    let x = close_by(x, 4, FOURS_BY_THREE);
    let x = close_by(x, 8, EIGHTS_BY_THREE);
    close_by(x, 16, HALF_WORD) as u32
}

/// The lowest sixteen of every fourth bit.
pub fn gathered_by_four(x: u64) -> u32
    ensures value { result ≡ gathered 4 16 x }
    ensures half { result < 2 ^ 16 }
{
    let x = x & SINGLES_BY_FOUR;
    let x = close_by(x, 3, PAIRS_BY_FOUR);
    let x = close_by(x, 6, FOURS_BY_FOUR);
    let x = close_by(x, 12, EIGHTS_BY_FOUR);
    close_by(x, 24, HALF_WORD) as u32
}

// Each second group of bits moved down to the one below.
#[tactic(auto, unfolding(crate::specs::Steps::closed))]
fn close_by(x: u64, by: u32, mask: u64) -> u64
    requires { by < 64 }
    ensures value { result ≡ closed by mask x }
    ensures within { result ≤ mask }
{
    (x | x >> by) & mask
}

/// Every third bit of a number of 96 bits, from the lowest on.
pub fn every_third(z: u128) -> u32
    ensures { result ≡ gathered 3 32 z }
{
    gathered_by_three(low_part(z >> 48)) << 16 | gathered_by_three(low_part(z))
}

/// Every fourth bit of a number of 128 bits, from the lowest on.
pub fn every_fourth(z: u128) -> u32
    ensures { result ≡ gathered 4 32 z }
{
    gathered_by_four(low_part(z >> 64)) << 16 | gathered_by_four(low_part(z))
}

// The low 64 bits of a number.
fn low_part(z: u128) -> u64
    ensures { result ≡ z % 2 ^ 64 }
{
    (z & u128::from(u64::MAX)) as u64
}
