// Masks of groups of one, two, four, eight and sixteen bits, at two, three or four times their distance.

/// Every second bit of 64.
pub const SINGLES_BY_TWO: u64 = 0x5555_5555_5555_5555;

/// Two bits of every four.
pub const PAIRS_BY_TWO: u64 = 0x3333_3333_3333_3333;

/// Four bits of every eight.
pub const FOURS_BY_TWO: u64 = 0x0F0F_0F0F_0F0F_0F0F;

/// Eight bits of every sixteen.
pub const EIGHTS_BY_TWO: u64 = 0x00FF_00FF_00FF_00FF;

/// Sixteen bits of every thirty-two.
pub const SIXTEENS_BY_TWO: u64 = 0x0000_FFFF_0000_FFFF;

/// Every third bit of 48.
pub const SINGLES_BY_THREE: u64 = 0x2492_4924_9249;

/// Two bits of every six, of 48.
pub const PAIRS_BY_THREE: u64 = 0x0C30_C30C_30C3;

/// Four bits of every twelve, of 48.
pub const FOURS_BY_THREE: u64 = 0x00F0_0F00_F00F;

/// Eight bits of every twenty-four, of 48.
pub const EIGHTS_BY_THREE: u64 = 0xFF00_00FF;

/// Every fourth bit of 64.
pub const SINGLES_BY_FOUR: u64 = 0x1111_1111_1111_1111;

/// Two bits of every eight.
pub const PAIRS_BY_FOUR: u64 = 0x0303_0303_0303_0303;

/// Four bits of every sixteen.
pub const FOURS_BY_FOUR: u64 = 0x000F_000F_000F_000F;

/// Eight bits of every thirty-two.
pub const EIGHTS_BY_FOUR: u64 = 0x00FF_0000_00FF;

/// The low sixteen bits.
pub const HALF_WORD: u64 = 0xFFFF;

/// The low thirty-two bits.
pub const WORD: u64 = 0xFFFF_FFFF;
