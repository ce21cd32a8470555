// Columns of a region, written over the front of some bytes.
ghost use Rattle.std.specs.Prelude.{◌≡◌, ◌+◌, ◌*◌, ◌<◌, ◌≤◌, ◌++◌, length, take, drop};
ghost use Rattle.ub_bytes.specs.Bytes.{number_bytes};
ghost use Rattle.ub_bytes.specs.Numbers.{first_numbers, word_in, measure_in};

use byteorder::{BigEndian, ByteOrder};
use ub_table::MAX_ROWS;

/// Writes a number of each of the first so many rows.
pub fn write_words(target: &mut [u8], column: &[u32; MAX_ROWS], count: usize)
    requires few { count ≤ MAX_ROWS }
    requires room { 4 * count ≤ length target.old }
    ensures { target.new
        ≡ first_numbers 4 (word_in column.now) count ++ drop (4 * count) target.old }
{
    for i in 0..count {
        write_u32(target, 4 * i, column[i]);
    }
}

/// Writes a measure of the first so many rows, in two's complement.
pub fn write_measure(target: &mut [u8], column: &[i64; MAX_ROWS], count: usize)
    requires few { count ≤ MAX_ROWS }
    requires room { 8 * count ≤ length target.old }
    ensures { target.new
        ≡ first_numbers 8 (measure_in column.now) count ++ drop (8 * count) target.old }
{
    for i in 0..count {
        write_u64(target, 8 * i, column[i].cast_unsigned());
    }
}

// Writes a number on the four bytes from an offset on.
fn write_u32(target: &mut [u8], offset: usize, x: u32)
    requires { offset + 4 ≤ length target.old }
    ensures { target.new
        ≡ (take offset target.old ++ number_bytes 4 x) ++ drop (offset + 4) target.old }
{
    BigEndian::write_u32(&mut target[offset..], x);
}

// Writes a number on the eight bytes from an offset on.
fn write_u64(target: &mut [u8], offset: usize, x: u64)
    requires { offset + 8 ≤ length target.old }
    ensures { target.new
        ≡ (take offset target.old ++ number_bytes 8 x) ++ drop (offset + 8) target.old }
{
    BigEndian::write_u64(&mut target[offset..], x);
}
