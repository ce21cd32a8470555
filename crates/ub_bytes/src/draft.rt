ghost use Rattle.std.specs.Prelude.{◌≡◌, ◌+◌, ◌*◌, ◌<◌, ◌≤◌, ◌^◌, [], ◌∷◌, ◌++◌, length, drop};
ghost use Rattle.ub_bytes.specs.Bytes.{number_bytes, padded};
ghost use Rattle.ub_bytes.specs.Numbers.{first_numbers, word_in, measure_in};

use crate::page::Page;
use crate::spelling::{write_measure, write_words};
use byteorder::{BigEndian, ByteOrder};
use std::marker::Model;
use ub_table::MAX_ROWS;

/// A page that is written from its front: the bytes so far, and zeros after them. Its memory takes one page after the other.
#[derive(Drop)]
pub struct Draft {
    page: [u8; 4096],
    len: usize,
}

impl Model for Draft {
    ghost use Rattle.std.specs.Prelude.{ℕ, List};

    ghost Value = { List ℕ };

    ghost use Rattle.ub_bytes.specs.Draft.{written, IsBlankAfter};

    ghost view = { written };

    ghost invariant = { IsBlankAfter };
}

impl Draft {
    /// A page with nothing written. Takes no memory.
    pub fn new() -> Draft
        ensures { result ≡ [] }
    {
        Draft {
            page: [0; 4096],
            len: 0,
        }
    }

    /// Takes back all that is written.
    pub fn clear(&mut self)
        ensures { self.new ≡ [] }
    {
        self.page[..self.len].fill(0);
        self.len = 0;
    }

    /// The page, all bytes that are not written being zero.
    pub fn page(&self) -> &Page
        ensures { result.now ≡ padded self.now }
    {
        &self.page
    }

    /// Puts a byte behind those that are written.
    pub fn put_u8(&mut self, x: u8)
        requires { length self.old + 1 ≤ 4096 }
        ensures bytes { self.new ≡ self.old ++ number_bytes 1 x }
        ensures len { length self.new ≡ length self.old + 1 }
    {
        self.page[self.len] = x;
        self.len += 1;
    }

    /// Puts a number on two bytes behind those that are written.
    pub fn put_u16(&mut self, x: u16)
        requires { length self.old + 2 ≤ 4096 }
        ensures bytes { self.new ≡ self.old ++ number_bytes 2 x }
        ensures len { length self.new ≡ length self.old + 2 }
    {
        BigEndian::write_u16(&mut self.page[self.len..], x);
        self.len += 2;
    }

    /// Puts a number on four bytes behind those that are written.
    pub fn put_u32(&mut self, x: u32)
        requires { length self.old + 4 ≤ 4096 }
        ensures bytes { self.new ≡ self.old ++ number_bytes 4 x }
        ensures len { length self.new ≡ length self.old + 4 }
    {
        BigEndian::write_u32(&mut self.page[self.len..], x);
        self.len += 4;
    }

    /// Puts a number on eight bytes behind those that are written.
    pub fn put_u64(&mut self, x: u64)
        requires { length self.old + 8 ≤ 4096 }
        ensures bytes { self.new ≡ self.old ++ number_bytes 8 x }
        ensures len { length self.new ≡ length self.old + 8 }
    {
        BigEndian::write_u64(&mut self.page[self.len..], x);
        self.len += 8;
    }

    /// Puts a number on sixteen bytes behind those that are written.
    pub fn put_u128(&mut self, x: u128)
        requires { length self.old + 16 ≤ 4096 }
        ensures bytes { self.new ≡ self.old ++ number_bytes 16 x }
        ensures len { length self.new ≡ length self.old + 16 }
    {
        BigEndian::write_u128(&mut self.page[self.len..], x);
        self.len += 16;
    }

    /// Puts these bytes behind those that are written.
    pub fn put_bytes(&mut self, bytes: &[u8])
        requires { length self.old + length bytes.now ≤ 4096 }
        ensures bytes { self.new ≡ self.old ++ bytes.now }
        ensures len { length self.new ≡ length self.old + length bytes.now }
    {
        copy_to_front(&mut self.page[self.len..], bytes);
        self.len += bytes.len();
    }

    /// Puts a number of each of the first so many rows: their own, or a dimension.
    pub fn put_words(&mut self, column: &[u32; MAX_ROWS], count: usize)
        requires few { count ≤ MAX_ROWS }
        requires room { length self.old + 4 * count ≤ 4096 }
        ensures bytes { self.new ≡ self.old ++ first_numbers 4 (word_in column.now) count }
        ensures len { length self.new ≡ length self.old + 4 * count }
    {
        write_words(&mut self.page[self.len..], column, count);
        self.len += 4 * count;
    }

    /// Puts a measure of the first so many rows, in two's complement.
    pub fn put_measure(&mut self, column: &[i64; MAX_ROWS], count: usize)
        requires few { count ≤ MAX_ROWS }
        requires room { length self.old + 8 * count ≤ 4096 }
        ensures bytes { self.new ≡ self.old ++ first_numbers 8 (measure_in column.now) count }
        ensures len { length self.new ≡ length self.old + 8 * count }
    {
        write_measure(&mut self.page[self.len..], column, count);
        self.len += 8 * count;
    }
}

// Copies the bytes to the front of the target.
fn copy_to_front(target: &mut [u8], bytes: &[u8])
    requires { length bytes.now ≤ length target.old }
    ensures { target.new ≡ bytes.now ++ drop (length bytes.now) target.old }
{
    target[..bytes.len()].copy_from_slice(bytes);
}
