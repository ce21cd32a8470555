ghost use Rattle.std.specs.Prelude.{◌≡◌, ◌+◌, ◌-◌, ◌<◌, ◌≤◌, ◌^◌, ◌↔◌, IsTrue, drop, length, replicate};
ghost use Rattle.ub_bytes.specs.Bytes.{number_at};

use byteorder::{BigEndian, ByteOrder};

/// One page of a table's file: 4096 bytes.
pub type Page = [u8; 4096];

/// The byte at an offset.
pub fn u8_at(page: &Page, offset: usize) -> u8
    requires { offset + 1 ≤ 4096 }
    ensures { result ≡ number_at 1 offset page.now }
{
    page[offset]
}

/// The number in the two bytes from an offset on.
pub fn u16_at(page: &Page, offset: usize) -> u16
    requires { offset + 2 ≤ 4096 }
    ensures { result ≡ number_at 2 offset page.now }
{
    BigEndian::read_u16(&page[offset..])
}

/// The number in the four bytes from an offset on.
pub fn u32_at(page: &Page, offset: usize) -> u32
    requires { offset + 4 ≤ 4096 }
    ensures { result ≡ number_at 4 offset page.now }
{
    BigEndian::read_u32(&page[offset..])
}

/// The number in the eight bytes from an offset on.
pub fn u64_at(page: &Page, offset: usize) -> u64
    requires { offset + 8 ≤ 4096 }
    ensures { result ≡ number_at 8 offset page.now }
{
    BigEndian::read_u64(&page[offset..])
}

/// The number in the sixteen bytes from an offset on.
pub fn u128_at(page: &Page, offset: usize) -> u128
    requires { offset + 16 ≤ 4096 }
    ensures { result ≡ number_at 16 offset page.now }
{
    BigEndian::read_u128(&page[offset..])
}

/// Whether two pages are the same, byte for byte.
pub fn is_same(a: &Page, b: &Page) -> bool
    ensures { IsTrue result ↔ (a.now ≡ b.now) }
{
    *a == *b
}

/// Whether all bytes of a page from an offset on are zero.
pub fn is_blank_from(page: &Page, offset: usize) -> bool
    requires { offset ≤ 4096 }
    ensures { IsTrue result ↔ (drop offset page.now ≡ replicate (4096 - offset) 0) }
{
    are_zero(&page[offset..])
}

// Whether all these bytes are zero. None of them ends the loop, so that many can be looked at at once.
fn are_zero(bytes: &[u8]) -> bool
    ensures { IsTrue result ↔ (bytes.now ≡ replicate (length bytes.now) 0) }
{
    let mut joined = 0;
    for i in 0..bytes.len() {
        joined |= bytes[i];
    }
    joined == 0
}

/// Whether two texts are the same, byte for byte.
pub fn are_equal(a: &[u8], b: &[u8]) -> bool
    ensures { IsTrue result ↔ (a.now ≡ b.now) }
{
    a == b
}
