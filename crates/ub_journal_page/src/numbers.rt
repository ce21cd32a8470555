// Numbers on a page: four bytes each, the highest of them first.
ghost use Rattle.std.specs.Prelude.{◌≡◌, ◌↔◌, ◌<◌, ◌≤◌, ◌+◌, ◌*◌, ◌++◌, ◌∷◌, [], ℕ, List, IsTrue, length, take, drop};
ghost use Rattle.ub_journal_page.specs.Pages.{head_of, number_bytes, number_page};
ghost use Rattle.ub_journal_page.specs.inner.Numbers.{number_at};

use byteorder::{BigEndian, ByteOrder};
use ub_store::Page;

/// How many numbers stand on a page.
pub const MAX_NUMBERS: usize = 1024;

/// The version of the journals in which each page that changes stands whole.
pub const WHOLE: u32 = 1;

/// The version of those in which it stands without the zeros with which it ends.
pub const PACKED: u32 = 2;

// 'UBTJ', with which the head of each journal begins. No page of a table begins so.
const KIND: u32 = 0x5542_544A;

/// Spells the head of a journal: its version, how many pages the table is to have, and how many of them change besides the first.
pub fn spell_head(version: u32, count: u32, changes: u32, page: &mut Page)
    ensures { page.new ≡ number_page (head_of version count changes) }
{
    *page = [0; 4096];
    put(page, 0, KIND);
    put(page, 1, version);
    put(page, 2, count);
    put(page, 3, changes);
}

/// Spells what stands before the bytes of a change: the number of its page, and how many bytes there are.
pub fn spell_front(number: u32, held: u32, front: &mut [u8; 8])
    ensures { front.new ≡ number_bytes number ++ number_bytes held }
{
    write_u32(front, 0, number);
    write_u32(front, 4, held);
}

/// Puts a number behind those that stand on a page.
pub fn put(page: &mut Page, i: usize, x: u32)
    requires { i < MAX_NUMBERS }
    ensures { (numbers : List ℕ) → length numbers ≡ i → page.old ≡ number_page numbers
        → page.new ≡ number_page (numbers ++ x ∷ []) }
{
    write_u32(page, 4 * i, x);
}

// Writes a number on the four bytes from an offset on.
fn write_u32(target: &mut [u8], offset: usize, x: u32)
    requires { offset + 4 ≤ length target.old }
    ensures { target.new
        ≡ (take offset target.old ++ number_bytes x) ++ drop (offset + 4) target.old }
{
    BigEndian::write_u32(&mut target[offset..], x);
}

/// The number that stands at an index on a page.
pub fn number_in(page: &Page, i: usize) -> u32
    requires { i < MAX_NUMBERS }
    ensures { result ≡ number_at (4 * i) page.now }
{
    BigEndian::read_u32(&page[4 * i..])
}

/// The two numbers that stand before the bytes of a change.
pub fn numbers_before(front: &[u8; 8]) -> (u32, u32)
    ensures { result ≡ (number_at 0 front.now, number_at 4 front.now) }
{
    (BigEndian::read_u32(front), BigEndian::read_u32(&front[4..]))
}

/// Whether two pages are the same, byte for byte.
pub fn is_same(a: &Page, b: &Page) -> bool
    ensures { IsTrue result ↔ (a.now ≡ b.now) }
{
    *a == *b
}

/// Whether what stands before the bytes of a change is the same, byte for byte.
pub fn is_same_front(a: &[u8; 8], b: &[u8; 8]) -> bool
    ensures { IsTrue result ↔ (a.now ≡ b.now) }
{
    *a == *b
}
