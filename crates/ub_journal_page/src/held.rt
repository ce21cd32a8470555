// How many bytes of a page come before the zeros with which it ends.
ghost use Rattle.std.specs.Prelude.{◌≡◌, ◌↔◌, ◌≤◌, ◌+◌, ◌-◌, IsTrue, length, drop, replicate, take};
ghost use Rattle.ub_journal_page.specs.Pages.{held_of};

use ub_store::Page;

// So many bytes are looked at together, from the end.
const BLOCK: usize = 64;

// So many blocks are a page.
const BLOCKS: usize = 64;

/// How many bytes of a page come before the zeros with which it ends.
pub fn held_in(page: &Page) -> usize
    ensures held { result ≡ held_of page.now }
    ensures few { result ≤ 4096 }
{
    for i in 0..BLOCKS {
        let end = 4096 - BLOCK * i;
        if !are_zero(&page[end - BLOCK..end]) {
            return held_to(page, end);
        }
    }
    0
}

// The same, of a page with zeros from an end on, and another byte on the block before it.
fn held_to(page: &Page, end: usize) -> usize
    requires within { end ≤ 4096 }
    requires blank { drop end page.now ≡ replicate (4096 - end) 0 }
    ensures held { result ≡ held_of page.now }
    ensures few { result ≤ 4096 }
{
    for i in 0..end {
        let at = end - i;
        if page[at - 1] != 0 {
            return at;
        }
    }
    0
}

/// Whether all of some bytes are zero. None of them ends the loop, so that many can be looked at at once.
pub fn are_zero(bytes: &[u8]) -> bool
    ensures { IsTrue result ↔ (bytes.now ≡ replicate (length bytes.now) 0) }
{
    let mut joined = 0;
    for i in 0..bytes.len() {
        joined |= bytes[i];
    }
    joined == 0
}
