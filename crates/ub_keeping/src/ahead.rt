// Pages of a table that are read before they are asked for, several of them by one call of the place.
ghost use Rattle.std.specs.Prelude.{◌≡◌, ◌<◌, ◌≤◌, ◌+◌, ◌*◌, ℕ, IfOk, IsTrue, length};
ghost use Rattle.ub_journal.specs.Place.{AreIn, IsHonest, Shows, counted, page_in};

use std::alloc::Global;
use ub_journal::{Failed, Place};
use ub_store::{Page, RUN_PAGES};

// The bytes of a page.
const PAGE_BYTES: usize = 4096;

// The bytes of as many pages as are read at once.
const RUN_BYTES: usize = RUN_PAGES as usize * PAGE_BYTES;

/// Pages that were read ahead, and which are asked for next.
#[derive(Drop)]
pub(crate) struct Ahead {
    /// The bytes of those that were read, and room for more.
    pub bytes: Vec<u8>,
    /// The number of the first of them.
    pub first: u32,
    /// How many there are.
    pub held: u32,
    /// The number of the first page that is asked for next, and wasn't read yet.
    pub wanted: u32,
    /// The number behind that of the last one.
    pub until: u32,
}

impl Ahead {
    /// None was read, and none is asked for. Takes no memory.
    pub fn none(alloc: Global) -> Ahead
        ensures { result.held ≡ 0 }
    {
        Ahead {
            bytes: Vec::new(alloc),
            first: 0,
            held: 0,
            wanted: 0,
            until: 0,
        }
    }

    /// So many pages from this number on are asked for next.
    pub fn want(&mut self, n: u32, count: u32)
        ensures { self.new
            ≡ record self.old { wanted = self.new.wanted; until = self.new.until } }
    {
        self.wanted = n;
        self.until = n.saturating_add(count);
    }

    /// How many pages from this number on are asked for next, as far as they are read at once. None where it isn't the first of
    /// them: what was announced before that is asked for no more.
    pub fn many_from(&self, n: u32) -> u32
        ensures { result ≤ RUN_PAGES }
    {
        if n != self.wanted || self.until <= n {
            return 0;
        }
        (self.until - n).min(RUN_PAGES)
    }

    /// Has room for as many pages as are read at once, unless memory is refused: then this is false. Those that were read are gone.
    pub fn make_room(&mut self) -> bool
        ensures room { IsTrue result → RUN_PAGES * 4096 ≤ length self.new.bytes.items }
        ensures none { self.new.held ≡ 0 }
    {
        self.held = 0;
        self.bytes.len() >= RUN_BYTES || self.bytes.resize(RUN_BYTES, 0).is_ok()
    }

    /// Whether the page of this number was read ahead: it then stands in the one that is lent.
    pub fn copy(&self, n: u32, page: &mut Page) -> bool
        requires { self.now.held * 4096 ≤ length self.now.bytes.items }
        ensures held { self.now.first ≤ n → n < self.now.first + self.now.held → IsTrue result }
        ensures copied { IsTrue result → (i : ℕ) × (i < self.now.held) × (n ≡ self.now.first + i)
            × (page.new ≡ page_in i self.now.bytes.items) }
    {
        if n < self.first || n - self.first >= self.held {
            return false;
        }
        copy_page(self.bytes.as_slice(), (n - self.first) as usize, page);
        true
    }
}

// Puts the page at this place of some bytes into the one that is lent.
fn copy_page(bytes: &[u8], at: usize, page: &mut Page)
    requires { at * 4096 + 4096 ≤ length bytes.now }
    ensures { page.new ≡ page_in at bytes.now }
{
    let start = at * PAGE_BYTES;
    page.copy_from_slice(&bytes[start..start + PAGE_BYTES]);
}

/// Reads pages from this number on, so many at most, into the bytes that are lent, by one call of the place. It tells how many.
pub(crate) fn fill<P: Place>(
    place: &mut P,
    bytes: &mut [u8],
    n: u32,
    many: u32,
) -> Result<u32, Failed>
    requires some { 1 ≤ many }
    requires room { many * 4096 ≤ length bytes.old }
    requires there { IsHonest (P.facts place.old)
        → n + many ≤ length (P.facts place.old).seen.table }
    ensures read { IfOk result (λ count. (1 ≤ count) × (count * 4096 ≤ length bytes.new)
        × (IsHonest (P.facts place.old)
        → AreIn bytes.new n count (P.facts place.old).seen.table)) }
    ensures honest { (P.facts place.new).honest ≡ (P.facts place.old).honest }
    ensures seen { Shows (λ i. i) (P.facts place.old) (P.facts place.new) }
    ensures counts { (P.facts place.new).failures ≡ counted result (P.facts place.old).failures }
{
    let end = many as usize * PAGE_BYTES;
    place.read_run(n, &mut bytes[..end])
}
