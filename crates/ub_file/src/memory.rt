ghost use Rattle.std.specs.Prelude.{◌≡◌, ◌<◌, ◌≤◌, ◌-◌, ◌↔◌, IsTrue, length};
ghost use Rattle.ub_store.specs.Facts.{raised};
ghost use Rattle.ub_file.specs.Memory.{mem_view};

use crate::medium::{Medium, PAGE_BYTES};
use std::marker::Model;
use ub_store::{MAX_PAGES, Page, StoreFault};

/// What a failed growth leaves of a page.
const TORN_BYTES: u16 = 2048;

/// A medium in memory, for tests. It is honest, and fails at one call: of its reads, writes and the calls that grow, empty or
/// sync it, counted from 1, the k-th answers Device and does nothing, but that a failed growth leaves half a page.
#[derive(Drop)]
pub struct MemMedium {
    pages: Vec<Page>,
    rest: u16,
    due: u64,
    reads: u64,
    writes: u64,
}

impl Model for MemMedium {
    ghost use Rattle.std.specs.Prelude.{◌<◌, ◌≤◌, length};
    ghost use Rattle.ub_file.specs.Memory.{MemView, mem_view, mem_code};

    ghost Value = { MemView };

    ghost coded = { mem_code };

    ghost view = { λ m. mem_view m.pages.items m.rest m.due m.reads m.writes };

    ghost invariant = { λ m. (length m.pages.items ≤ 4294967295) × (m.rest < 4096) };
}

impl MemMedium {
    /// A medium of these pages and so many bytes after them, that fails at its k-th call, or never where k is 0.
    pub fn new(pages: Vec<Page>, rest: u16, k: u64) -> MemMedium
        requires few { length pages.items ≤ MAX_PAGES }
        requires part { rest < 4096 }
        ensures { result ≡ mem_view pages.items rest k 0 0 }
    {
        MemMedium {
            pages,
            rest,
            due: k,
            reads: 0,
            writes: 0,
        }
    }

    // Counts a call, and tells whether it is the one to fail.
    fn is_due(&mut self) -> bool
        ensures due { IsTrue result ↔ (self.old.due ≡ 1) }
        ensures counted { self.new ≡ record self.old { due = self.old.due - 1 } }
    {
        let is_due = self.due == 1;
        self.due = self.due.saturating_sub(1);
        is_due
    }

    // Counts a failed call that isn't a read.
    fn failed_write(&mut self) -> StoreFault
        ensures counted { self.new ≡ record self.old { writes = raised self.old.writes 1 } }
        ensures fault { result ≡ StoreFault.Device }
    {
        self.writes = self.writes.saturating_add(1);
        StoreFault::Device
    }
}

impl Medium for MemMedium {
    ghost use Rattle.std.specs.Prelude.{true};
    ghost use Rattle.ub_file.specs.Memory.{mem_facts};

    ghost facts = { mem_facts };

    ghost rest = { λ m. m.rest };

    ghost needs_memory = { true };

    fn length(&self) -> u64 {
        self.pages.len() as u64 * PAGE_BYTES + u64::from(self.rest)
    }

    fn read_into(&mut self, n: u32, page: &mut Page) -> Result<(), StoreFault> {
        if self.is_due() {
            self.reads = self.reads.saturating_add(1);
            return Err(StoreFault::Device);
        }
        *page = self.pages[n as usize];
        Ok(())
    }

    fn write_page(&mut self, n: u32, page: &Page) -> Result<(), StoreFault> {
        if self.is_due() {
            return Err(self.failed_write());
        }
        self.pages[n as usize] = *page;
        Ok(())
    }

    fn grow(&mut self) -> Result<(), StoreFault> {
        if self.is_due() {
            self.rest = TORN_BYTES;
            return Err(self.failed_write());
        }
        match self.pages.push([0; 4096]) {
            Ok(()) => {
                self.rest = 0;
                Ok(())
            }
            Err(_) => Err(StoreFault::Memory),
        }
    }

    fn empty(&mut self) -> Result<(), StoreFault> {
        if self.is_due() {
            return Err(self.failed_write());
        }
        self.pages.clear();
        self.rest = 0;
        Ok(())
    }

    fn sync(&mut self) -> Result<(), StoreFault> {
        if self.is_due() {
            return Err(self.failed_write());
        }
        // What was written to memory lasts as long as memory does.
        Ok(())
    }
}
