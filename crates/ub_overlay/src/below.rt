ghost use Rattle.std.specs.Prelude.{◌≡◌, ◌<◌, ◌≤◌, OnOk, IsErrOf, IsTrue};
ghost use Rattle.ub_store.specs.Facts.{page_count, IsPage, Reads};

use std::marker::Model;
use ub_store::{Page, PageStore, StoreFault};

/// A store that is only read. No call of it that changes a page can be made from here.
#[derive(Drop)]
pub struct Below<S> {
    store: S,
}

impl<S> Model for Below<S> {
    ghost Value = { S };

    ghost view = { λ b. b.store };
}

impl<S: PageStore> Below<S> {
    /// Reads this store.
    pub fn new(store: S) -> Below<S>
        ensures { result ≡ store }
    {
        Below { store }
    }

    /// How many pages there are.
    pub fn pages(&self) -> u32
        ensures { result ≡ page_count (S.facts self.now) }
    {
        self.store.pages()
    }

    /// Reads the page of this number, as the store does, in one call.
    pub fn read_into(&mut self, n: u32, page: &mut Page) -> Result<(), StoreFault>
        ensures page { OnOk result (IsPage (S.facts self.old) n page.new) }
        ensures there { OnOk result (n < page_count (S.facts self.old)) }
        ensures missing { IsErrOf result StoreFault.NoPage → page_count (S.facts self.old) ≤ n }
        ensures memory { IsErrOf result StoreFault.Memory → IsTrue S.reads_need_memory }
        ensures no_size { ¬ (IsErrOf result StoreFault.BadSize) }
        ensures effect { Reads (S.facts self.old) (S.facts self.new) result }
    {
        self.store.read_into(n, page)
    }

    /// Tells the store that so many pages from this number on are asked for next.
    pub fn announce(&mut self, n: u32, count: u32)
        ensures { S.facts self.new ≡ S.facts self.old }
    {
        self.store.announce(n, count);
    }

    /// The store, as it is.
    pub fn into_store(self) -> S
        ensures { result ≡ self }
    {
        self.store
    }
}
