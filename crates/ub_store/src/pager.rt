ghost use Rattle.std.specs.Prelude.{◌≡◌, ◌<◌, ◌≤◌, ◌⊎◌, ◌↔◌, [], false, Ok, Err, None, IfOk, IfErr, OnOk, OnErr, IsErrOf, option_map};
ghost use Rattle.ub_store.specs.Facts.{page_count, IsPage, Reads, WritesAt, Extends, Syncs};
ghost use Rattle.ub_store.specs.Cache.{page_at, NoneMore, NoneMoreBut, SameBut};
ghost use Rattle.ub_store.specs.View.{pager_view, untouched, emptied, Holds, IsCached, IsFull, Notes, SameTrace};

use crate::Page;
use crate::cache::Cache;
use crate::fault::{Rejected, StoreFault};
use crate::store::{MAX_PAGES, PageStore};
use std::alloc::Global;
use std::marker::Model;
use std::num::NonZeroUsize;

// Pages that were announced and follow one another: from the first one on, before that of the other number.
#[derive(Clone, Copy)]
struct Run {
    first: u32,
    until: u32,
}

impl Run {
    // This run and so many pages from a number on, where they stand behind it; else these alone.
    fn with(self, n: u32, many: u32) -> Run {
        let first = if n == self.until { self.first } else { n };
        Run {
            first,
            until: n.saturating_add(many),
        }
    }

    // Whether this page is one of the run, behind so many others of it at least.
    fn has_behind(self, n: u32, many: usize) -> bool {
        self.first <= n && n < self.until && (n - self.first) as usize >= many
    }
}

/// A store behind a cache of the pages last used, with a trace of the region pages that were asked for.
///
/// A page is brought into the cache, and then lent from there.
#[derive(Drop)]
pub struct Pager<S: PageStore> {
    store: S,
    cache: Cache,
    // How many pages the cache keeps.
    most: usize,
    // What was announced last.
    run: Run,
    trace: Vec<u32>,
    fetches: u64,
}

impl<S: PageStore> Model for Pager<S> {
    ghost use Rattle.ub_store.specs.Cache.{IsCacheOf};
    ghost use Rattle.std.specs.Prelude.{vec_capacity};
    ghost use Rattle.ub_store.specs.View.{PagerView, pager_view, trace_of, holding};

    ghost Value = { PagerView };

    ghost view = { λ p. holding (pager_view (S.facts p.store) (trace_of p.trace.items (vec_capacity p.trace) p.fetches)) p.cache };

    ghost invariant = { λ p. IsCacheOf (S.facts p.store) p.cache };
}

impl<S: PageStore> Pager<S> {
    /// A pager over this store with an empty trace, whose cache holds so many pages, and none yet. Memory comes where memory
    /// was refused; the store is then handed back.
    pub fn new(
        alloc: Global,
        store: S,
        cache: NonZeroUsize,
    ) -> Result<Pager<S>, Rejected<S, StoreFault>>
        ensures made { IfOk result (λ pager. pager ≡ pager_view (S.facts store) untouched) }
        ensures refused { IfErr result (λ refused.
            (refused.store ≡ store) × (refused.fault ≡ StoreFault.Memory)) }
    {
        let most = cache.get();
        match Cache::new(alloc, cache) {
            Ok(cache) => Ok(Pager {
                store,
                cache,
                most,
                run: Run { first: 0, until: 0 },
                trace: Vec::new(alloc),
                fetches: 0,
            }),
            Err(_) => Err(Rejected {
                store,
                fault: StoreFault::Memory,
            }),
        }
    }

    /// Empties the trace. The number of fetches stays. What was announced is no more.
    pub fn begin(&mut self)
        ensures { self.new ≡ record self.old { trace = emptied self.old.trace } }
    {
        self.trace.clear();
        self.run = Run { first: 0, until: 0 };
    }

    /// The numbers of the region pages asked for since the trace began, in the order in which they were asked for.
    pub fn trace(&self) -> &[u32]
        ensures { result.now ≡ self.now.trace.pages }
    {
        self.trace.as_slice()
    }

    /// Brings the page of this number into the cache, noted in the trace first, whether it is cached or not. The faults are
    /// those of `bring`. Memory comes also where it was refused for the note; then the trace has no room for one page more, and
    /// nothing has changed.
    pub fn bring_region(&mut self, n: u32) -> Result<(), StoreFault>
        ensures noted { ((result ≡ Err StoreFault.Memory) × (self.new ≡ self.old) × IsFull self.old.trace)
            ⊎ Notes n self.old.trace self.new.trace }
        ensures cached { OnOk result (IsCached self.new n) }
        ensures hit { IsCached self.old n → OnErr result (self.new ≡ self.old) }
        ensures there { OnOk result (n < page_count self.old.store) }
        ensures missing { IsErrOf result StoreFault.NoPage → page_count self.old.store ≤ n }
        ensures no_size { ¬ (IsErrOf result StoreFault.BadSize) }
        ensures effect { Reads self.old.store self.new.store result }
        ensures others { NoneMoreBut n self.old.cached self.new.cached }
        ensures missed { OnErr result (NoneMore self.old.cached self.new.cached) }
    {
        if self.trace.reserve(1).is_err() {
            return Err(StoreFault::Memory);
        }
        self.trace.push_reserved(n);
        self.fetches = self.fetches.saturating_add(1);
        self.bring(n)?;
        Ok(())
    }

    /// Tells the store that so many pages from this number on are asked for next, up to the first that is held. Where as many that follow
    /// one another were announced as the cache keeps, the others pass: each is held until the next one is brought, and no page that is
    /// kept is let go for it.
    pub fn announce(&mut self, n: u32, count: u32)
        ensures { self.new ≡ self.old }
    {
        let many = self.unheld(n, count);
        if many > 1 {
            self.store.announce(n, many);
        }
        if many > 0 {
            self.run = self.run.with(n, many);
        }
    }

    // How many of these pages stand before the first one that the cache holds.
    fn unheld(&self, n: u32, count: u32) -> u32 {
        for behind in 0..count {
            if self.cache.get(n.saturating_add(behind)).is_some() {
                return behind;
            }
        }
        count
    }

    /// Brings the page of this number into the cache, and says whether it was read from the store. One that is cached is not read
    /// again. NoPage comes where there is none, Device where the store failed in this call, Memory where memory was refused, for
    /// the cache too.
    pub fn bring(&mut self, n: u32) -> Result<bool, StoreFault>
        ensures trace { SameTrace self.old self.new }
        ensures cached { OnOk result (IsCached self.new n) }
        ensures hit { IsCached self.old n ↔ (result ≡ Ok false) }
        ensures kept { IsCached self.old n
            → page_at self.new.cached n ≡ page_at self.old.cached n }
        ensures there { OnOk result (n < page_count self.old.store) }
        ensures missing { IsErrOf result StoreFault.NoPage → page_count self.old.store ≤ n }
        ensures no_size { ¬ (IsErrOf result StoreFault.BadSize) }
        ensures effect { Reads self.old.store self.new.store result }
        ensures others { NoneMoreBut n self.old.cached self.new.cached }
        ensures missed { OnErr result (NoneMore self.old.cached self.new.cached) }
    {
        if self.cache.touch(n) {
            return Ok(false);
        }
        let Ok(mut page) = self.cache.take_spare() else {
            return Err(StoreFault::Memory);
        };
        if let Err(fault) = self.store.read_into(n, &mut page) {
            self.cache.keep_spare(page);
            return Err(fault);
        }
        if self.run.has_behind(n, self.most) {
            self.cache.pass(n, page);
            return Ok(true);
        }
        match self.cache.hold(n, page) {
            Ok(()) => Ok(true),
            Err(_) => Err(StoreFault::Memory),
        }
    }

    /// The page of this number, which the cache holds.
    pub fn cached(&self, n: u32) -> &Page
        requires { IsCached self.now n }
        ensures held { Holds self.now n result.now }
        ensures page { IsPage self.now.store n result.now }
        ensures there { n < page_count self.now.store }
    {
        self.cache.get(n).unwrap()
    }

    /// Forgets the page of this number, if it is held: it is read again where it is asked for next.
    pub fn forget(&mut self, number: u32)
        ensures same { self.new ≡ record self.old { cached = self.new.cached } }
        ensures gone { page_at self.new.cached number ≡ None }
        ensures others { SameBut number self.old.cached self.new.cached }
    {
        self.cache.forget(number);
    }

    /// Puts a page in the place of that of this number, in the store and in the cache. NoPage comes where there is none, Device
    /// where the store failed in this call. After a fault that page may hold any bytes, and the cache has forgotten it.
    pub fn put(&mut self, n: u32, page: &Page) -> Result<(), StoreFault>
        ensures trace { SameTrace self.old self.new }
        ensures there { OnOk result (n < page_count self.old.store) }
        ensures missing { IsErrOf result StoreFault.NoPage → page_count self.old.store ≤ n }
        ensures faults { IfErr result (λ fault.
            (fault ≡ StoreFault.Device) ⊎ (fault ≡ StoreFault.NoPage)) }
        ensures effect { WritesAt n page.now self.old.store self.new.store result }
        ensures renewed { OnOk result (page_at self.new.cached n
            ≡ option_map (λ _. page.now) (page_at self.old.cached n)) }
        ensures forgotten { OnErr result (page_at self.new.cached n ≡ None) }
        ensures others { SameBut n self.old.cached self.new.cached }
    {
        match self.store.write_page(n, page) {
            Ok(()) => {
                self.cache.renew(n, page);
                Ok(())
            }
            Err(fault) => {
                self.cache.forget(n);
                Err(fault)
            }
        }
    }

    /// Adds a page of zeros and gives its number, which is how many pages there were. BadSize comes where there are 4294967295
    /// pages, Device where the store failed in this call, Memory where memory was refused. After a fault there is one page
    /// more or none.
    pub fn extend(&mut self) -> Result<u32, StoreFault>
        ensures trace { SameTrace self.old self.new }
        ensures cached { self.new.cached ≡ self.old.cached }
        ensures number { IfOk result (λ n. n ≡ page_count self.old.store) }
        ensures room { OnOk result (page_count self.old.store < MAX_PAGES) }
        ensures full { IsErrOf result StoreFault.BadSize → page_count self.old.store ≡ MAX_PAGES }
        ensures no_page { ¬ (IsErrOf result StoreFault.NoPage) }
        ensures effect { Extends self.old.store self.new.store result }
    {
        self.store.extend()
    }

    /// Makes what was put last. Device comes where the store failed in this call.
    pub fn sync(&mut self) -> Result<(), StoreFault>
        ensures trace { SameTrace self.old self.new }
        ensures cached { self.new.cached ≡ self.old.cached }
        ensures faults { IfErr result (λ fault. fault ≡ StoreFault.Device) }
        ensures effect { Syncs self.old.store self.new.store result }
    {
        self.store.sync()
    }

    /// How many pages there are.
    pub fn pages(&self) -> u32
        ensures { result ≡ page_count self.now.store }
    {
        self.store.pages()
    }

    /// The store, as it is.
    pub fn into_store(self) -> S
        ensures { S.facts result ≡ self.store }
    {
        self.store
    }
}
