// The happy paths of each store and of the pager, and what the contracts promise over memory, where
// no call fails but the one that is told to.

ghost use Rattle.std.specs.Prelude.{◌≡◌, ◌≢◌, ◌<◌, [], Err, Some, length, slice_get, slice_set, IfOk, IsOk, IsOkAnd, OnOk};
ghost use Rattle.ub_store.specs.Facts.{memory_facts, IsHonest};
ghost use Rattle.ub_store.specs.Faulty.{faulty_facts, faulty_view};
ghost use Rattle.ub_store.specs.View.{IsCached};

use crate::calls::{Answer, Call, answers, byte_of};
use crate::samples::{Case, all_hold};
use std::alloc::Global;
use std::num::NonZeroUsize;
use std::test::Fail;
use ub_store::{FaultyStore, MemStore, Page, PageStore, Pager, StoreFault};

// Over memory a page that is there is read, unless the failure is due.
fn read_in_memory(store: &mut FaultyStore<MemStore>, n: u32) -> Result<Page, StoreFault>
    requires there { n < length store.old.inner }
    requires not_due { store.old.due ≢ 1 }
    ensures done { IsOkAnd result (λ page. slice_get store.old.inner n ≡ Some page) }
    ensures kept { store.new.inner ≡ store.old.inner }
{
    store.read_page(n)
}

// Over memory a page that is there is written, unless the failure is due.
fn write_in_memory(store: &mut FaultyStore<MemStore>, n: u32, page: &Page) -> Result<(), StoreFault>
    requires there { n < length store.old.inner }
    requires not_due { store.old.due ≢ 1 }
    ensures done { IsOk result }
    ensures written { store.new.inner ≡ slice_set store.old.inner n page.now }
{
    store.write_page(n, page)
}

// Where the failure is due, memory isn't reached.
fn fail_in_memory(store: &mut FaultyStore<MemStore>) -> Result<u32, StoreFault>
    requires { store.old.due ≡ 1 }
    ensures failed { result ≡ Err StoreFault.Device }
    ensures kept { store.new.inner ≡ store.old.inner }
{
    store.extend()
}

// A sync that isn't due to fail succeeds over memory.
fn sync_in_memory(store: &mut FaultyStore<MemStore>) -> Result<(), StoreFault>
    requires { store.old.due ≢ 1 }
    ensures done { IsOk result }
    ensures kept { store.new.inner ≡ store.old.inner }
{
    store.sync()
}

// A store in memory with no pages, which fails at its k-th call.
fn store_failing_at(alloc: Global, k: u64) -> FaultyStore<MemStore>
    ensures { result ≡ faulty_view [] k 0 0 }
{
    FaultyStore::new(MemStore::new(alloc), k)
}

// A store that fails at its k-th call, over one that fails at its j-th call.
fn store_over_one_failing_at(alloc: Global, j: u64, k: u64) -> FaultyStore<FaultyStore<MemStore>>
    ensures { result ≡ faulty_view (faulty_view [] j 0 0) k 0 0 }
{
    FaultyStore::new(store_failing_at(alloc, j), k)
}

// A sync that is due to fail, and then one that isn't, are one failure of a call that isn't a read.
fn fail_once(store: &mut FaultyStore<MemStore>)
    requires due { store.old.due ≡ 1 }
    requires fresh { store.old.writes ≡ 0 }
    ensures failed { (faulty_facts memory_facts store.new).failed_writes ≡ 1 }
    ensures reads { store.new.reads ≡ store.old.reads }
    ensures kept { store.new.inner ≡ store.old.inner }
{
    let _ = store.sync();
    let _ = store.sync();
}

// Which call of a store over one in memory fails in that one, and which in the store itself, which then passes it on to none (0: no
// call); calls, and their answers.
struct Calls(u64, u64, &'static [(Call, Answer)]);

static CALLS: &[Calls] = &[
    Calls(
        0,
        2,
        &[
            (Call::Extend, Ok(0)),
            (Call::Extend, Err(StoreFault::Device)),
            (Call::Pages, Ok(1)),
            (Call::Sync, Ok(0)),
            (Call::Extend, Ok(1)),
        ],
    ),
    Calls(
        0,
        0,
        &[
            (Call::Extend, Ok(0)),
            (Call::Write(0, 7), Ok(0)),
            (Call::Read(0), Ok(7)),
            (Call::Read(1), Err(StoreFault::NoPage)),
            (Call::Sync, Ok(0)),
        ],
    ),
    Calls(
        2,
        0,
        &[
            (Call::Extend, Ok(0)),
            (Call::Extend, Err(StoreFault::Device)),
            (Call::Extend, Ok(1)),
        ],
    ),
    Calls(
        2,
        0,
        &[
            (Call::Sync, Ok(0)),
            (Call::Sync, Err(StoreFault::Device)),
            (Call::Sync, Ok(0)),
        ],
    ),
    Calls(
        3,
        0,
        &[
            (Call::Extend, Ok(0)),
            (Call::Read(0), Ok(0)),
            (Call::Read(0), Err(StoreFault::Device)),
            (Call::Read(0), Ok(0)),
        ],
    ),
    Calls(
        3,
        0,
        &[
            (Call::Extend, Ok(0)),
            (Call::Write(0, 7), Ok(0)),
            (Call::Write(0, 8), Err(StoreFault::Device)),
            (Call::Read(0), Ok(7)),
        ],
    ),
];

// Whether a store answers these calls so.
impl Case<Global> for Calls {
    fn holds(&self, alloc: &Global) -> bool {
        answers(
            &mut store_over_one_failing_at(*alloc, self.0, self.1),
            self.2,
        )
    }
}

// What is put is what is brought and lent, cached or not.
fn put_and_bring<S: PageStore>(
    pager: &mut Pager<S>,
    n: u32,
    page: &Page,
) -> Result<bool, StoreFault>
    requires { IsHonest pager.old.store }
    ensures stored { OnOk result (slice_get pager.new.store.pages n ≡ Some page.now) }
    ensures cached { OnOk result (IsCached pager.new n) }
{
    pager.put(n, page)?;
    pager.bring(n)
}

// A pager over this store, whose cache holds one page.
fn pager_over<S: PageStore>(alloc: Global, store: S) -> Result<Pager<S>, StoreFault>
    ensures honest { IsHonest (S.facts store) → IfOk result (λ pager. IsHonest pager.store) }
    ensures trace { IfOk result (λ pager. pager.trace.pages ≡ []) }
{
    match Pager::new(alloc, store, NonZeroUsize::MIN) {
        Ok(pager) => Ok(pager),
        Err(refused) => Err(refused.fault),
    }
}

// Adds three pages, and tells the number of the last one.
fn add_three<S: PageStore>(pager: &mut Pager<S>) -> Answer
    requires { IsHonest pager.old.store }
    ensures honest { IsHonest pager.new.store }
    ensures trace { pager.new.trace.pages ≡ pager.old.trace.pages }
{
    let first = pager.extend();
    let second = pager.extend();
    let third = pager.extend();
    first.and(second).and(third)
}

// A call of a pager. A page that is put is full of one byte.
#[derive(Clone, Copy)]
enum Deed {
    Bring(u32),
    Region(u32),
    // The same, and memory may be refused for it.
    Try(u32),
    Put(u32, u8),
    Sync,
    Begin,
    Noted,
    Pages,
}

// The numbers of pages as digits behind a 1.
fn digits(pages: &[u32]) -> u32 {
    let mut number = 1u32;
    for page in pages {
        number = number.wrapping_mul(10).wrapping_add(*page);
    }
    number
}

// Brings the page of a region, and tells the byte that it is full of.
fn region<S: PageStore>(pager: &mut Pager<S>, n: u32) -> Answer {
    pager.bring_region(n)?;
    Ok(byte_of(pager.cached(n)))
}

// What a call answers: how many pages there are, the digits of those that were noted, the byte that
// the page is full of which is brought, or 0.
fn done<S: PageStore>(pager: &mut Pager<S>, deed: Deed) -> Answer {
    match deed {
        Deed::Bring(n) => {
            pager.bring(n)?;
            Ok(byte_of(pager.cached(n)))
        }
        Deed::Region(n) => region(pager, n),
        Deed::Try(n) => match region(pager, n) {
            Err(StoreFault::Memory) => Ok(0),
            told => told,
        },
        Deed::Put(n, byte) => pager.put(n, &[byte; 4096]).and(Ok(0)),
        Deed::Sync => pager.sync().and(Ok(0)),
        Deed::Begin => {
            pager.begin();
            Ok(0)
        }
        Deed::Noted => Ok(digits(pager.trace())),
        Deed::Pages => Ok(pager.pages()),
    }
}

// Whether each of the calls is answered so; or the fault that isn't to be told.
fn does<S: PageStore>(pager: &mut Pager<S>, deeds: &[(Deed, Answer)]) -> Result<bool, StoreFault> {
    for asked in deeds {
        let answer = done(pager, asked.0);
        if answer != asked.1 {
            return answer.and(Ok(false));
        }
    }
    Ok(true)
}

// Which call of the store fails, the byte that page 1 is full of in the end, and calls of a pager with their answers. Three pages were
// added, and a page of eights was put and brought: five calls.
struct Deeds(u64, u8, &'static [(Deed, Answer)]);

// In the first the page that was last put is lent. In the second a page that is brought twice is
// read once, so that the seventh call is the sync; and the pages of regions that are brought since
// the trace began are noted, and no others.
static DEEDS: &[Deeds] = &[
    Deeds(
        0,
        7,
        &[
            (Deed::Bring(0), Ok(8)),
            (Deed::Bring(1), Ok(0)),
            (Deed::Bring(2), Ok(0)),
            (Deed::Put(1, 7), Ok(0)),
            (Deed::Bring(1), Ok(7)),
            (Deed::Bring(3), Err(StoreFault::NoPage)),
            (Deed::Sync, Ok(0)),
            (Deed::Pages, Ok(3)),
        ],
    ),
    Deeds(
        7,
        0,
        &[
            (Deed::Bring(1), Ok(0)),
            (Deed::Region(1), Ok(0)),
            (Deed::Sync, Err(StoreFault::Device)),
            (Deed::Bring(1), Ok(0)),
            (Deed::Noted, Ok(11)),
            (Deed::Begin, Ok(0)),
            (Deed::Region(1), Ok(0)),
            (Deed::Region(2), Ok(0)),
            (Deed::Bring(0), Ok(8)),
            (Deed::Region(1), Ok(0)),
            (Deed::Noted, Ok(1121)),
            (Deed::Begin, Ok(0)),
            (Deed::Noted, Ok(1)),
        ],
    ),
];

// The same once three pages are added, and a page of eights is put.
fn does_then<S: PageStore>(
    pager: &mut Pager<S>,
    deeds: &[(Deed, Answer)],
) -> Result<bool, StoreFault>
    requires { IsHonest pager.old.store }
{
    if add_three(pager)? != 2 {
        return Ok(false);
    }
    put_and_bring(pager, 0, &[8; 4096])?;
    does(pager, deeds)
}

// Whether a pager does this, and leaves page 1 full of this byte.
fn are_done<S: PageStore>(pager: Pager<S>, deeds: &Deeds) -> Result<bool, StoreFault>
    requires { IsHonest pager.store }
{
    let mut pager = pager;
    let told = does_then(&mut pager, deeds.2);
    let calls = [(Call::Read(1), Ok(u32::from(deeds.1)))];
    let is_left = answers(&mut pager.into_store(), &calls);
    match told {
        Ok(is_right) => Ok(is_right & is_left),
        Err(fault) => Err(fault),
    }
}

// The same of a pager over a store in memory that fails at that call.
fn are_done_in_memory(alloc: Global, deeds: &Deeds) -> Result<bool, StoreFault> {
    match pager_over(alloc, store_failing_at(alloc, deeds.0)) {
        Ok(pager) => are_done(pager, deeds),
        Err(fault) => Err(fault),
    }
}

impl Case<Global> for Deeds {
    fn holds(&self, alloc: &Global) -> bool {
        are_done_in_memory(*alloc, self) == Ok(true)
    }
}

// A store fails at one call alone; a pager lends pages, and notes those of regions.
#[test]
fn stores_and_pagers(rt: HostRuntime) {
    let alloc = rt.alloc();
    all_hold(&rt, "calls of stores", &alloc, CALLS);
    fail_once(&mut store_failing_at(alloc, 1));
    all_hold(&rt, "calls of pagers", &alloc, DEEDS);
}

// A page is noted whether memory is refused for it or not; it is brought in this call, or in the next.
static NOTED: Deeds = Deeds(
    0,
    0,
    &[
        (Deed::Region(0), Ok(8)),
        (Deed::Begin, Ok(0)),
        (Deed::Try(1), Ok(0)),
        (Deed::Noted, Ok(11)),
        (Deed::Region(1), Ok(0)),
        (Deed::Noted, Ok(111)),
    ],
);

// The trace has room from the call before, so what memory is refused for is the page.
// `tests/store_allocations.sh` makes each allocation of this test fail in turn.
#[test]
fn notes_a_page_that_memory_is_refused_for(rt: HostRuntime) -> Result<(), Fail> {
    assert!(rt; are_done_in_memory(rt.alloc(), &NOTED)?);
    Ok(())
}
