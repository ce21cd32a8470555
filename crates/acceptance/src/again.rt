// A script that is run twice over one tree, whose store fails once. Where the device ends the first run, the whole texts of the
// statements before stand and nothing more; the second run writes all texts.
ghost use Rattle.std.specs.Prelude.{◌≡◌};
ghost use Rattle.ub_store.specs.Facts.{page_count};

use crate::worked::{SCRIPT, TEXTS, closed, ended};
use std::alloc::Global;
use ub_script::{RunFault, Summary};
use ub_store::{FaultyStore, MemStore, PageStore, StoreFault};
use ub_tree::{Tree, TreeFault};

const DEVICE: Result<Summary, RunFault> = Err(RunFault::Tree(TreeFault::Store(StoreFault::Device)));

const DONE: Result<Summary, RunFault> = Ok(Summary {
    statements: 7,
    refused: 1,
});

// Which call of the store fails, how the first run ends, and of how many statements the texts stand then. Opening makes two
// calls. The first statement reads the last region, the third one the first region, and the fifth one the second region: each
// is cached then.
static RUNS: [(u64, Result<Summary, RunFault>, usize); 4] = [
    (3, DEVICE, 0),
    (4, DEVICE, 2),
    (5, DEVICE, 4),
    (6, DONE, 7),
];

// Whether a run over this tree ends so, and writes the texts of so many statements.
fn runs<S: PageStore>(
    alloc: Global,
    tree: &mut Tree<S>,
    wanted: Result<Summary, RunFault>,
    count: usize,
) -> bool {
    ended(alloc, tree, SCRIPT, &TEXTS[..count.min(7)]) == Some(wanted)
}

// Whether the first run over the table in this store ends so, and two more are done.
fn goes_over<S: PageStore>(
    alloc: Global,
    store: S,
    wanted: Result<Summary, RunFault>,
    count: usize,
) -> bool {
    match Tree::open(alloc, store) {
        Ok(mut tree) => {
            runs(alloc, &mut tree, wanted, count)
                & runs(alloc, &mut tree, DONE, 7)
                & runs(alloc, &mut tree, DONE, 7)
        }
        Err(_) => false,
    }
}

// The same where the table is made in a store that has no pages, which fails then at its k-th call.
fn goes<S: PageStore>(
    alloc: Global,
    store: S,
    k: u64,
    wanted: Result<Summary, RunFault>,
    count: usize,
) -> bool
    requires { page_count (S.facts store) ≡ 0 }
{
    match closed(alloc, store) {
        Some(store) => goes_over(alloc, FaultyStore::new(store, k), wanted, count),
        None => false,
    }
}

#[test]
fn is_done_after_a_failed_read(rt: HostRuntime) {
    for (k, wanted, count) in &RUNS {
        let store = MemStore::new(rt.alloc());
        let is_so = goes(rt.alloc(), store, *k, *wanted, *count);
        assert!(rt; is_so, "call {k}");
    }
}

// Whether the table that is made in a store that has no pages isn't opened where that fails then at its k-th call.
fn is_refused<S: PageStore>(alloc: Global, store: S, k: u64) -> bool
    requires { page_count (S.facts store) ≡ 0 }
{
    match closed(alloc, store) {
        Some(store) => Tree::open(alloc, FaultyStore::new(store, k)).is_err(),
        None => false,
    }
}

// Whether it isn't at each of the two calls of opening.
fn are_refused(alloc: Global) -> bool {
    is_refused(alloc, MemStore::new(alloc), 1) & is_refused(alloc, MemStore::new(alloc), 2)
}

#[test]
fn is_not_begun_where_the_table_is_not_opened(rt: HostRuntime) {
    assert!(rt; are_refused(rt.alloc()));
}
