// A table in a file of pages to which a script adds a row, and which isn't closed then: the file is told to be unclean.
ghost use Rattle.std.specs.Prelude.{◌≡◌};
ghost use Rattle.ub_store.specs.Facts.{page_count};

use crate::worked::{closed, ended};
use std::alloc::Global;
use ub_file::{FileStore, MemMedium};
use ub_store::{PageStore, StoreFault};
use ub_table::PageFault;
use ub_tree::{Tree, TreeFault};

// The load of the five rows makes 10 calls of its store, and closing three. Then the table is opened with two calls; the INSERT
// reads the region of its row, marks the table and writes the region. So the 19th call is the first of the closing, which syncs,
// writes the header and syncs. The 22nd is the first of the opening after it.
static CLOSINGS: [(u64, Option<TreeFault>); 5] = [
    (19, UNCLEAN),
    (20, UNCLEAN),
    (21, None),
    (22, Some(TreeFault::Store(StoreFault::Device))),
    (0, None),
];

const UNCLEAN: Option<TreeFault> = Some(TreeFault::Page {
    page: 0,
    fault: PageFault::Unclean,
});

// Whether a script adds a row to the table of this tree.
fn adds<S: PageStore>(alloc: Global, tree: &mut Tree<S>) -> bool {
    let script = b"INSERT INTO t VALUES (3, 0, 6);";
    matches!(
        ended(alloc, tree, script, &["-- inserted 6\n"]),
        Some(Ok(_))
    )
}

// Why a store isn't opened, if it isn't.
fn refusal<S: PageStore>(alloc: Global, store: S) -> Option<TreeFault> {
    match Tree::open(alloc, store) {
        Ok(_) => None,
        Err(refused) => Some(refused.fault),
    }
}

// Why the store isn't opened once more that is left of this tree, whether its closing ends well or not.
fn refusal_after<S: PageStore>(alloc: Global, tree: Tree<S>) -> Option<TreeFault> {
    match tree.close() {
        Ok(store) => refusal(alloc, store),
        Err(refused) => refusal(alloc, refused.store),
    }
}

// Whether a row is added to the table in this store, and the store is refused so then.
fn is_left_over<S: PageStore>(alloc: Global, store: S, wanted: Option<TreeFault>) -> bool {
    match Tree::open(alloc, store) {
        Ok(mut tree) => adds(alloc, &mut tree) & (refusal_after(alloc, tree) == wanted),
        Err(_) => false,
    }
}

// The same where the table is made in a store that has no pages.
fn is_left_in<S: PageStore>(alloc: Global, store: S, wanted: Option<TreeFault>) -> bool
    requires { page_count (S.facts store) ≡ 0 }
{
    match closed(alloc, store) {
        Some(store) => is_left_over(alloc, store, wanted),
        None => false,
    }
}

// The same in a file, whose medium fails at its k-th call.
fn is_left(alloc: Global, k: u64, wanted: Option<TreeFault>) -> bool {
    match FileStore::open(MemMedium::new(Vec::new(alloc), 0, k)) {
        Ok(store) => is_left_in(alloc, store, wanted),
        Err(_) => false,
    }
}

#[test]
fn is_unclean_until_it_is_closed(rt: HostRuntime) {
    for (k, wanted) in &CLOSINGS {
        assert!(rt; is_left(rt.alloc(), *k, *wanted), "call {k}");
    }
}
