// A tree into which a row couldn't be put, since a write of its store failed, answers no query and explains none.
ghost use Rattle.std.specs.Prelude.{◌≡◌};
ghost use Rattle.ub_store.specs.Facts.{page_count};

use crate::worked::ended;
use std::alloc::Global;
use ub_script::RunFault;
use ub_store::{FaultyStore, MemStore, PageStore, StoreFault};
use ub_table::{Name, PageFault, Schema};
use ub_tree::{Tree, TreeFault};

// Creation makes six calls of the store. The insertion of a row reads the root of the index and the region, and writes the region. So
// where the k-th call fails: whether the row isn't put in, and whether all scripts are refused then.
static CALLS: [(u64, bool, bool); 4] = [
    (7, true, false),
    (8, true, false),
    (9, true, true),
    (10, false, false),
];

// A script, and what is written before it ends as Failed.
static SCRIPTS: [(&[u8], &str); 8] = [
    (b"EXPLAIN SELECT x FROM t;", ""),
    (b"EXPLAIN SELECT x FROM t LIMIT 0;", ""),
    (b"SELECT x FROM t;", ""),
    (b"SELECT x FROM t LIMIT 0;", ""),
    (b"SELECT x FROM t ORDER BY x;", ""),
    (b"SELECT x FROM t GROUP BY x;", ""),
    (b"SELECT COUNT(*) FROM t WHERE x > 4294967295;", ""),
    (
        b"SELECT z FROM t; SELECT x FROM t;",
        "! UnknownColumn at 7\n",
    ),
];

// The schema of a table of one dimension.
fn schema() -> Result<Schema, PageFault> {
    Schema::new(Name::new(b"t")?, &[Name::new(b"x")?], 1, 2, 0)
}

// Whether each script over a tree ends as Failed, and writes just its text.
fn are_refused<S: PageStore>(alloc: Global, tree: &mut Tree<S>) -> bool {
    for (script, text) in &SCRIPTS {
        if ended(alloc, tree, script, &[*text]) != Some(Err(RunFault::Tree(TreeFault::Failed))) {
            return false;
        }
    }
    true
}

// Whether a row isn't put into a tree of one dimension, since the device fails.
fn is_missed<S: PageStore>(tree: &mut Tree<S>) -> bool {
    if tree.schema().dims() != 1 || tree.schema().measures() != 0 {
        return false;
    }
    tree.insert(&[1], &[]) == Err(TreeFault::Store(StoreFault::Device))
}

// Whether a tree is made in a store that has no pages, a row isn't put into it, or is, and all scripts are refused then, or not.
fn is_so_in<S: PageStore>(alloc: Global, store: S, missed: bool, refused: bool) -> bool
    requires { page_count (S.facts store) ≡ 0 }
{
    let Ok(schema) = schema() else {
        return false;
    };
    match Tree::create(alloc, store, &schema) {
        Ok(mut tree) => {
            (is_missed(&mut tree) == missed) & (are_refused(alloc, &mut tree) == refused)
        }
        Err(_) => false,
    }
}

// The same in memory, where the k-th call of the store fails.
fn is_so(alloc: Global, k: u64, missed: bool, refused: bool) -> bool {
    let store = FaultyStore::new(MemStore::new(alloc), k);
    is_so_in(alloc, store, missed, refused)
}

#[test]
fn is_not_asked(rt: HostRuntime) {
    for (k, missed, refused) in &CALLS {
        assert!(rt; is_so(rt.alloc(), *k, *missed, *refused), "call {k}");
    }
}
