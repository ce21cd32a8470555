// Rows that are put into a tree over a store that fails at one of its calls. A program keeps nothing of that, so that none of them
// can show it.
ghost use Rattle.std.specs.Prelude.{◌≡◌};
ghost use Rattle.ub_store.specs.Facts.{page_count};
ghost use Rattle.ub_tree.specs.Change.{Suits};

use crate::worked::ended;
use std::alloc::Global;
use ub_script::put_rows;
use ub_store::{FaultyStore, MemStore, PageStore, StoreFault};
use ub_table::{Name, PageFault, Row, Schema};
use ub_tree::{Tree, TreeFault};

const DEVICE: Result<(), TreeFault> = Err(TreeFault::Store(StoreFault::Device));

// At which call the store fails, or 0, what is answered, and what a query of all rows writes then: nothing where the tree has
// failed. A tree of no rows is made by six calls. The rows' addresses are 3, 13, 10, 4 and 13: so they go in as the first, the
// fourth, the third, the second and the fifth. The first one reads the root and the region and writes the region, the fourth one
// writes it, which is cached. The third one finds it full, adds a page and writes both and the root. The second one goes to the
// region that the third one made: that is read, and written. The fifth one finds that full: a page is added, and three are written.
static CALLS: [(u64, Result<(), TreeFault>, &str); 10] = [
    (7, DEVICE, "x,y,m\n-- rows 0, pages 1\n"),
    (8, DEVICE, "x,y,m\n-- rows 0, pages 1\n"),
    (9, DEVICE, ""),
    (10, DEVICE, ""),
    (11, DEVICE, ""),
    (
        15,
        DEVICE,
        "x,y,m\n1,1,10\n3,0,5\n0,2,7\n-- rows 3, pages 2\n",
    ),
    (16, DEVICE, ""),
    (17, DEVICE, ""),
    (20, DEVICE, ""),
    (
        0,
        Ok(()),
        "x,y,m\n1,1,10\n2,3,20\n3,0,5\n0,2,7\n2,3,1\n-- rows 5, pages 3\n",
    ),
];

// The schema of the worked table, two rows on a page.
fn schema() -> Result<Schema, PageFault> {
    let columns = [Name::new(b"x")?, Name::new(b"y")?, Name::new(b"m")?];
    Schema::new(Name::new(b"t")?, &columns, 2, 2, 0)
}

// A row of it. Its number isn't looked at.
fn row(x: u32, y: u32, m: i64) -> Row
    ensures { Suits 2 1 result }
{
    Row {
        number: 7,
        dims: [x, y, 0, 0],
        measures: [m, 0, 0, 0],
    }
}

// Puts the five rows in.
fn put_five<S: PageStore>(alloc: Global, tree: &mut Tree<S>) -> Option<Result<(), TreeFault>> {
    let schema = tree.schema();
    if schema.dims() != 2 || schema.measures() != 1 {
        return None;
    }
    let rows = [
        row(1, 1, 10),
        row(2, 3, 20),
        row(3, 0, 5),
        row(0, 2, 7),
        row(2, 3, 1),
    ];
    Some(put_rows(alloc, tree, &rows))
}

// Whether this is what a query of all rows writes, and the tree has failed where that is nothing.
fn shows<S: PageStore>(alloc: Global, tree: &mut Tree<S>, text: &str) -> bool {
    match ended(alloc, tree, b"SELECT * FROM t;", &[text]) {
        Some(end) => end.is_ok() != tree.has_failed(),
        None => false,
    }
}

// Whether this is answered where the rows are put into a tree, and this stands then.
fn is_put<S: PageStore>(
    alloc: Global,
    tree: &mut Tree<S>,
    wanted: Result<(), TreeFault>,
    text: &str,
) -> bool {
    (put_five(alloc, tree) == Some(wanted)) & shows(alloc, tree, text)
}

// The same of a tree of no rows, which is made in a store that has no pages.
fn is_put_into<S: PageStore>(
    alloc: Global,
    store: S,
    wanted: Result<(), TreeFault>,
    text: &str,
) -> bool
    requires { page_count (S.facts store) ≡ 0 }
{
    let Ok(schema) = schema() else {
        return false;
    };
    match Tree::create(alloc, store, &schema) {
        Ok(mut tree) => is_put(alloc, &mut tree, wanted, text),
        Err(_) => false,
    }
}

// The same in memory, where the k-th call of the store fails.
fn is_told(alloc: Global, k: u64, wanted: Result<(), TreeFault>, text: &str) -> bool {
    let store = FaultyStore::new(MemStore::new(alloc), k);
    is_put_into(alloc, store, wanted, text)
}

#[test]
fn those_that_went_in_before_a_fault_are_in(rt: HostRuntime) {
    for (k, wanted, text) in &CALLS {
        assert!(rt; is_told(rt.alloc(), *k, *wanted, text), "call {k}");
    }
}
