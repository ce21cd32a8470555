// A table of one signed dimension: where its regions begin and end, which are coordinates, and that a file keeps which dimensions
// are signed.
ghost use Rattle.std.specs.Prelude.{◌≡◌};
ghost use Rattle.ub_store.specs.Facts.{page_count};

use crate::worked::ended;
use std::alloc::Global;
use ub_load::{LoadFault, load};
use ub_script::{RunFault, Summary};
use ub_store::{MemStore, PageStore};
use ub_tree::Tree;

// The third row finds no room beside the coordinates 2147483647 and 2147483648 of the first two: it has 0, so the second one begins
// a region of its own. The fourth one's is 4294967295.
const DATA: &[u8] = b"x,m\n-1,10\n0,20\n-2147483648,30\n2147483647,40\n";

// Coordinates, and the region that is sought from each: where it begins and where it ends.
static SPANS: [(u128, u128, u128); 4] = [
    (0, 0, 2_147_483_647),
    (2_147_483_647, 0, 2_147_483_647),
    (2_147_483_648, 2_147_483_648, 4_294_967_295),
    (4_294_967_295, 2_147_483_648, 4_294_967_295),
];

const SCRIPT: &[u8] = b"SELECT x, m FROM t WHERE x < 0 ORDER BY x;";

const TEXT: &str = "x,m\n-2147483648,30\n-1,10\n-- rows 2, pages 1\n";

const DONE: Result<Summary, RunFault> = Ok(Summary {
    statements: 1,
    refused: 0,
});

// The table, with two rows on a page, in a store that has no pages.
fn loaded<S: PageStore>(alloc: Global, store: S) -> Result<Tree<S>, LoadFault>
    requires { page_count (S.facts store) ≡ 0 }
{
    load(alloc, DATA, 1, 2, b"t", 1, store)
}

// Whether the region whose span holds a coordinate begins and ends there.
fn spans<S: PageStore>(tree: &mut Tree<S>, z: u128, from: u128, to: u128) -> bool {
    match tree.seek(z, None) {
        Ok(Some(region)) => region.from == from && region.to == to,
        _ => false,
    }
}

// The first coordinate whose region begins or ends elsewhere, if there is one.
fn first_other<S: PageStore>(tree: &mut Tree<S>) -> Option<u128> {
    for (z, from, to) in &SPANS {
        if !spans(tree, *z, *from, *to) {
            return Some(*z);
        }
    }
    None
}

// Whether a tree's table has two regions that begin and end so.
fn are_spans<S: PageStore>(tree: &mut Tree<S>) -> bool {
    tree.regions() == 2 && tree.schema().signed() == 1 && first_other(tree).is_none()
}

// Whether the table's regions do, in a store that has no pages.
fn are_of_coordinates<S: PageStore>(alloc: Global, store: S) -> bool
    requires { page_count (S.facts store) ≡ 0 }
{
    match loaded(alloc, store) {
        Ok(mut tree) => are_spans(&mut tree),
        Err(_) => false,
    }
}

#[test]
fn its_regions_are_of_coordinates(rt: HostRuntime) {
    assert!(rt; are_of_coordinates(rt.alloc(), MemStore::new(rt.alloc())));
}

// Whether the table in a store is signed, and a script over it writes this.
fn is_signed<S: PageStore>(alloc: Global, store: S) -> bool {
    match Tree::open(alloc, store) {
        Ok(mut tree) => {
            (tree.schema().signed() == 1) & (ended(alloc, &mut tree, SCRIPT, &[TEXT]) == Some(DONE))
        }
        Err(_) => false,
    }
}

// Whether it is where it is closed, and opened again.
fn is_signed_after<S: PageStore>(alloc: Global, tree: Tree<S>) -> bool {
    match tree.close() {
        Ok(store) => is_signed(alloc, store),
        Err(_) => false,
    }
}

// The same of the table, in a store that has no pages.
fn is_signed_still<S: PageStore>(alloc: Global, store: S) -> bool
    requires { page_count (S.facts store) ≡ 0 }
{
    match loaded(alloc, store) {
        Ok(tree) => is_signed_after(alloc, tree),
        Err(_) => false,
    }
}

#[test]
fn it_is_signed_still_where_it_is_opened(rt: HostRuntime) {
    assert!(rt; is_signed_still(rt.alloc(), MemStore::new(rt.alloc())));
}
