// Loads into a store that fails. The command `load` makes its table in memory first, so that it can't show them.
ghost use Rattle.std.specs.Prelude.{◌≡◌};
ghost use Rattle.ub_store.specs.Facts.{page_count};

use crate::worked::table;
use std::alloc::Global;
use ub_load::LoadFault;
use ub_store::{FaultyStore, MemStore, PageStore, StoreFault};
use ub_tree::TreeFault;

// How many calls of its store the load of five rows makes, two on a page: the first page is added, and marked as that of a changed
// table; then each of the three regions has a page added and written, and so has the index, which is one leaf.
const CALLS: u64 = 2 + 3 * 2 + 2;

const DEVICE: LoadFault = LoadFault::Tree(TreeFault::Store(StoreFault::Device));

// How many rows and regions a load comes to in a store that has no pages.
fn loaded<S: PageStore>(alloc: Global, store: S) -> Result<(u32, u32), LoadFault>
    requires { page_count (S.facts store) ≡ 0 }
{
    match table(alloc, store) {
        Ok(made) => Ok((made.rows(), made.regions())),
        Err(fault) => Err(fault),
    }
}

// Whether it is refused where the store fails at this call, and is whole where it makes fewer.
fn is_so(alloc: Global, call: u64) -> bool {
    let wanted = if call <= CALLS {
        Err(DEVICE)
    } else {
        Ok((5, 3))
    };
    loaded(alloc, FaultyStore::new(MemStore::new(alloc), call)) == wanted
}

#[test]
fn end_where_the_store_fails(rt: HostRuntime) {
    for call in 1..=CALLS + 1 {
        assert!(rt; is_so(rt.alloc(), call), "call {call}");
    }
}
