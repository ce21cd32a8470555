// A tree in a file: made, closed, opened and asked. A crash in between is another matter: `ub_keeping` is for that.
ghost use Rattle.std.specs.Prelude.{◌≡◌};
ghost use Rattle.ub_store.specs.Facts.{page_count};

use crate::asking::first_trips;
use crate::trips::{tree_of, trips};
use std::alloc::Global;
use ub_file::host::{create_store, open_store};
use ub_store::{PageStore, StoreFault};
use ub_tree::{ReadFault, Tree, TreeFault};

// Makes the table over a store with no pages, and closes it: from then on its pages are those of a table that can be opened.
fn make<S: PageStore>(alloc: Global, store: S) -> Result<(), TreeFault>
    requires { page_count (S.facts store) ≡ 0 }
{
    let tree = tree_of(alloc, store, &trips())?;
    match tree.close() {
        Ok(_) => Ok(()),
        Err(kept) => Err(kept.fault),
    }
}

// Opens the table that a store has, and asks it.
fn ask<S: PageStore>(alloc: Global, store: S) -> Result<String, ReadFault> {
    match Tree::open(alloc, store) {
        Ok(mut tree) => first_trips(alloc, &mut tree),
        Err(refused) => Err(ReadFault::from(refused.fault)),
    }
}

// The refusal of a file.
fn refused(fault: StoreFault) -> ReadFault {
    ReadFault::from(TreeFault::from(fault))
}

/// The first trips, from a table that was made in a file and closed.
pub fn example(rt: &HostRuntime) -> Result<String, ReadFault> {
    match create_store(rt, "trips.pages") {
        Ok(store) => make(rt.alloc(), store)?,
        Err(refusal) => return Err(refused(refusal.fault)),
    }
    match open_store(rt, "trips.pages") {
        Ok(store) => ask(rt.alloc(), store),
        Err(refusal) => Err(refused(refusal.fault)),
    }
}
