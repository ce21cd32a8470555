//! Three examples for other Rattle projects: what each library gives, what a call of it asks, and how its contract is handed on. What each
//! function promises was proved of the libraries' contracts alone. `docs/LIBRARY.md` walks through them.
//!
//! `sorted` jumps along a list of addresses of one's own (`ub_bigmin`); `trips` makes a UB-tree over any store and reads what meets a box
//! (`ub_tree`); `asking` plans a query and carries it out (`ub_exec`); `keeping` does both with a tree in a file (`ub_file`). Each example
//! gives the lines that are printed.
#![tactic(auto)]

mod asking;
mod keeping;
mod sorted;
mod trips;

use asking::first_trips;
use std::io;
use trips::{in_zones, tree_of, trips};
use ub_store::{MemStore, PageStore};
use ub_tree::{ReadFault, Tree};

// Prints what an example gives, or why it gave nothing.
fn tell(rt: &HostRuntime, example: &str, lines: Result<String, ReadFault>) -> io::Result<()> {
    match lines {
        Ok(lines) => println!(rt; "{example}\n{lines}"),
        Err(fault) => println!(rt; "{example}\n! {fault}"),
    }
}

// Tells what the examples find in a tree of the trips, which is lent to each.
fn tell_trips<S: PageStore>(rt: &HostRuntime, tree: &mut Tree<S>) -> io::Result<()> {
    let alloc = rt.alloc();
    tell(rt, "A tree in memory, by ub_tree", in_zones(alloc, tree))?;
    tell(rt, "A query of it, by ub_exec", first_trips(alloc, tree))
}

// Makes that tree in memory.
fn tell_in_memory(rt: &HostRuntime) -> io::Result<()> {
    let alloc = rt.alloc();
    match tree_of(alloc, MemStore::new(alloc), &trips()) {
        Ok(mut tree) => tell_trips(rt, &mut tree),
        Err(fault) => tell(
            rt,
            "A tree in memory, by ub_tree",
            Err(ReadFault::from(fault)),
        ),
    }
}

fn main(rt: HostRuntime) -> io::Result<()> {
    tell(
        &rt,
        "A sorted list, by ub_bigmin",
        sorted::example(rt.alloc()).or(Err(ReadFault::Memory)),
    )?;
    tell_in_memory(&rt)?;
    tell(&rt, "The same of a tree in a file", keeping::example(&rt))
}
