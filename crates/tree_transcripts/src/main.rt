//! Tests of trees over stores, and of queries and sweeps over trees, as a text on standard input: tables as they are spelled byte for
//! byte, what is done to a tree over their pages, and what that answers. Each line is tried, those that are answered otherwise are
//! printed with their numbers and what they were answered, and at last how many were right and how many wrong. With a wrong one the
//! status is 1. tests/README.md, 'Adding a case', walks through a line; docs/FORMATS.md says how pages are spelled.
//!
//!     # ..                a comment, as an empty line is
//!
//!     table NAME          a table of no pages yet; `table NAME = OTHER`, and `table NAME = OTHER with HURTS`, are of another one's
//!     page ITEMS          the next page of that table: these bytes, and zeros behind them
//!     pages COUNT ITEMS   so many pages
//!
//! An item is a byte (7), a number on bytes of which the highest is the first (6/4), a byte several times (0*12), a row of numbers
//! (1~64/4), a text ('UBTR), a name on 33 bytes (.t), or an entry of an index or a directory: its address, its number where that isn't
//! 0, and its page (e10>4, e0:1>1). Many entries are one item: the first address and page, their steps, and how many (e0+2*170>3+1). On
//! several pages a number may have a step too (1+2/4), and an entry a second one (e0+1+170*170>1). Hurts are bytes at an offset of a page: `0@12 7/4, 3@24 1/4` are two.
//!
//!     open NAME           opens a store of its pages; `open NAME fail K` one that fails at its K-th call; `open NAME with HURTS`
//!     open                opens the store that the last tree left; `again fail K` one of its pages that fails
//!     create plane        an empty table of two dimensions, x and y, and a measure m, with two rows a page; `create line` of the one
//!                         dimension x; `create plane fail K`
//!     close, begin, check, trace
//!     insert X Y M        the number of the row; `insert X` in a line. `fill N` puts in N rows, at 0, 1, ..
//!     remove Z NUMBER     takes out the row of this address and number. `empty N` takes out the rows 1 to N of a line filled so
//!     count, shape        what the tree tells of itself
//!     seek Z              whether a region ends at this address or later
//!     span Z              the addresses of that region, and its first row and its last; `span Z on PAGE` read from that page
//!     walk                how many regions follow each other, of how many, and where the first and the last begin
//!     meet N              the same of those that meet the box of all points of the plane from (N, N) on
//!     SELECT .., EXPLAIN .., DELETE ..
//!                         by the plan of the query: the pages and the rows, the lines, and how many rows are gone
//!     sweep N SELECT ..   N turns of its sweep: what each gives, and in brackets how many pages were read, and how many rows are held
//!     hand N SELECT ..    N turns so; then twice what it hands over of the regions that are left, by the numbers of their rows, and
//!                         behind them a fault; and N turns more
//!     size                how many pages the store has that the tree left
//!     same NAME           whether it has the pages of that table, byte for byte, and no other; `same NAME with HURTS`
//!     bytes PAGE@AT ITEMS whether a page of it has these bytes
//!
//!     calls NAME          the lines up to `end` are tried over a store of these pages that fails at its first call, at its second, and so
//!                         on. Behind their answers stand how many pages each reads, how many it adds then, and how many calls write or
//!                         sync after that
//!     checks NAMES        each `hurt HURTS; HURTS ..` that follows is tried on each of these tables: it is opened, and checked twice, which
//!                         changes nothing
//!     upgrades NAMES left FAULT
//!                         the same of tables of older formats, which are upgraded: they are as they were, and what is left of the new
//!                         table is refused so
//!     upgrade NAME        upgrades it over stores that don't fail, and leaves it as it is; `upgrade NAME with HURTS`
//!     ends NAME K N; K N ..
//!                         upgrades it over an old store that fails at its K-th call, and a new one that fails at its N-th; 0 is none
//!     stops NAME CALLS    each call of both stores in turn fails: o reads a page of the old one; e adds a page to the new one, w writes
//!                         one there, and r reads one; a w isn't told from an r
//!
//! Some of these are told by lines that are asked in turn, and that a text may have too:
//!
//!     store NAME          how many pages a store of them has, which is taken and not opened; `store NAME fail K`
//!     due                 whether the store that the tree left fails at its next call
//!     bring K N           upgrades the table `old` over an old store that fails at its K-th call, and a new one that fails at its N-th;
//!                         `bring` does it once more with the same old store, and a new one that doesn't fail
//!     old LINE            what a line on a store is answered of the old one: `old due`, `old same NAME`
#![tactic(auto)]

mod asking;
mod bench;
mod bytes;
mod calls;
mod hurting;
mod player;
mod queries;
mod regions;
mod reply;
mod stores;
mod tables;
mod told;
mod trial;
mod words;

use bench::Answering;
use player::Player;
use std::alloc::Global;
use std::io;
use std::process::ExitCode;
use tables::Store;
use told::Told;
use trial::Trial;

fn main(rt: HostRuntime) -> ExitCode {
    match play(&rt) {
        Ok(true) => ExitCode::from(0),
        _ => ExitCode::from(1),
    }
}

// Plays the text of standard input, and gives whether all its lines are right.
fn play(rt: &HostRuntime) -> io::Result<bool> {
    let text = io::read_to_string(rt.alloc(), rt.reader())?;
    let mut told = Told::new(rt.alloc());
    let trial: Trial<Store> = Trial::new(rt.alloc());
    let is_right = judge(rt.alloc(), trial, text.as_str(), &mut told);
    rt.println(told.as_str())?;
    Ok(is_right)
}

// Puts what is printed of the lines of a text, which this one answers, and gives whether all are right.
fn judge<A: Answering>(alloc: Global, answering: A, text: &str, told: &mut Told) -> bool {
    let mut player = Player::new(alloc, answering);
    for line in text.split('\n') {
        player.take(line);
    }
    player.end(told)
}
