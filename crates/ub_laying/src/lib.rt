//! Regions laid on pages, in the order of their keys, and an index of them, built from below. Each page is put once, and none is
//! changed afterwards.
//!
//!     pages 1, 2, ..        R R R R R ..                       the regions, one after the other (`regions`)
//!     behind them           I1(1..86) I1(87..171) ..           level 1: what names 85 to 170 regions each (`leaves`)
//!     behind those          I2(.., ..) ..                      level 2, and so on up to the root (`levels`)
//!
//! So the file of a table that was loaded lies in key order, and a query with a range reads pages that follow each other. The leaves
//! have as many entries as they would have if the regions had been inserted one after the other (`falling`): so there is room on them
//! for what comes later. Above them each page but the last of a level is full. The pages of a level have numbers that follow each other
//! too, and the first key of each stands on it: nothing is kept in memory but how many entries each leaf gets, where a level begins,
//! and how many pages it has. The level that has one page alone is the root's; that is level 5 at most. `adding` adds a page to the
//! store. A table that is loaded is `begun` over a store by its first page alone, which marks it as changed, and laid behind that once
//! its rows are read; `pager` makes the pager over the store of any table. A `grown_store` spells the pages of regions that are lent when
//! they are asked for, and holds the others.
//!
//! What belongs here is what needs no tree: which page a region comes on, and an index whose entries are all there. How an index
//! changes is `ub_index_change`'s. The definitions stand in specs/: `Laying` (regions on pages that follow each other, and their
//! entries), `Levels` (the pages of a level, and the index that is built of them), `Begun` (a table that is begun, and what is laid
//! there), `Effects` (what is left of the store), `Spelled` (pages that are held or spelled).

#![tactic(auto)]

mod adding;
mod begun;
mod falling;
mod grown_store;
mod laying;
mod leaves;
mod levels;
mod pager;
mod regions;
mod spelled;

pub use adding::{add_index_page, add_page};
pub use begun::Begun;
pub use grown_store::GrownStore;
pub use laying::lay_regions;
pub use levels::{Level, Root, write_levels};
pub use pager::pager_over;
