//! The index of a UB-tree's regions (Bayer 1997), in pages of several levels: where each region begins, and on which page it
//! stands. Nothing of it is held in memory but three numbers; its pages are read as a search comes to them.
//!
//!     level 3                    root  (0,0) ........................ (40,7) ...
//!                                        |                              |
//!     level 2               (0,0) .... (20,0) ....                 (40,7) .... (61,0)
//!                             |          |                            |          |
//!     level 1      (0,0) (4,0) (9,2)   (20,0) (31,1)                  ..         ..
//!                    |     |     |        |      |
//!     regions        R     R     R        R      R
//!
//! A page, as `ub_page` spells it: 'I', the level, the count of entries, zeros, and the entries, 24 bytes each: a key, and
//! the number of a page of the level below, or at level 1 of a region's page. A page of level 1 is a leaf.
//!
//!  - Levels are counted from below: 1 to 16. Each page that a page of level n names is of level n - 1; the root's level is told
//!    with its number.
//!  - A page has 1 to 170 entries, each of which begins after the one before it.
//!  - An entry's key is the first key of the page that it names, and so the least first key of all regions that it leads to. The
//!    root begins with the least key of all.
//!  - All that a page tells ends before the key of the next entry of the page above.
//!  - The regions' entries, read from left to right, are the flat list that searches tell of (`under` in specs/Index).
//!
//! OPENING. An index is opened by the number and the level of its root (`opening`): that page alone is read, and it is checked
//! in full, held or not. One of a single region is made by putting its root, of level 1.
//!
//! SEARCHES. A search goes down (`descent`): from an entry, and where the next one begins, to the page that it names; then to
//! the entry of it to which the key falls, the last one that doesn't begin after the key. It goes down as often as the root has
//! levels, whatever a page says. What it answers on an index is the region that holds the key in the flat list; what it answers
//! on any pages, and at which page it stops, is told by specs/Way.
//!
//! A search for a region that is later than another one goes down to that one's leaf, and goes on from the next entry on the
//! same leaf. Only where the key that it is after lies beyond the leaf it goes down once more from the root.
//!
//! WHAT IS CHECKED, AND WHEN.
//!
//!  - A page that a search reads from the store is checked in full (`fits`): each byte by its reader (`check_index`: WrongKind,
//!    BadCount, BadRow, BadOrder, BadPadding), and then its ends.
//!  - The ends of a page (`fits_at_ends`) are looked at each time that a search comes to it, in constant time: it begins with
//!    'I', and tells of a level and a count that there can be (WrongKind, BadCount); it is of the level that is due (BadCount);
//!    its first entry begins with the key of the entry that names it, and its last one before the key of the next one
//!    (OutOfRegion). The first refusal that holds is told.
//!  - Of a page that the pager holds already, a search looks at the ends alone. That is enough where each page that is held was
//!    checked: over an honest store it is an index's page in full, or doesn't begin as one (`AreChecked` in specs/Held). Then what
//!    a search answers is what the store's pages say, whatever was read before.
//!  - Each call here keeps that. A page that is read and refused is let go again. Who puts pages of an index, or brings pages of
//!    the same pager for another use, keeps it too: what isn't taken there is let go.
//!  - Searches don't require it: their clauses on what is found, and why they are refused, have it as a premise. On a pager that
//!    holds other pages what stands between the ends is followed as it is. A search still comes to an end, changes nothing of the
//!    store, and lets a page go that it refuses on its way.
//!  - Only a store that isn't honest, or a pager whose pages weren't checked, gives one page in two ways. Where a later region
//!    would not begin later then, OutOfRegion of the root is told: so each walk ends, and none comes to a first key twice.
//!  - Who looks at all pages asks for them one by one (`entries`): each is checked in full, held or not.
//!
//! WALKS. Who wants all regions that meet some boxes has them handed over (`walking`). A walk goes down to the leaf of the first one, and
//! along it as long as the next one stands there; then it goes down again from the root. So each leaf is sought once, and what is handed
//! over is what a search gives after each region.
//!
//! STRETCHES. What an entry of any level names, the keys from its own up to where the next one begins, is a *stretch* (`stretch`): at
//! level 0 a region. Who looks for regions in an order of their own begins with the whole index as one stretch, and opens stretches one
//! by one: the page of one is brought and checked in full, and the parts of it that meet some boxes are handed over, each a stretch of
//! the level below.
//!
//! CHANGES of an index are made in the crate above (`ub_index_change`). It goes down with what this crate shows of its own way: a
//! place, and that of a root (`Place`, `root_place`); and a page that is brought and checked in full (`bring_fitting`, `bring_root`).
//!
//! WORDS. An *entry* is a key and the number of a page; a *place* is an entry, and where the next one of its level begins. A page
//! *fits* the place from which an entry names it. The *way* to a key goes down from the root, by the entries to which the key
//! falls: it *leads* to a region's entry, or *stops* at a page that isn't taken. A *goal* is what a later region is sought for:
//! an address, or boxes.
//!
//! DEFINITIONS (specs). What an index is: `Index`, and what contracts see of one: `View`; where its regions stand: `Spans`. Which
//! page is taken: `Fitting`; what is known of the pages that are held: `Held`. The way to a key: `Way`; a page that is brought, and
//! the steps down: `Bringing`, `Descending`; what searches answer, and why they are refused: `Searching`; a walk, and how it goes
//! along a leaf: `Walking`, `Along`; what a stretch is, and its parts: `Stretches`; what a sink has taken: `Sinks`; `Opening`. What an
//! index is to those who keep regions on other pages of its store, which grows: `Standing`. `Laws`.
//!
//! What belongs here is the way through several pages. How one page is spelled and searched (`ub_page`), and how pages are kept
//! (`ub_store`), stands below; how the pages of an index change (`ub_index_change`), and which pages are a table's, above. The
//! functions of `law` ensure what holds of every index.

#![tactic(auto)]

mod descent;
pub mod entries;
pub mod fault;
mod goal;
pub mod index;
pub mod law;
mod opening;
pub mod stretch;
pub mod walking;

pub use descent::{Place, bring_fitting, bring_root, root_place};
pub use entries::entries_at;
pub use fault::IndexFault;
pub use index::{Index, region_at};
pub use stretch::{Stretch, StretchSink};
pub use walking::RegionSink;
