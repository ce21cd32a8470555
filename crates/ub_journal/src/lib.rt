//! The changes of a table, put into its file so that no crash loses it: a run that is stopped at any moment, or cut off from power,
//! leaves the table as it was or the table as it is to be.
//!
//! Three files stand in one folder. TABLE holds the table's pages, and may hold bytes after the last whole one, which belong to
//! nothing. The journal beside it is there only while changes are put, or after a crash in the middle of that. The draft is a journal
//! that is being written, under a name of its own that nobody reads. A `Place` is these three, with one clock; it tells how many pages
//! there are, how many bytes after them, and the journal. A file of the journal's name that spells none is told as a journal of a table
//! that is to have no pages: it is one of no table.
//!
//! A journal tells how one table becomes another one: the first page as it was and as it is to be, how many pages the table is to
//! have, and the other pages that change. It is of the table that stands there (`Fits`) as long as the pages that it leaves stand
//! there, and
//!   (A) the first page is the one from before, but for its mark (byte 5); or
//!   (B) all other pages are those of the new table, with no byte after them.
//!
//! It need not stand in memory as one: each step takes whatever tells a journal page by page (`Tells`), as a `Journal` does.
//!
//! `commit` puts the changes, in six steps, each of which ends with a sync:
//!
//!   1. The journal is written as a draft.            A crash leaves the old table.
//!   2. The draft gets the journal's name (`publish`); the folder is synced.
//!                                                    A crash leaves the old table, or the new one by the journal.
//!   3. The first page of TABLE is marked.            From here on the new table, by the journal, as of (A).
//!   4. TABLE gets its length, and all pages but the first.
//!                                                    As of (A); at the end (B) is so as well, and lasts.
//!   5. The first page is put.                        As of (B), whatever bytes of the first page are torn.
//!   6. The journal goes (`remove`); the folder is synced.
//!                                                    The new table, with no journal or as of (B).
//!
//! So no torn journal is ever read: a draft gets the name only once it lasts. In step 4 any page but the first may be torn, and in
//! step 5 the first alone; so (A) or (B) is so at each moment.
//!
//! TABLE alone, without its journal, is the old table up to step 2, and may have a torn mark in step 3; then it has the mark, so that
//! it is refused as one that is being changed; and from step 5 on all its pages but the first are the new ones (`IsAlone`).
//!
//! `heal` finishes what a crash has left, where the journal that is seen is one of the table. What a process wrote that was ended
//! is seen by the next one, and doesn't last yet: so it is made to last before anything is done by it. Then `finish` goes through
//! steps 3 to 6 if (A) is so, and through 5 and 6 alone if it isn't: once the first page may be torn, nothing but (B) tells whose
//! journal it is, and the pages must not be torn again. A mark that stands isn't put again, since it might be torn while pages are
//! mixed. A crash while it heals leaves what can be healed again.
//!
//! A failure of the place ends a call at once: nothing is tried again, and nothing taken back. What stands there then is what a
//! crash at that moment would leave at worst: it stands for the old table or the new one.
//!
//! The definitions: `Image` (what stands on a disk, and what it stands for), `Crash` (what each call may leave), `Place` (what
//! contracts see of a place), `Torn` (of one in memory, `TornPlace`, which keeps its calls); for the steps alone, `inner/Way`, and for
//! what a `TornPlace` looks up, `inner/TornBeside` and `inner/TornClock`.

#![tactic(auto)]

mod committing;
mod fault;
mod journal;
mod place;
mod torn;

pub use committing::{commit, finish, heal, make_last};
pub use fault::JournalFault;
pub use journal::{Change, Journal, Tells, is_journal, is_marked_from};
pub use place::{Failed, Place};
pub use torn::{Deed, TornPlace};
