//! What people are told beside a refusal, where they sit at a terminal: where in which file it is, what stands there, and for words
//! that other databases have what to write here in their place. Nothing is promised of these texts. They are made of what was read
//! already, so making them changes no file; `ub_shell` reads it (`hinting` there), and promises that. Which paths are read again is
//! promised here (`named_by`); of a CSV file that was to be loaded that is none, since what was read last of it was kept.
//!
//! `telling` is the whole of it: which files a command line names, and what is told by what was read of them. Of a CSV text
//! `data` tells the first thing that is wrong, by its `heading` and one of its records (`record`); of a script `statements` tells its
//! first refused statements, `excerpt` shows the line with a mark below it, and `advice` says what to write instead. `shown` is how bytes
//! of a file are shown, `names` how columns are listed, and `told` a text in the making, into which all of them put their parts. The
//! refusals are those of the crates below, found again by the calls that found them first.
#![tactic(auto)]

mod advice;
mod data;
mod excerpt;
mod heading;
mod names;
mod record;
mod shown;
mod statements;
mod telling;
mod told;

pub use telling::{Found, Named, named_by, text_on};
