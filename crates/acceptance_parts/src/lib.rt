//! Tests of what stands below a tree, where no transcript can show it: the places of tokens, the syntax that is built of them, the
//! boxes of conditions that have too many for a transcript, the plan of a query that no statement asks, rows of one answer put after
//! those of another one, the nearest addresses of many boxes, and the regions that rows make with no store. The values come from hand
//! arithmetic, never from the program's own output.
//!
//! And of an index of several levels (`index_..`): searches in hand-made indexes, changes of them, and stores that fail at one call;
//! `index_trial` has the steps that they are made of. Their values come from hand arithmetic and from models that are written apart.
//! The index that is built of a directory of format 1 is text of `tree_transcripts`.
#![tactic(auto)]

#[cfg(test)]
mod answer;
#[cfg(test)]
mod boxes;
#[cfg(test)]
mod cases;
#[cfg(test)]
mod growing;
#[cfg(test)]
mod index_changes;
#[cfg(test)]
mod index_faults;
#[cfg(test)]
mod index_held;
#[cfg(test)]
mod index_keys;
#[cfg(test)]
mod index_levels;
#[cfg(test)]
mod index_opening;
#[cfg(test)]
mod index_pages;
#[cfg(test)]
mod index_searches;
#[cfg(test)]
mod index_trial;
#[cfg(test)]
mod lexer;
#[cfg(test)]
mod nearest;
#[cfg(test)]
mod planning;
#[cfg(test)]
mod syntax;
