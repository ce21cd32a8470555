//! Tests of a table's changes, crashed after each call of the place, and healed with a crash after each call of that; of changes
//! that are held in memory until then; and of the pages of a journal.
#![tactic(auto)]

#[cfg(test)]
mod calls;
#[cfg(test)]
mod crashes;
#[cfg(test)]
mod disk;
#[cfg(test)]
mod journal_pages;
#[cfg(test)]
mod overlays;
#[cfg(test)]
mod pages;
