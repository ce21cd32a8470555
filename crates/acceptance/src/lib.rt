//! Tests across crates that no transcript can show (those that one can stand in the crate `transcripts`): the words of faults as
//! they are displayed, loads into stores that fail and scripts over them, a changed file that isn't closed, outputs that fail, scripts of any bytes and of many
//! statements, and where the regions of a signed dimension begin and end. The values come from worked sources and hand arithmetic, never from
//! the program's own output.
#![tactic(auto)]

#[cfg(test)]
mod again;
#[cfg(test)]
mod appended;
#[cfg(test)]
mod changes;
#[cfg(test)]
mod failing;
#[cfg(test)]
mod faults;
#[cfg(test)]
mod loads;
#[cfg(test)]
mod outputs;
#[cfg(test)]
mod scripts;
#[cfg(test)]
mod signed;
#[cfg(test)]
mod worked;
