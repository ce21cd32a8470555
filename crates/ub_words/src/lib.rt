//! What the words of the program's command line ask for, and nothing of how it is done.
//!
//! `builder` makes the command line as `clap` reads it, `given` is what was given for each command, and `words` says what the
//! words ask for. No file is read here and nothing is written.
#![tactic(auto)]

mod builder;
mod given;
pub mod law;
mod words;

pub use given::{
    AppendWords, DataWords, LoadWords, NextWords, QueryWords, RunWords, TableCommand, TableWords,
    TryWords, UpgradeWords,
};
pub use words::{Asked, STANDARD_INPUT, read_words};
