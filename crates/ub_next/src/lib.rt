//! The addresses of a box that are nearest to an address, asked in the words of a command line and answered as lines.
//!
//! No table and no file is needed for it: `next` reads the corners of the box and the address, finds the neighbours, and makes
//! the text of the answer or of what is wrong. Who writes that text, and how a program then ends, is not said here.
#![tactic(auto)]

pub mod next;

pub use next::{Neighbours, NextFault, answer_text, neighbours_of};
