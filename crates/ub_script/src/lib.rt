//! Scripts run on a UB-tree, or on the table of a CSV text: what each statement writes, and where it is written.
//!
//! `output` is what bytes are written to, `text` makes the text of an answer, and `script` runs the statements of a script one
//! after the other, each query by its plan, and each INSERT and DELETE by `changing`, on the table that the statements before it
//! left. `asking` reads a script's words, once, and tells by them whether it may change the table at all. `appending` puts rows in
//! that no statement tells. The grammar and the meaning of a statement, and how plans are carried out, belong to the crates below; no command line
//! is known here.
#![tactic(auto)]

mod appending;
mod asking;
mod changing;
pub mod fault;
pub mod law;
pub mod output;
pub mod script;
pub mod text;

pub use appending::put_rows;
pub use asking::Script;
pub use fault::RunFault;
pub use output::{Out, OutFault, Over, put_all};
pub use script::{Summary, run, try_text};
pub use text::{answer_text, refused_text};
