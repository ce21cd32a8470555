//! What the program's commands do with a table file that is there, over files and whatever bytes are written to.
//!
//! `status` is how a command ends, and `line` the lines that it tells. `opening` opens a table file, `closing` keeps what a run left of
//! one, and `making` makes one of pages in memory. What is asked of a table file alone is told by `asking`: `describe` tells what it
//! holds (`describing`, and `description` for the text), `check` whether each page of it is well (`checking`). `run` runs a script on
//! one, which it may change (`running`), `query` runs statements of the command line so (`querying`) and parts their answers from what
//! tells of them (`parting`), and `append` puts the rows of a CSV file into one (`appending`).
//! It is promised of each of them what it leaves of the files, what it writes and its status, and what a crash leaves of the table file
//! while it works and after it: what that held, or what the whole command leaves.
//! Files come from a source of `ub_files`, scripts belong to `ub_script`, and what words ask for is read by `ub_words`; by which words
//! each command is asked for, and the commands that need no table file that is there, is said above (`ub_shell`).
#![tactic(auto)]

pub mod appending;
pub mod asking;
pub mod checking;
pub mod closing;
pub mod describing;
pub mod description;
pub mod line;
pub mod making;
pub mod opening;
pub mod parting;
pub mod querying;
pub mod running;
pub mod status;
