//! The program's commands over the words of its command line, files and whatever bytes are written to.
//!
//! `command` runs what the command line asks for. The commands on a table file that is there belong to `ub_table_file`: `run`, `query`,
//! `append`, `describe` and `check`, with the lines that are told and the statuses. Here are those that need none: `load` makes a table
//! file (`loading`), `upgrade` makes one of an older version anew (`upgrading`), `try` runs a script on a table in memory (`trial`), and
//! `next` tells the addresses of a box. `program` is the last step, over any two writers. `hinting` tells people at a terminal what was
//! refused: it reads anew what the words named (`reading`), and the texts are those of `ub_hints`. `law` has the laws of all commands: what each
//! leaves of a table, also after a fault or a crash.
//! What words ask for is read by `ub_words`, files come from a source of `ub_files`, the neighbours of an address from `ub_next`, and
//! scripts belong to `ub_script`; names of these that a program needs are passed on here.
#![tactic(auto)]

pub mod command;
pub mod hinting;
pub mod law;
pub mod loading;
pub mod next;
pub mod program;
mod reading;
pub mod trial;
pub mod upgrading;

pub use hinting::hint;
pub use program::{WordsFault, program_words, run_program};
pub use ub_files::Files;
pub use ub_load::LastRead;
pub use ub_script::{Out, OutFault, Over, RunFault, Summary, put_all, run, try_text};
pub use ub_table_file::status::Status;
