//! The files of the system, as commands use them.
//!
//! Texts are read whole, or piece after piece (`text`). A table file is opened and locked (`opening`, `lock`), and with what stands
//! beside it it is a place (`place`) at which `ub_keeping` reads it, changes it and makes it anew; `host` puts these together, and
//! `missed` says for people what couldn't be done with which file.
//!
//! That the system does as it says is a premise (`specs/Host`): of a place nothing is proved but how many of its calls failed. What
//! is left to be read is that each of its calls is the one of the system that it is meant to be.
#![tactic(auto)]

mod host;
mod lock;
mod missed;
mod opening;
mod place;
mod text;

pub use host::HostFiles;
pub use lock::Lock;
pub use missed::Missed;
pub use text::HostText;
