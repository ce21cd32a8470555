//! Statements: what a statement of a script asks of a table, or why it is refused.
//!
//! The grammar is the crate below's (`ub_syntax`): it builds the syntax of a statement from its tokens. This crate looks at
//! the names and numbers that stand in it: which refusal comes first (specs/Refusals), what a statement that is accepted asks
//! (specs/Sense). What a query means is said by the crate of queries (`ub_query`), and how it is answered is the part of the
//! crates above.
#![tactic(auto)]

ghost use Rattle.ub_parser.specs.Outcome.{IsOutcome};

mod check;
mod columns;
pub mod fault;
mod grouping;
mod items;
pub mod parser;
mod sense;
pub mod statement;
mod text;
mod tokens;
mod values;

pub use fault::SqlFault;
pub use parser::parse;
pub use statement::Statement;
pub use ub_query::{Aggregate, Cond, Item, Items, Operator, Query, SortKey};
