//! Syntax: which lists of tokens are statements, and how a statement is built from its tokens.
//!
//! This crate knows the grammar and nothing of tables: it says where the tokens stop being the front of a statement, and it
//! builds a statement's syntax, whose names and numbers are still the tokens that spell them. The grammar stands in specs/
//! (`Grammar`), and so does what a refusal says (`Stop`). What names mean, and which of them a table has, is the parser's part.
#![tactic(auto)]

mod builder;
mod limits;
mod machine;
pub mod recogniser;
pub mod symbol;
pub mod syntax;

pub use builder::build;
pub use limits::too_many;
pub use recogniser::{Verdict, recognise};
pub use symbol::{Symbol, symbol_of};
pub use syntax::{
    Condition, Insertion, Item, Literal, OrderKey, Selection, Sentence, Syntax, Value,
};
pub use ub_query::{Aggregate, Items, Operator};
