//! The words of a script: `lex` cuts a source into tokens with their spans, and `statements` says which tokens make up
//! each statement between the semicolons. What belongs here is the spelling of tokens (letters, digits, signs, comments)
//! and nothing of the grammar: keywords, names and what a statement means are the parser's.
#![tactic(auto)]

pub mod lexer;
pub mod statement;
pub mod token;

pub use lexer::lex;
pub use statement::statements;
pub use token::{Token, TokenKind};
