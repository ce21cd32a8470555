// The statements of a script, as ranges of its tokens.
ghost use Rattle.std.specs.Prelude.{◌≡◌, ◌++◌, ◌↔◌, ℕ, List, IsTrue, IfOk, OnOk};
ghost use Rattle.ub_lexer.specs.Ranges.{range_if};
ghost use Rattle.ub_lexer.specs.Statements.{AreStatements};

use crate::token::{Token, TokenKind};
use std::alloc::{AllocError, Global};

fn is_semicolon(token: &Token) -> bool
    ensures { IsTrue result ↔ (token.now.kind ≡ TokenKind.Semicolon) }
{
    token.kind == TokenKind::Semicolon
}

// Puts a range behind the others, unless it is empty.
fn push_range(ranges: &mut Vec<(usize, usize)>, from: usize, to: usize) -> Result<(), AllocError>
    ensures { OnOk result (ranges.new.items ≡ ranges.old.items ++ range_if from to) }
{
    if from < to {
        ranges.push((from, to))?;
    }
    Ok(())
}

/// The statements of a script, in order: each is the range `from..to` of its tokens, without the semicolon that ends it.
/// Where no token stands between two semicolons there is no statement; the last one needs no semicolon.
///
/// # Errors
///
/// `AllocError` where memory runs out.
pub fn statements(alloc: Global, tokens: &[Token]) -> Result<Vec<(usize, usize)>, AllocError>
    ensures statements { IfOk result (λ ranges. AreStatements tokens.now ranges.items) }

    // There is no other list of them.
    ensures only { (ranges : List (ℕ × ℕ)) → AreStatements tokens.now ranges
        → IfOk result (λ r. r.items ≡ ranges) }
{
    let mut ranges = Vec::new(alloc);
    let mut from = 0;
    for (i, token) in tokens.iter().enumerate() {
        if is_semicolon(token) {
            push_range(&mut ranges, from, i)?;
            from = i + 1;
        }
    }
    push_range(&mut ranges, from, tokens.len())?;
    Ok(ranges)
}
