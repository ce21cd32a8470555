ghost use Rattle.std.specs.Prelude.{◌≡◌, ◌<◌, length, IfOk};
ghost use Rattle.ub_lexer.specs.Tokens.{AreSpelled};
ghost use Rattle.ub_syntax.specs.Grammar.{lexemes};
ghost use Rattle.ub_syntax.specs.Verdicts.{IsVerdict, refused_at};
ghost use Rattle.ub_syntax.specs.declared.recogniser.Verdict.{Verdict};

use crate::machine::{Machine, Refusal};
use crate::symbol::symbol_of;
use std::alloc::{AllocError, Global};
use ub_lexer::Token;

/// What a list of tokens is to the grammar.
#[derive(Clone, Copy, PartialEq, Eq, Debug)]
pub enum Verdict {
    Statement,
    /// No statement. The first token with which no statement goes on begins at this offset; where each goes on, the
    /// statement isn't complete, and this is the offset where its last token ends.
    Syntax { at: usize },
    /// The token that begins at this offset is a `(` or NOT inside as many of them as may stand one in the other, and a
    /// statement that might nest deeper could go on with it.
    TooDeep { at: usize },
}

/// What these tokens are to the grammar, with at most 64 parentheses and NOTs round a place of the condition. `AllocError`
/// only where memory is refused.
pub fn recognise(alloc: Global, source: &[u8], tokens: &[Token]) -> Result<Verdict, AllocError>
    requires some { 0 < length tokens.now }
    requires spelled { AreSpelled source.now tokens.now }
    ensures verdict { IfOk result (λ verdict. IsVerdict 64 (lexemes source.now tokens.now)
        verdict) }
    // there is no other
    ensures only { (v : Verdict) → IsVerdict 64 (lexemes source.now tokens.now) v
        → IfOk result (λ verdict. verdict ≡ v) }
{
    let mut machine = Machine::new(alloc);
    for token in tokens {
        if let Err(refusal) = machine.read(symbol_of(source, token))? {
            return Ok(refused(refusal, token.from));
        }
    }
    if machine.can_end() {
        Ok(Verdict::Statement)
    } else {
        Ok(Verdict::Syntax {
            at: tokens[tokens.len() - 1].to,
        })
    }
}

// The verdict where a token that begins here is refused.
fn refused(refusal: Refusal, at: usize) -> Verdict
    ensures { result ≡ refused_at refusal at }
{
    match refusal {
        Refusal::Syntax => Verdict::Syntax { at },
        Refusal::TooDeep => Verdict::TooDeep { at },
    }
}
