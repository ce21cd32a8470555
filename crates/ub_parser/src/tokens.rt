ghost use Rattle.std.specs.Prelude.{◌≡◌, ◌<◌, ◌↔◌, IsTrue};
ghost use Rattle.ub_lexer.specs.Tokens.{AreSpelled};
ghost use Rattle.ub_parser.specs.Firsts.{IsRefusalAtFirst};
ghost use Rattle.ub_parser.specs.Refusals.{IsTooLarge};
ghost use Rattle.ub_parser.specs.Sense.{number_of};
ghost use Rattle.ub_parser.specs.Spans.{IsDigits, IsSpelled};
ghost use Rattle.ub_query.specs.Posed.{greatest_number};

use crate::fault::SqlFault;
use crate::text::number;
use ub_lexer::{Token, TokenKind};

// So many digits write a number below 2^64, whichever they are.
const SHORT: usize = 19;

/// `BadByte` at the first byte that begins no token, if there is one.
pub(crate) fn bad_byte(tokens: &[Token]) -> Option<SqlFault>
    ensures { IsRefusalAtFirst (λ t. t.kind ≡ TokenKind.Bad) (λ at. SqlFault.BadByte at) tokens.now
        result }
{
    for token in tokens {
        if token.kind == TokenKind::Bad {
            return Some(SqlFault::BadByte { at: token.from });
        }
    }
    None
}

/// `NumberTooLarge` at the first number above 2^64 - 1, if there is one.
pub(crate) fn number_too_large(source: &[u8], tokens: &[Token]) -> Option<SqlFault>
    requires { AreSpelled source.now tokens.now }
    ensures { IsRefusalAtFirst (λ t. IsTooLarge source.now t)
        (λ at. SqlFault.NumberTooLarge at) tokens.now result }
{
    for token in tokens {
        if is_too_large(source, token) {
            return Some(SqlFault::NumberTooLarge { at: token.from });
        }
    }
    None
}

// Whether the token is a number above 2^64 - 1.
fn is_too_large(source: &[u8], token: &Token) -> bool
    requires { IsSpelled source.now token.now }
    ensures { IsTrue result ↔ IsTooLarge source.now token.now }
{
    token.kind == TokenKind::Number && is_past_limit(source, token)
}

// Whether the number that the digits of a token write is above 2^64 - 1.
fn is_past_limit(source: &[u8], digits: &Token) -> bool
    requires { IsDigits source.now digits.now }
    ensures { IsTrue result ↔ (greatest_number < number_of source.now digits.now) }
{
    if digits.to - digits.from <= SHORT {
        return false;
    }
    number(source, digits).is_none()
}
