ghost use Rattle.std.specs.Prelude.{◌≡◌, ◌≤◌};
ghost use Rattle.std.specs.Option.{SomeIff};
ghost use Rattle.ub_lexer.specs.Tokens.{text_of};
ghost use Rattle.ub_query.specs.Posed.{greatest_number};
ghost use Rattle.ub_parser.specs.Sense.{number_of};
ghost use Rattle.ub_parser.specs.Spans.{IsWithin, IsDigits};

use ub_lexer::Token;

/// The bytes of a token.
pub(crate) fn text<'a>(source: &'a [u8], token: &Token) -> &'a [u8]
    requires { IsWithin source.now token.now }
    ensures { result.now ≡ text_of source.now token.now }
{
    &source[token.from..token.to]
}

/// The number that the digits of a token write, if it is at most 2^64 - 1.
pub(crate) fn number(source: &[u8], token: &Token) -> Option<u64>
    requires { IsDigits source.now token.now }
    ensures { SomeIff result (number_of source.now token.now ≤ greatest_number)
        (number_of source.now token.now) }
{
    let Ok(digits) = str::from_utf8(text(source, token)) else {
        return None;
    };
    digits.parse::<u64>().ok()
}
