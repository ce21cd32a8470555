// The items of a statement.
ghost use Rattle.std.specs.Prelude.{◌≡◌};
ghost use Rattle.ub_syntax.specs.Limits as spec;

use ub_lexer::Token;
use ub_syntax::{Item, Selection};

/// The items that are written; `*` is none.
pub(crate) fn listed(selection: &Selection) -> &[Item]
    ensures { result.now ≡ spec.listed selection.now }
{
    match selection {
        Selection::All(_) => &[],
        Selection::Listed(items) => items.as_slice(),
    }
}

/// The token with which an item begins.
pub(crate) fn first_token(item: &Item) -> Token
    ensures { result ≡ spec.first_token item.now }
{
    match item {
        Item::Column(token) | Item::Count(token) | Item::Aggregate(_, token, _) => *token,
    }
}
