// Why a statement whose syntax is known is refused.
ghost use Rattle.std.specs.Prelude.{◌≡◌, ◌≢◌, ◌↔◌, [], Contains, IsTrue, MatchOption};
ghost use Rattle.std.specs.List.{All};
ghost use Rattle.std.specs.Option.{IfNone};
ghost use Rattle.ub_lexer.specs.Tokens.{text_of};
ghost use Rattle.ub_syntax.specs.Limits.{past_limits};
ghost use Rattle.ub_syntax.specs.Tree.{select_of};
ghost use Rattle.ub_parser.specs.Known.{IsColumn, IsNamed};
ghost use Rattle.ub_parser.specs.Refusals.{IsFirstMisfit, IsGrouping, IsMisfit, names};
ghost use Rattle.ub_parser.specs.Spans.{IsWithin};
ghost use Rattle.ub_parser.specs.declared.fault.SqlFault.{SqlFault};

use crate::columns::unknown_column;
use crate::fault::SqlFault;
use crate::grouping::{not_grouped, not_selected};
use crate::items::first_token;
use crate::text::text;
use ub_lexer::Token;
use ub_syntax::Syntax;
use ub_table::Schema;

/// Why a statement of this syntax is refused over a table of the schema for its names: the first of `UnknownTable` and
/// `UnknownColumn` that holds. It is within the limits, as the caller has found. Takes no memory.
pub(crate) fn unknown_name(source: &[u8], schema: &Schema, syntax: &Syntax) -> Option<SqlFault>
    requires table { IsWithin source.now syntax.now.table }
    requires names { All (λ t. IsWithin source.now t) (names (select_of syntax.now)) }
    requires few { past_limits (select_of syntax.now) ≡ [] }
    ensures first { MatchOption result
        (IsNamed source.now schema.now (select_of syntax.now))
        (λ fault. IsFirstMisfit source.now schema.now (select_of syntax.now) fault) }
    // where nothing is refused, each name is a column
    ensures known { IfNone result (All
        (λ name. Contains schema.now.columns (text_of source.now name))
        (names (select_of syntax.now))) }
{
    if is_unknown_table(source, schema, &syntax.table) {
        return Some(SqlFault::UnknownTable {
            at: syntax.table.from,
        });
    }
    if let Some(name) = unknown_column(source, schema, syntax) {
        return Some(SqlFault::UnknownColumn { at: name.from });
    }
    None
}

/// Why a statement whose names are known is refused for what it selects and orders by: the first of `NotGrouped` and
/// `NotSelected` that holds. Whether it gives groups is told by the query that it asks. Takes no memory.
pub(crate) fn misgrouped(
    source: &[u8],
    schema: &Schema,
    syntax: &Syntax,
    has_groups: bool,
) -> Option<SqlFault>
    requires names { All (λ t. IsColumn source.now schema.now t) (names (select_of syntax.now)) }
    requires named { IsNamed source.now schema.now (select_of syntax.now) }
    requires groups { IsTrue has_groups ↔ IsGrouping (select_of syntax.now) }
    ensures { MatchOption result
        ((fault : SqlFault) → ¬ IsMisfit source.now schema.now (select_of syntax.now) fault)
        (λ fault. IsFirstMisfit source.now schema.now (select_of syntax.now) fault) }
{
    if let Some(token) = not_grouped(source, syntax, has_groups) {
        return Some(SqlFault::NotGrouped { at: token.from });
    }
    if let Some(key) = not_selected(source, schema, syntax, has_groups) {
        return Some(SqlFault::NotSelected {
            at: first_token(&key).from,
        });
    }
    None
}

/// Whether the token is another name than the table's, case included.
pub(crate) fn is_unknown_table(source: &[u8], schema: &Schema, table: &Token) -> bool
    requires { IsWithin source.now table.now }
    ensures { IsTrue result ↔ (text_of source.now table.now ≢ schema.now.name) }
{
    text(source, table) != schema.name().bytes()
}
