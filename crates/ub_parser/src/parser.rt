ghost use Rattle.std.specs.Prelude.{◌≡◌, ◌<◌, ◌⊎◌, [], length, Contains, IfOk, IfErr, MatchResult};
ghost use Rattle.std.specs.List.{All};
ghost use Rattle.ub_lexer.specs.Tokens.{AreSpelled};
ghost use Rattle.ub_syntax.specs.Grammar.{lexemes, IsStatement};
ghost use Rattle.ub_syntax.specs.Limits.{past_limits, past_limits_of};
ghost use Rattle.ub_syntax.specs.Tree.{Stated, select_of};
ghost use Rattle.ub_parser.specs.Known.{IsAskedOver};
ghost use Rattle.ub_parser.specs.Outcome.{Command, command, asks, IsAccepted, IsGiven};
ghost use Rattle.ub_parser.specs.Refusals.{IsFirstFault, IsFirstMisfit, IsMisfit, IsTooLarge, names};
ghost use Rattle.ub_parser.specs.Sense.{sense_of};
ghost use Rattle.ub_parser.specs.Spans.{IsWithin, AreWritten};
ghost use Rattle.ub_lexer.specs.Tokens.{text_of};
ghost use Rattle.ub_query.specs.Shape.{asked};
ghost use Rattle.ub_parser.specs.declared.fault.SqlFault.{SqlFault};

use crate::check::{misgrouped, unknown_name};
use crate::fault::SqlFault;
use crate::sense::query;
use crate::statement::Statement;
use crate::tokens::{bad_byte, number_too_large};
use crate::values::values;
use std::alloc::Global;
use ub_lexer::{Token, TokenKind};
use ub_query::{Items, Query};
use ub_syntax::{Sentence, Syntax, Verdict, build, recognise, too_many};
use ub_table::Schema;

/// What the tokens of one statement ask of a table of this schema, or do to it; or why it is refused: of the conditions that hold the
/// first in the order of `SqlFault`, with the offset where it is seen. `Memory` only where memory is refused.
pub fn parse(
    alloc: Global,
    source: &[u8],
    tokens: &[Token],
    schema: &Schema,
) -> Result<Statement, SqlFault>
    requires some { 0 < length tokens.now }
    requires spelled { AreSpelled source.now tokens.now }
    ensures accepted { IfOk result (λ s. IsAccepted source.now schema.now tokens.now
        (command s)) }
    // there is nothing else that they say
    ensures only { (c : Command) → IsAccepted source.now schema.now tokens.now c
        → MatchResult result (λ s. command s ≡ c) (λ fault. fault ≡ SqlFault.Memory) }
    ensures refused { IfErr result (λ fault. (fault ≡ SqlFault.Memory)
        ⊎ IsFirstFault source.now schema.now tokens.now fault) }
    // nor anything else for which they are refused
    ensures only_fault { (f : SqlFault) → IsFirstFault source.now schema.now tokens.now f
        → IfErr result (λ fault. (fault ≡ SqlFault.Memory) ⊎ (fault ≡ f)) }
    ensures given { IfOk result (λ s. IsGiven schema.now (command s)) }
{
    if let Some(fault) = bad_byte(tokens) {
        return Err(fault);
    }
    let verdict = recognise(alloc, source, tokens)?;
    if let Verdict::Syntax { at } = verdict {
        return Err(SqlFault::Syntax { at });
    }
    if let Some(fault) = number_too_large(source, tokens) {
        return Err(fault);
    }
    if let Verdict::TooDeep { at } = verdict {
        return Err(SqlFault::TooDeep { at });
    }
    if let Some(token) = too_many(source, tokens) {
        return Err(SqlFault::TooMany { at: token.from });
    }
    sense(alloc, source, tokens, schema)
}

// The same of tokens that are a statement of the grammar within its limits, where no byte is bad and no number too large.
fn sense(
    alloc: Global,
    source: &[u8],
    tokens: &[Token],
    schema: &Schema,
) -> Result<Statement, SqlFault>
    requires spelled { AreSpelled source.now tokens.now }
    requires bytes { All (λ t. ¬ (t.kind ≡ TokenKind.Bad)) tokens.now }
    requires numbers { All (λ t. ¬ (IsTooLarge source.now t)) tokens.now }
    requires statement { (s : Stated) × IsStatement 64 (lexemes source.now tokens.now) s }
    requires few { (s : Stated) → IsStatement 64 (lexemes source.now tokens.now) s
        → past_limits_of s ≡ [] }
    ensures accepted { IfOk result (λ s. IsAccepted source.now schema.now tokens.now
        (command s)) }
    ensures only { (c : Command) → IsAccepted source.now schema.now tokens.now c
        → MatchResult result (λ s. command s ≡ c) (λ fault. fault ≡ SqlFault.Memory) }
    ensures refused { IfErr result (λ fault. (fault ≡ SqlFault.Memory)
        ⊎ IsFirstFault source.now schema.now tokens.now fault) }
    ensures only_fault { (f : SqlFault) → IsFirstFault source.now schema.now tokens.now f
        → IfErr result (λ fault. (fault ≡ SqlFault.Memory) ⊎ (fault ≡ f)) }
    ensures given { IfOk result (λ s. IsGiven schema.now (command s)) }
{
    let sentence = build(alloc, source, tokens)?;
    match sentence {
        Sentence::Select(syntax) => {
            let query = selected(alloc, source, schema, &syntax)?;
            Ok(statement(syntax.is_explained, query))
        }
        Sentence::Insert(insertion) => {
            let values = values(alloc, source, schema, &insertion)?;
            Ok(Statement::Insert(Items::new(values)))
        }
        Sentence::Delete(syntax) => {
            let query = selected(alloc, source, schema, &syntax)?;
            Ok(Statement::Delete(query))
        }
    }
}

// What the syntax of a SELECT within the limits asks of a table of the schema, or why that is refused.
fn selected(
    alloc: Global,
    source: &[u8],
    schema: &Schema,
    syntax: &Syntax,
) -> Result<Query, SqlFault>
    requires table { IsWithin source.now syntax.now.table }
    requires written { AreWritten source.now (select_of syntax.now) }
    requires few { past_limits (select_of syntax.now) ≡ [] }
    ensures asked { IfOk result
        (λ q. asked q ≡ sense_of source.now schema.now (select_of syntax.now)) }
    ensures over { IfOk result (λ q. IsAskedOver (length schema.now.columns) (asked q)) }
    ensures known { IfOk result (λ _. All
        (λ name. Contains schema.now.columns (text_of source.now name))
        (names (select_of syntax.now))) }
    ensures fits { IfOk result (λ _. (fault : SqlFault)
        → ¬ IsMisfit source.now schema.now (select_of syntax.now) fault) }
    ensures refused { IfErr result (λ fault. (fault ≡ SqlFault.Memory)
        ⊎ IsFirstMisfit source.now schema.now (select_of syntax.now) fault) }
{
    if let Some(fault) = unknown_name(source, schema, syntax) {
        return Err(fault);
    }
    let query = query(alloc, source, schema, syntax)?;
    if let Some(fault) = misgrouped(source, schema, syntax, query.has_groups()) {
        return Err(fault);
    }
    Ok(query)
}

// The statement of a query, which is explained or not.
fn statement(is_explained: bool, query: Query) -> Statement
    ensures { command result
        ≡ asks (record { is_explained = is_explained; asked = asked query }) }
{
    if is_explained {
        Statement::Explain(query)
    } else {
        Statement::Select(query)
    }
}
