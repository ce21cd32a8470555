// Statements that have more of something than they may.
ghost use Rattle.std.specs.Prelude.{◌≡◌, ◌++◌, ◌∷◌, [], List, drop, slice_get};
ghost use Rattle.std.specs.Option.{option_to_list};
ghost use Rattle.ub_lexer.specs.Tokens.{AreSpelled};
ghost use Rattle.ub_syntax.specs.Grammar.{lexemes, Lexeme, symbol_of, IsStatement};
ghost use Rattle.ub_syntax.specs.Limits.{past_limits_of};
ghost use Rattle.ub_syntax.specs.Marks as spec;
ghost use Rattle.ub_syntax.specs.Tree.{Stated};
ghost use Rattle.ub_syntax.specs.declared.limits.Mark.{Mark};

use crate::symbol::{Symbol, symbol_of};
use ub_lexer::Token;

// How many items, group columns or order keys a statement has at most.
const MOST_PARTS: usize = 8;

// How many comparisons it has at most.
const MOST_COMPARISONS: usize = 64;

// What two tokens, one after the other, tell.
#[derive(Clone, Copy)]
pub(crate) enum Mark {
    // A list of items, group columns or order keys begins with its first.
    First,
    // This token begins another part of the list.
    Next(Token),
    // This token is the column of a comparison.
    Column(Token),
}

// The token read last, and how much may still come.
#[derive(Drop)]
struct Counter {
    previous: Token,
    symbol: Symbol,
    // parts of the list
    parts: usize,
    comparisons: usize,
}

impl Counter {
    // Reads a token, which is this symbol, and gives the first token that is one too many.
    fn read(&mut self, token: Token, symbol: Symbol) -> Option<Token>
        ensures tells { (marks : List Mark) → spec.past self.old.parts self.old.comparisons
            (option_to_list (spec.seen self.old.symbol self.old.previous symbol token) ++ marks)
            ≡ option_to_list result ++ spec.past self.new.parts self.new.comparisons marks }
        ensures previous { self.new.previous ≡ token }
        ensures symbol { self.new.symbol ≡ symbol }
    {
        let mark = seen(self.symbol, self.previous, symbol, token);
        self.previous = token;
        self.symbol = symbol;
        match mark {
            Some(mark) => self.count(mark),
            None => None,
        }
    }

    // Counts what a mark tells, and gives its token if that is one too many.
    fn count(&mut self, mark: Mark) -> Option<Token>
        ensures tells { (marks : List Mark) → spec.past self.old.parts self.old.comparisons
            (mark ∷ marks)
            ≡ option_to_list result ++ spec.past self.new.parts self.new.comparisons marks }
        ensures previous { self.new.previous ≡ self.old.previous }
        ensures symbol { self.new.symbol ≡ self.old.symbol }
    {
        match mark {
            Mark::First => {
                self.parts = MOST_PARTS - 1;
                None
            }
            Mark::Next(token) => counted(&mut self.parts, token),
            Mark::Column(token) => counted(&mut self.comparisons, token),
        }
    }
}

// Takes one of those that may still come, or gives the token where none may.
fn counted(left: &mut usize, token: Token) -> Option<Token>
    ensures past { option_to_list result ≡ drop left.old (token ∷ []) }
    ensures left { left.new ≡ spec.less left.old }
{
    if *left == 0 {
        return Some(token);
    }
    *left -= 1;
    None
}

// What a symbol and its token tell with the next.
fn seen(before: Symbol, previous: Token, symbol: Symbol, token: Token) -> Option<Mark>
    ensures { result ≡ spec.seen before previous symbol token }
{
    match (before, symbol) {
        (_, Symbol::Operator(_) | Symbol::Between) => Some(Mark::Column(previous)),
        (Symbol::Select | Symbol::By, _) => Some(Mark::First),
        (Symbol::Comma, _) => Some(Mark::Next(token)),
        _ => None,
    }
}

/// The first token at which the statement that the tokens are has more than 8 items, 64 comparisons, 8 group columns or 8
/// order keys; an INSERT has none. One look at each token, whatever the condition's depth, and no memory. Of other tokens
/// nothing is said.
pub fn too_many(source: &[u8], tokens: &[Token]) -> Option<Token>
    requires { AreSpelled source.now tokens.now }
    ensures { (s : Stated) → IsStatement 64 (lexemes source.now tokens.now) s
        → result ≡ slice_get (past_limits_of s) 0 }
{
    let (first, others) = tokens.split_first()?;
    let symbol = symbol_of(source, first);
    // The values of an INSERT have commas between them, and no limit.
    if symbol == Symbol::Insert {
        return None;
    }
    let mut counter = Counter {
        previous: *first,
        symbol,
        parts: MOST_PARTS,
        comparisons: MOST_COMPARISONS,
    };
    for token in others {
        if let Some(past) = counter.read(*token, symbol_of(source, token)) {
            return Some(past);
        }
    }
    None
}
