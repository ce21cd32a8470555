ghost use Rattle.std.specs.Prelude.{◌≡◌, ◌≤◌, ◌↔◌, false, length, map};
ghost use Rattle.ub_lexer.specs.Tokens.{text_of};
ghost use Rattle.ub_syntax.specs.Symbols as spec;
ghost use Rattle.ub_table.specs.Name.{is_keyword};

use ub_lexer::{Token, TokenKind};
use ub_query::{Aggregate, Operator};

/// What a token is to the grammar.
#[derive(Clone, Copy, PartialEq, Eq, Debug)]
pub enum Symbol {
    Select,
    Explain,
    From,
    Where,
    And,
    Or,
    Not,
    Between,
    Group,
    Order,
    By,
    Ascending,
    Descending,
    Limit,
    Insert,
    Into,
    Values,
    Delete,
    Count,
    /// SUM, MIN or MAX.
    Aggregate(Aggregate),
    /// A word that is no keyword.
    Name,
    Number,
    Comma,
    Open,
    Close,
    Star,
    /// A sign of comparison.
    Operator(Operator),
    Minus,
    /// A token that stands in no statement: a semicolon or a bad byte.
    Other,
}

// The words of the language, and what each is. Those of an INSERT come first, since the longest scripts are made of them.
const KEYWORDS: [(&str, Symbol); 22] = [
    ("INSERT", Symbol::Insert),
    ("INTO", Symbol::Into),
    ("VALUES", Symbol::Values),
    ("SELECT", Symbol::Select),
    ("EXPLAIN", Symbol::Explain),
    ("FROM", Symbol::From),
    ("WHERE", Symbol::Where),
    ("AND", Symbol::And),
    ("OR", Symbol::Or),
    ("NOT", Symbol::Not),
    ("BETWEEN", Symbol::Between),
    ("GROUP", Symbol::Group),
    ("ORDER", Symbol::Order),
    ("BY", Symbol::By),
    ("ASC", Symbol::Ascending),
    ("DESC", Symbol::Descending),
    ("LIMIT", Symbol::Limit),
    ("COUNT", Symbol::Count),
    ("SUM", Symbol::Aggregate(Aggregate::Sum)),
    ("MIN", Symbol::Aggregate(Aggregate::Min)),
    ("MAX", Symbol::Aggregate(Aggregate::Max)),
    ("DELETE", Symbol::Delete),
];

/// The symbol that a token of the source is: a word's is that of the keyword which it is in any mix of cases, or `Name`.
#[tactic(auto, unfolding(crate::specs::Symbols::keywords))]
pub fn symbol_of(source: &[u8], token: &Token) -> Symbol
    requires span { token.now.from ≤ token.now.to }
    requires within { token.now.to ≤ length source.now }
    ensures symbol { result ≡ spec.symbol token.now.kind (text_of source.now token.now) }
    // what no name may be is a keyword here, and nothing else
    ensures keywords { token.now.kind ≡ TokenKind.Word
        → (result ≡ Symbol.Name) ↔ (is_keyword (text_of source.now token.now) ≡ false) }
{
    match token.kind {
        TokenKind::Word => symbol_among(&KEYWORDS, &source[token.from..token.to]),
        TokenKind::Number => Symbol::Number,
        TokenKind::Comma => Symbol::Comma,
        TokenKind::OpenParenthesis => Symbol::Open,
        TokenKind::CloseParenthesis => Symbol::Close,
        TokenKind::Star => Symbol::Star,
        TokenKind::Equal => Symbol::Operator(Operator::Equal),
        TokenKind::NotEqual => Symbol::Operator(Operator::NotEqual),
        TokenKind::Less => Symbol::Operator(Operator::Less),
        TokenKind::AtMost => Symbol::Operator(Operator::AtMost),
        TokenKind::Greater => Symbol::Operator(Operator::Greater),
        TokenKind::AtLeast => Symbol::Operator(Operator::AtLeast),
        TokenKind::Minus => Symbol::Minus,
        TokenKind::Semicolon | TokenKind::Bad => Symbol::Other,
    }
}

// The symbol of the first of these words that the text is, in any mix of cases, or `Name`.
fn symbol_among(words: &[(&str, Symbol)], text: &[u8]) -> Symbol
    ensures { result ≡ spec.symbol_among (map (λ word. (word.0.now, word.1)) words.now) text.now }
{
    for (word, symbol) in words {
        if word.as_bytes().eq_ignore_ascii_case(text) {
            return *symbol;
        }
    }
    Symbol::Name
}
