// Cuts a source into its pieces, and keeps those that are tokens.
ghost use Rattle.std.specs.Prelude.{◌≡◌, ◌<◌, ◌≤◌, ◌+◌, ◌++◌, length, slice_index, IsTrue, IsFalse, IfOk, OnOk, MatchOption, List, [], ◌∷◌};
ghost use Rattle.std.specs.Char.{is_ascii_digit};
ghost use Rattle.ub_lexer.specs.Text.{is_separator, is_letter, is_word_byte, IsSpelling};
ghost use Rattle.ub_lexer.specs.Tokens.{AreTokens, AreSpelled, SpansAscend};
ghost use Rattle.ub_lexer.specs.declared.token.Token.{Token};
ghost use Rattle.ub_lexer.specs.Pieces.{goes_on, IsRun, IsPair, IsPieceAt, token_if};

use crate::token::{Token, TokenKind};
use std::alloc::{AllocError, Global};

/// What a run of bytes belongs to.
#[derive(Clone, Copy)]
enum Run {
    OfWord,
    OfNumber,
    OfComment,
}

/// What stands at a place of a source: a token of a kind, or a separator or comment, and where it ends.
#[derive(Clone, Copy)]
struct Cut {
    kind: Option<TokenKind>,
    to: usize,
}

fn is_separator(byte: u8) -> bool
    ensures { result ≡ is_separator byte }
{
    byte == b' ' || byte == b'\t' || byte == b'\n' || byte == b'\r'
}

fn is_letter(byte: u8) -> bool
    ensures { result ≡ is_letter byte }
{
    byte.is_ascii_alphabetic() || byte == b'_'
}

fn goes_on(run: Run, byte: u8) -> bool
    ensures { result ≡ goes_on run byte }
{
    match run {
        Run::OfWord => is_letter(byte) || byte.is_ascii_digit(),
        Run::OfNumber => byte.is_ascii_digit(),
        Run::OfComment => byte != b'\n',
    }
}

// The byte at a place, or 0 past the end.
fn byte_at(source: &[u8], at: usize) -> u8
    ensures value { result ≡ slice_index source.now at }
    ensures inside { 0 < result → at < length source.now }
{
    if at < source.len() { source[at] } else { 0 }
}

// Where the run ends that goes on from here.
fn run_end(source: &[u8], from: usize, run: Run) -> usize
    requires { from ≤ length source.now }
    ensures { IsRun (goes_on run) source.now from result }
{
    let mut to = from;
    while to < source.len() && goes_on(run, source[to]) {
        to += 1;
    }
    to
}

// The kind of the sign that two bytes are.
fn pair_kind(first: u8, next: u8) -> Option<TokenKind>
    ensures { MatchOption result (¬ (IsPair first next))
        (λ kind. IsPair first next × IsSpelling kind (first ∷ next ∷ [])) }
{
    match (first, next) {
        (b'<', b'>') | (b'!', b'=') => Some(TokenKind::NotEqual),
        (b'<', b'=') => Some(TokenKind::AtMost),
        (b'>', b'=') => Some(TokenKind::AtLeast),
        _ => None,
    }
}

// The kind of the token that one byte is by itself.
fn single_kind(byte: u8) -> TokenKind
    requires no_separator { IsFalse (is_separator byte) }
    requires no_word { IsFalse (is_word_byte byte) }
    ensures { IsSpelling result (byte ∷ []) }
{
    match byte {
        b',' => TokenKind::Comma,
        b'(' => TokenKind::OpenParenthesis,
        b')' => TokenKind::CloseParenthesis,
        b'*' => TokenKind::Star,
        b';' => TokenKind::Semicolon,
        b'=' => TokenKind::Equal,
        b'<' => TokenKind::Less,
        b'>' => TokenKind::Greater,
        b'-' => TokenKind::Minus,
        _ => TokenKind::Bad,
    }
}

// The sign, the comment or the bad byte that stands at a place.
fn sign_at(source: &[u8], at: usize) -> Cut
    requires inside { at < length source.now }
    requires no_separator { IsFalse (is_separator (slice_index source.now at)) }
    requires no_word { IsFalse (is_word_byte (slice_index source.now at)) }
    ensures { IsPieceAt source.now at result.kind result.to }
{
    let first = source[at];
    let next = byte_at(source, at + 1);
    if first == b'-' && next == b'-' {
        return Cut {
            kind: None,
            to: run_end(source, at + 2, Run::OfComment),
        };
    }
    match pair_kind(first, next) {
        Some(kind) => Cut {
            kind: Some(kind),
            to: at + 2,
        },
        None => Cut {
            kind: Some(single_kind(first)),
            to: at + 1,
        },
    }
}

// What stands at a place: a separator, a comment or the longest token.
fn piece_at(source: &[u8], at: usize) -> Cut
    requires { at < length source.now }
    ensures { IsPieceAt source.now at result.kind result.to }
{
    let first = source[at];
    if is_separator(first) {
        Cut {
            kind: None,
            to: at + 1,
        }
    } else if is_letter(first) {
        Cut {
            kind: Some(TokenKind::Word),
            to: run_end(source, at + 1, Run::OfWord),
        }
    } else if first.is_ascii_digit() {
        Cut {
            kind: Some(TokenKind::Number),
            to: run_end(source, at + 1, Run::OfNumber),
        }
    } else {
        sign_at(source, at)
    }
}

// Puts what stands at a place behind the tokens, if it is a token.
fn push_cut(tokens: &mut Vec<Token>, from: usize, cut: Cut) -> Result<(), AllocError>
    ensures { OnOk result (tokens.new.items ≡ tokens.old.items ++ token_if cut.kind from cut.to) }
{
    if let Some(kind) = cut.kind {
        tokens.push(Token {
            kind,
            from,
            to: cut.to,
        })?;
    }
    Ok(())
}

/// Cuts a source into its tokens, in order: at each place the longest token is taken, and separators and comments are
/// left out. A byte that begins no token is a token of the kind `Bad`, so that every source has its tokens.
///
/// # Errors
///
/// `AllocError` where memory runs out.
pub fn lex(alloc: Global, source: &[u8]) -> Result<Vec<Token>, AllocError>
    ensures tokens { IfOk result (λ ts. AreTokens source.now ts.items) }

    // There is no other reading of the source.
    ensures only { (ts : List Token) → AreTokens source.now ts → IfOk result (λ r. r.items ≡ ts) }
    ensures spelled { IfOk result (λ ts. AreSpelled source.now ts.items) }
    ensures spans { IfOk result (λ ts. SpansAscend 0 (length source.now) ts.items) }
{
    let mut tokens = Vec::new(alloc);
    let mut at = 0;
    while at < source.len() {
        let cut = piece_at(source, at);
        push_cut(&mut tokens, at, cut)?;
        at = cut.to;
    }
    Ok(tokens)
}
