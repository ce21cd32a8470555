// How sources are cut into tokens.
use crate::cases::Case;
use std::alloc::Global;
use ub_lexer::{Token, TokenKind, lex};

// A token: its kind, where it begins, and where it ends.
type Cut = (TokenKind, usize, usize);

// A source, and the tokens into which it is cut.
pub(crate) struct Source(&'static [u8], &'static [Cut]);

pub(crate) static CUT: &[Source] = &[
    Source(
        b"SELECT * FROM t WHERE x BETWEEN 2 AND 3;",
        &[
            (TokenKind::Word, 0, 6),
            (TokenKind::Star, 7, 8),
            (TokenKind::Word, 9, 13),
            (TokenKind::Word, 14, 15),
            (TokenKind::Word, 16, 21),
            (TokenKind::Word, 22, 23),
            (TokenKind::Word, 24, 31),
            (TokenKind::Number, 32, 33),
            (TokenKind::Word, 34, 37),
            (TokenKind::Number, 38, 39),
            (TokenKind::Semicolon, 39, 40),
        ],
    ),
    // The longest token is taken.
    Source(
        b"12ab a<=b!=c<>d",
        &[
            (TokenKind::Number, 0, 2),
            (TokenKind::Word, 2, 4),
            (TokenKind::Word, 5, 6),
            (TokenKind::AtMost, 6, 8),
            (TokenKind::Word, 8, 9),
            (TokenKind::NotEqual, 9, 11),
            (TokenKind::Word, 11, 12),
            (TokenKind::NotEqual, 12, 14),
            (TokenKind::Word, 14, 15),
        ],
    ),
    // Comments are left out.
    Source(
        b"x--y\nz -1 - -1--",
        &[
            (TokenKind::Word, 0, 1),
            (TokenKind::Word, 5, 6),
            (TokenKind::Minus, 7, 8),
            (TokenKind::Number, 8, 9),
            (TokenKind::Minus, 10, 11),
            (TokenKind::Minus, 12, 13),
            (TokenKind::Number, 13, 14),
        ],
    ),
    // Each other byte is bad.
    Source(
        b"!\0\xff",
        &[
            (TokenKind::Bad, 0, 1),
            (TokenKind::Bad, 1, 2),
            (TokenKind::Bad, 2, 3),
        ],
    ),
];

// Whether tokens are these.
fn are(tokens: &[Token], wanted: &[Cut]) -> bool {
    if tokens.len() != wanted.len() {
        return false;
    }
    for i in 0..tokens.len() {
        let (kind, from, to) = wanted[i];
        if tokens[i] != (Token { kind, from, to }) {
            return false;
        }
    }
    true
}

impl Case for Source {
    fn holds(&self, alloc: Global) -> bool {
        match lex(alloc, self.0) {
            Ok(tokens) => are(tokens.as_slice(), self.1),
            Err(_) => false,
        }
    }
}
