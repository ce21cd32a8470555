/// What kind of token a text is.
#[derive(Clone, Copy, PartialEq, Eq, Debug)]
pub enum TokenKind {
    /// A letter or `_`, then letters, digits or `_`: a keyword or a name.
    Word,
    /// One or more digits.
    Number,
    Comma,
    OpenParenthesis,
    CloseParenthesis,
    Star,
    Semicolon,
    Equal,
    /// `<>` or `!=`.
    NotEqual,
    Less,
    /// `<=`
    AtMost,
    Greater,
    /// `>=`
    AtLeast,
    Minus,
    /// Any other single byte, also a `!` that no `=` follows.
    Bad,
}

/// A token: its kind, and the span of its text `source[from..to]` in bytes.
#[derive(Clone, Copy, PartialEq, Eq, Debug)]
pub struct Token {
    pub kind: TokenKind,
    pub from: usize,
    pub to: usize,
}
