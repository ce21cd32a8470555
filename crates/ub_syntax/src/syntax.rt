use ub_lexer::Token;
use ub_query::{Aggregate, Items, Operator};

/// The syntax of one statement.
#[derive(Drop)]
pub enum Sentence {
    Select(Syntax),
    Insert(Insertion),
    /// A DELETE has the syntax of a SELECT of the rows that it takes out: of `*`, for which its first token stands, with its
    /// condition and nothing else.
    Delete(Syntax),
}

/// The syntax of a SELECT that EXPLAIN may stand before. Its names and numbers are the tokens that spell them.
#[derive(Drop)]
pub struct Syntax {
    /// Whether EXPLAIN stands before it.
    pub is_explained: bool,
    pub selection: Selection,
    /// The name after FROM.
    pub table: Token,
    /// The condition after WHERE.
    pub filter: Option<Condition>,
    /// The names after GROUP BY; none where it doesn't stand.
    pub group: Items<Token>,
    /// The keys after ORDER BY; none where it doesn't stand.
    pub order: Items<OrderKey>,
    /// The number after LIMIT.
    pub limit: Option<Token>,
}

/// What stands between SELECT and FROM.
#[derive(Drop)]
pub enum Selection {
    /// `*`, which is this token.
    All(Token),
    Listed(Items<Item>),
}

/// One thing that is selected, or by which is ordered.
#[derive(Clone, Copy, PartialEq, Eq, Debug)]
pub enum Item {
    /// The column of this name.
    Column(Token),
    /// COUNT(*), which begins with this token.
    Count(Token),
    /// SUM, MIN or MAX, which is the first token, of the column that the second one names.
    Aggregate(Aggregate, Token, Token),
}

/// A key by which is ordered.
#[derive(Clone, Copy, PartialEq, Eq, Debug)]
pub struct OrderKey {
    pub item: Item,
    pub is_descending: bool,
}

/// The syntax of an INSERT.
#[derive(Drop)]
pub struct Insertion {
    /// The name after INTO.
    pub table: Token,
    /// What stands in the parentheses after VALUES.
    pub values: Items<Value>,
    /// The `)` after them.
    pub close: Token,
}

/// A whole number of an INSERT.
#[derive(Clone, Copy, PartialEq, Eq, Debug)]
pub struct Value {
    /// The token with which it begins: its `-`, if it has one, else the digits.
    pub first: Token,
    pub literal: Literal,
}

/// A whole number with its sign.
#[derive(Clone, Copy, PartialEq, Eq, Debug)]
pub struct Literal {
    pub is_negative: bool,
    /// The token of the digits.
    pub digits: Token,
}

/// A condition.
#[derive(Drop)]
pub enum Condition {
    And(Box<Condition>, Box<Condition>),
    Or(Box<Condition>, Box<Condition>),
    Not(Box<Condition>),
    /// The column that the token names compares so with the literal.
    Compare(Token, Operator, Literal),
    /// The column that the token names lies between the two literals, both included.
    Between(Token, Literal, Literal),
}
