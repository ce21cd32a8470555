// The syntax that is built of statements, where others are refused, and a symbol that no statement has.
ghost use Rattle.ub_lexer.specs.Tokens.{AreSpelled};

use crate::cases::Case;
use std::alloc::Global;
use ub_lexer::{Token, TokenKind, lex};
use ub_syntax::{
    Aggregate, Condition, Insertion, Item, Literal, OrderKey, Selection, Sentence, Symbol, Syntax,
    Value, Verdict, build, recognise, symbol_of, too_many,
};

// What a source is to be.
#[derive(Clone, Copy)]
pub(crate) enum Wanted {
    // A statement that takes all of a table: whether it is explained, the token that says so, the table, and whether it has a condition.
    All(bool, Token, Token, bool),
    // One with each list of `has_lists`.
    Lists,
    // One in whose condition AND and OR group from the left.
    Grouped,
    // An INSERT with the parts of `is_insert`.
    Insert,
    // An INSERT of so many values.
    Values(usize),
    // The same of a DELETE as of one that takes all.
    Delete(Token, Token, bool),
    // None, which is refused at this byte.
    Refused(usize),
}

// A source, and what it is to be.
pub(crate) struct Source(&'static [u8], Wanted);

pub(crate) static STATEMENTS: &[Source] = &[
    Source(
        b"EXPLAIN SELECT * FROM t",
        Wanted::All(
            true,
            Token {
                kind: TokenKind::Star,
                from: 15,
                to: 16,
            },
            Token {
                kind: TokenKind::Word,
                from: 22,
                to: 23,
            },
            false,
        ),
    ),
    Source(
        b"SELECT COUNT(*), SUM(m) FROM t GROUP BY x, y ORDER BY x DESC, COUNT(*) LIMIT 5",
        Wanted::Lists,
    ),
    Source(
        b"select * from t where a=1 or b=2 and c=3 and(d=4 or e=5 or not not f=6)",
        Wanted::Grouped,
    ),
    Source(b"INSERT INTO t VALUES (10, -2)", Wanted::Insert),
    // The values of an INSERT have no limit.
    Source(
        b"INSERT INTO t VALUES (1,2,3,4,5,6,7,8,9,10)",
        Wanted::Values(10),
    ),
    // The * of a DELETE is its first token.
    Source(
        b"delete from t",
        Wanted::Delete(
            Token {
                kind: TokenKind::Word,
                from: 0,
                to: 6,
            },
            Token {
                kind: TokenKind::Word,
                from: 12,
                to: 13,
            },
            false,
        ),
    ),
    Source(
        b"DELETE FROM t WHERE x = 1 OR NOT y = 2",
        Wanted::Delete(
            Token {
                kind: TokenKind::Word,
                from: 0,
                to: 6,
            },
            Token {
                kind: TokenKind::Word,
                from: 12,
                to: 13,
            },
            true,
        ),
    ),
    // What an INSERT or a DELETE doesn't have is refused where it stands.
    Source(b"EXPLAIN DELETE FROM t", Wanted::Refused(8)),
    Source(b"EXPLAIN INSERT INTO t VALUES (1)", Wanted::Refused(8)),
    Source(b"DELETE FROM t GROUP BY x", Wanted::Refused(14)),
    Source(b"DELETE FROM t LIMIT 1", Wanted::Refused(14)),
    Source(b"DELETE FROM t WHERE x = 1 ORDER BY x", Wanted::Refused(26)),
    Source(b"INSERT INTO t VALUES ()", Wanted::Refused(22)),
    Source(b"INSERT INTO t VALUES (1, )", Wanted::Refused(25)),
    Source(b"INSERT INTO t VALUES (1", Wanted::Refused(23)),
    Source(b"INSERT INTO t VALUES (1), (2)", Wanted::Refused(24)),
];

// The values of INSERT INTO t VALUES (10, -2).
static VALUES: [Value; 2] = [
    Value {
        first: Token {
            kind: TokenKind::Number,
            from: 22,
            to: 24,
        },
        literal: Literal {
            is_negative: false,
            digits: Token {
                kind: TokenKind::Number,
                from: 22,
                to: 24,
            },
        },
    },
    Value {
        first: Token {
            kind: TokenKind::Minus,
            from: 26,
            to: 27,
        },
        literal: Literal {
            is_negative: true,
            digits: Token {
                kind: TokenKind::Number,
                from: 27,
                to: 28,
            },
        },
    },
];

// The items COUNT(*) and SUM(m), the names x and y, and the keys x DESC and COUNT(*).
static ITEMS: [Item; 2] = [
    Item::Count(Token {
        kind: TokenKind::Word,
        from: 7,
        to: 12,
    }),
    Item::Aggregate(
        Aggregate::Sum,
        Token {
            kind: TokenKind::Word,
            from: 17,
            to: 20,
        },
        Token {
            kind: TokenKind::Word,
            from: 21,
            to: 22,
        },
    ),
];

static NAMES: [Token; 2] = [
    Token {
        kind: TokenKind::Word,
        from: 40,
        to: 41,
    },
    Token {
        kind: TokenKind::Word,
        from: 43,
        to: 44,
    },
];

static KEYS: [OrderKey; 2] = [
    OrderKey {
        item: Item::Column(Token {
            kind: TokenKind::Word,
            from: 54,
            to: 55,
        }),
        is_descending: true,
    },
    OrderKey {
        item: Item::Count(Token {
            kind: TokenKind::Word,
            from: 62,
            to: 67,
        }),
        is_descending: false,
    },
];

// The table of both INSERTs.
static TABLE: Token = Token {
    kind: TokenKind::Word,
    from: 12,
    to: 13,
};

// Whether it is that of INSERT INTO t VALUES (10, -2).
fn is_insert(insertion: &Insertion) -> bool {
    (insertion.table == TABLE)
        & (insertion.values.as_slice() == VALUES.as_slice())
        & (insertion.close.from == 28)
}

// Whether it takes all of a table, by its * or DELETE, with a condition or without one, and says no more.
fn takes_all(syntax: &Syntax, all: Token, table: Token, has_filter: bool) -> bool {
    matches!(&syntax.selection, Selection::All(token) if *token == all)
        & (syntax.table == table)
        & (syntax.filter.is_some() == has_filter)
        & syntax.group.as_slice().is_empty()
        & syntax.order.as_slice().is_empty()
        & syntax.limit.is_none()
}

// Whether it is a statement with each list.
fn has_lists(syntax: &Syntax) -> bool {
    !syntax.is_explained
        & matches!(&syntax.selection, Selection::Listed(list) if list.as_slice() == ITEMS.as_slice())
        & (syntax.group.as_slice() == NAMES.as_slice())
        & (syntax.order.as_slice() == KEYS.as_slice())
        & matches!(&syntax.limit, Some(limit) if limit.from == 77)
}

// Whether it is (a=1 OR ((b=2 AND c=3) AND ((d=4 OR e=5) OR NOT NOT f=6))), as far as AND and OR go.
fn groups_from_the_left(syntax: &Syntax) -> bool {
    let Some(Condition::Or(_, all)) = &syntax.filter else {
        return false;
    };
    let Condition::And(both, some) = &**all else {
        return false;
    };
    let Condition::Or(either, _) = &**some else {
        return false;
    };
    matches!(&**both, Condition::And(_, _)) && matches!(&**either, Condition::Or(_, _))
}

// Whether a sentence is so.
fn is_so(sentence: &Sentence, wanted: Wanted) -> bool {
    match (sentence, wanted) {
        (Sentence::Select(syntax), Wanted::All(is_explained, all, table, has_filter)) => {
            syntax.is_explained == is_explained && takes_all(syntax, all, table, has_filter)
        }
        (Sentence::Delete(syntax), Wanted::Delete(all, table, has_filter)) => {
            !syntax.is_explained && takes_all(syntax, all, table, has_filter)
        }
        (Sentence::Select(syntax), Wanted::Lists) => has_lists(syntax),
        (Sentence::Select(syntax), Wanted::Grouped) => groups_from_the_left(syntax),
        (Sentence::Insert(insertion), Wanted::Insert) => is_insert(insertion),
        (Sentence::Insert(insertion), Wanted::Values(count)) => {
            insertion.table == TABLE && insertion.values.as_slice().len() == count
        }
        _ => false,
    }
}

// Whether tokens of a source are so.
fn are_so(alloc: Global, source: &[u8], tokens: &[Token], wanted: Wanted) -> bool
    requires { AreSpelled source.now tokens.now }
{
    if tokens.is_empty() {
        return false;
    }
    match recognise(alloc, source, tokens) {
        Ok(Verdict::Statement) => {}
        Ok(verdict) => {
            return matches!(wanted, Wanted::Refused(at) if verdict == Verdict::Syntax { at });
        }
        Err(_) => return false,
    }
    match too_many(source, tokens) {
        Some(_) => false,
        None => {
            match build(alloc, source, tokens) {
                Ok(sentence) => is_so(&sentence, wanted),
                Err(_) => false,
            }
        }
    }
}

impl Case for Source {
    fn holds(&self, alloc: Global) -> bool {
        match lex(alloc, self.0) {
            Ok(tokens) => are_so(alloc, self.0, tokens.as_slice(), self.1),
            Err(_) => false,
        }
    }
}

// Whether a byte that begins no token is no part of any statement: one that has it is refused before its grammar is asked.
pub(crate) fn bad_byte_is_no_part() -> bool {
    let token = Token {
        kind: TokenKind::Bad,
        from: 0,
        to: 1,
    };
    symbol_of(b"?", &token) == Symbol::Other
}
