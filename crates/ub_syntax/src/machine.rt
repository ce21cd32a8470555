ghost use Rattle.std.specs.Prelude.{◌≡◌, Ok, Err, IfOk, MatchResult};
ghost use Rattle.ub_syntax.specs.Machine as spec;

use crate::symbol::Symbol;
use std::alloc::{AllocError, Global};
use std::marker::Model;

/// The most parentheses and NOTs that may stand round a place of a condition.
pub const NESTING: u8 = 64;

/// A symbol at whose place the grammar leaves no choice.
#[derive(Clone, Copy)]
pub enum Fixed {
    Select,
    From,
    By,
    And,
    Into,
    Values,
    Name,
    Number,
    Open,
    Star,
    Close,
}

/// A part of a statement that is still to come. Each takes one token or more.
#[derive(Clone, Copy)]
pub enum Goal {
    Token(Fixed),
    Item,
    /// What follows the column's name in a comparison.
    Comparison,
    Literal,
    /// An operand, in which so many parentheses and NOTs may open, one in the other.
    Operand(u8),
    /// What follows an operand inside parentheses: AND or OR, an operand and what follows it, or `)`.
    Nested(u8),
}

/// The end of a statement that comes after all goals.
#[derive(Clone, Copy)]
pub enum Rest {
    /// A whole statement.
    Start,
    /// What follows SELECT.
    Items,
    AfterItem,
    AfterTable,
    AfterOperand,
    /// What follows a name after GROUP BY.
    AfterGroup,
    /// What follows an item after ORDER BY.
    AfterKey,
    AfterDirection,
    /// What follows VALUES.
    Values,
    AfterValue,
    /// What follows the table's name in a DELETE.
    AfterDeleted,
    /// What follows an operand of a DELETE.
    AfterCondition,
    End,
}

/// Goals that come one after the other, the next one first.
#[derive(Clone, Copy)]
pub enum Row {
    Nothing,
    One(Goal),
    Two(Goal, Goal),
    Three(Goal, Goal, Goal),
}

/// What comes after a symbol: goals, and the end of the statement after them.
#[derive(Clone, Copy)]
pub struct Turn {
    pub row: Row,
    pub rest: Rest,
}

/// Why a symbol can't come next.
#[derive(Clone, Copy)]
pub enum Refusal {
    Syntax,
    /// One more parenthesis or NOT than may stand round a place.
    TooDeep,
}

/// What is still to come of a statement of which some symbols were read.
#[derive(Drop)]
pub struct Machine {
    // the next one last
    goals: Vec<Goal>,
    rest: Rest,
}

impl Model for Machine {
    ghost use Rattle.std.specs.Prelude.{reverse};
    ghost use Rattle.ub_syntax.specs.Machine.{Config};

    ghost Value = { Config };

    ghost view = { λ m. record { goals = reverse m.goals.items; rest = m.rest } };
}

impl Machine {
    /// A whole statement is to come.
    pub fn new(alloc: Global) -> Machine
        ensures { result ≡ spec.start }
    {
        Machine {
            goals: Vec::new(alloc),
            rest: Rest::Start,
        }
    }

    /// Whether the statement may end here.
    pub fn can_end(&self) -> bool
        ensures { result ≡ spec.can_end self.now }
    {
        self.goals.is_empty() && can_end(self.rest)
    }

    /// Reads a symbol. After an error nothing more is to be read.
    pub fn read(&mut self, symbol: Symbol) -> Result<Result<(), Refusal>, AllocError>
        ensures { IfOk result (λ answer. MatchResult answer
            (λ _. spec.step 64 self.old symbol ≡ Ok self.new)
            (λ refusal. spec.step 64 self.old symbol ≡ Err refusal)) }
    {
        match advance(self.goals.pop(), self.rest, symbol) {
            Ok(turn) => {
                self.rest = turn.rest;
                self.push(turn.row)?;
                Ok(Ok(()))
            }
            Err(refusal) => Ok(Err(refusal)),
        }
    }

    // Puts these goals before the others.
    fn push(&mut self, row: Row) -> Result<(), AllocError>
        ensures { IfOk result (λ _. self.new ≡ spec.with_row row self.old) }
    {
        match row {
            Row::Nothing => {}
            Row::One(first) => self.goals.push(first)?,
            Row::Two(first, second) => {
                self.goals.push(second)?;
                self.goals.push(first)?;
            }
            Row::Three(first, second, third) => {
                self.goals.push(third)?;
                self.goals.push(second)?;
                self.goals.push(first)?;
            }
        }
        Ok(())
    }
}

fn can_end(rest: Rest) -> bool
    ensures { result ≡ spec.may_end rest }
{
    !matches!(
        rest,
        Rest::Start | Rest::Items | Rest::AfterItem | Rest::Values | Rest::AfterValue
    )
}

// What comes after the symbol, which the next goal takes, or else the end of the statement.
fn advance(goal: Option<Goal>, rest: Rest, symbol: Symbol) -> Result<Turn, Refusal>
    ensures { result ≡ spec.advance 64 goal rest symbol }
{
    match goal {
        Some(goal) => Ok(Turn {
            row: expand(goal, symbol)?,
            rest,
        }),
        None => follow(rest, symbol),
    }
}

// What a goal still asks for after its first symbol.
fn expand(goal: Goal, symbol: Symbol) -> Result<Row, Refusal>
    ensures { result ≡ spec.expand goal symbol }
{
    match goal {
        Goal::Token(fixed) => token(fixed, symbol),
        Goal::Item => item(symbol),
        Goal::Comparison => comparison(symbol),
        Goal::Literal => literal(symbol),
        Goal::Operand(depth) => operand(depth, symbol),
        Goal::Nested(depth) => nested(depth, symbol),
    }
}

fn token(fixed: Fixed, symbol: Symbol) -> Result<Row, Refusal>
    ensures { result ≡ spec.token fixed symbol }
{
    if is_fixed(fixed, symbol) {
        Ok(Row::Nothing)
    } else {
        Err(Refusal::Syntax)
    }
}

fn is_fixed(fixed: Fixed, symbol: Symbol) -> bool
    ensures { result ≡ spec.is_fixed fixed symbol }
{
    match fixed {
        Fixed::Select => matches!(symbol, Symbol::Select),
        Fixed::From => matches!(symbol, Symbol::From),
        Fixed::By => matches!(symbol, Symbol::By),
        Fixed::And => matches!(symbol, Symbol::And),
        Fixed::Into => matches!(symbol, Symbol::Into),
        Fixed::Values => matches!(symbol, Symbol::Values),
        Fixed::Name => matches!(symbol, Symbol::Name),
        Fixed::Number => matches!(symbol, Symbol::Number),
        Fixed::Open => matches!(symbol, Symbol::Open),
        Fixed::Star => matches!(symbol, Symbol::Star),
        Fixed::Close => matches!(symbol, Symbol::Close),
    }
}

fn item(symbol: Symbol) -> Result<Row, Refusal>
    ensures { result ≡ spec.item symbol }
{
    match symbol {
        Symbol::Name => Ok(Row::Nothing),
        Symbol::Count => Ok(Row::Three(
            Goal::Token(Fixed::Open),
            Goal::Token(Fixed::Star),
            Goal::Token(Fixed::Close),
        )),
        Symbol::Aggregate(_) => Ok(Row::Three(
            Goal::Token(Fixed::Open),
            Goal::Token(Fixed::Name),
            Goal::Token(Fixed::Close),
        )),
        _ => Err(Refusal::Syntax),
    }
}

fn comparison(symbol: Symbol) -> Result<Row, Refusal>
    ensures { result ≡ spec.comparison symbol }
{
    match symbol {
        Symbol::Operator(_) => Ok(Row::One(Goal::Literal)),
        Symbol::Between => Ok(Row::Three(Goal::Literal, Goal::Token(Fixed::And), Goal::Literal)),
        _ => Err(Refusal::Syntax),
    }
}

fn literal(symbol: Symbol) -> Result<Row, Refusal>
    ensures { result ≡ spec.literal symbol }
{
    match symbol {
        Symbol::Number => Ok(Row::Nothing),
        Symbol::Minus => Ok(Row::One(Goal::Token(Fixed::Number))),
        _ => Err(Refusal::Syntax),
    }
}

fn operand(depth: u8, symbol: Symbol) -> Result<Row, Refusal>
    ensures { result ≡ spec.operand depth symbol }
{
    match symbol {
        Symbol::Name => Ok(Row::One(Goal::Comparison)),
        Symbol::Not => Ok(Row::One(Goal::Operand(inner(depth)?))),
        Symbol::Open => {
            let depth = inner(depth)?;
            Ok(Row::Two(Goal::Operand(depth), Goal::Nested(depth)))
        }
        _ => Err(Refusal::Syntax),
    }
}

// How many may open inside one more parenthesis or NOT.
fn inner(depth: u8) -> Result<u8, Refusal>
    ensures { result ≡ spec.inner depth }
{
    if depth == 0 {
        Err(Refusal::TooDeep)
    } else {
        Ok(depth - 1)
    }
}

fn nested(depth: u8, symbol: Symbol) -> Result<Row, Refusal>
    ensures { result ≡ spec.nested depth symbol }
{
    match symbol {
        Symbol::And | Symbol::Or => Ok(Row::Two(Goal::Operand(depth), Goal::Nested(depth))),
        Symbol::Close => Ok(Row::Nothing),
        _ => Err(Refusal::Syntax),
    }
}

// What comes after a symbol with which the end of the statement begins.
fn follow(rest: Rest, symbol: Symbol) -> Result<Turn, Refusal>
    ensures { result ≡ spec.follow 64 rest symbol }
{
    match rest {
        Rest::Start => start(symbol),
        Rest::Items => items(symbol),
        Rest::AfterItem => after_item(symbol),
        Rest::AfterTable => after_table(symbol),
        Rest::AfterOperand => after_operand(symbol),
        Rest::AfterGroup => after_group(symbol),
        Rest::AfterKey => after_key(symbol),
        Rest::AfterDirection => after_direction(symbol),
        Rest::Values => values(symbol),
        Rest::AfterValue => after_value(symbol),
        Rest::AfterDeleted => after_deleted(symbol),
        Rest::AfterCondition => after_condition(symbol),
        Rest::End => Err(Refusal::Syntax),
    }
}

fn start(symbol: Symbol) -> Result<Turn, Refusal>
    ensures { result ≡ spec.begin symbol }
{
    match symbol {
        Symbol::Explain => Ok(Turn {
            row: Row::One(Goal::Token(Fixed::Select)),
            rest: Rest::Items,
        }),
        Symbol::Select => Ok(Turn {
            row: Row::Nothing,
            rest: Rest::Items,
        }),
        Symbol::Insert => Ok(Turn {
            row: Row::Three(
                Goal::Token(Fixed::Into),
                Goal::Token(Fixed::Name),
                Goal::Token(Fixed::Values),
            ),
            rest: Rest::Values,
        }),
        Symbol::Delete => Ok(Turn {
            row: Row::Two(Goal::Token(Fixed::From), Goal::Token(Fixed::Name)),
            rest: Rest::AfterDeleted,
        }),
        _ => Err(Refusal::Syntax),
    }
}

fn items(symbol: Symbol) -> Result<Turn, Refusal>
    ensures { result ≡ spec.items symbol }
{
    match symbol {
        Symbol::Star => Ok(Turn {
            row: Row::Two(Goal::Token(Fixed::From), Goal::Token(Fixed::Name)),
            rest: Rest::AfterTable,
        }),
        _ => Ok(Turn {
            row: item(symbol)?,
            rest: Rest::AfterItem,
        }),
    }
}

fn after_item(symbol: Symbol) -> Result<Turn, Refusal>
    ensures { result ≡ spec.after_item symbol }
{
    match symbol {
        Symbol::Comma => Ok(Turn {
            row: Row::One(Goal::Item),
            rest: Rest::AfterItem,
        }),
        Symbol::From => Ok(Turn {
            row: Row::One(Goal::Token(Fixed::Name)),
            rest: Rest::AfterTable,
        }),
        _ => Err(Refusal::Syntax),
    }
}

fn after_table(symbol: Symbol) -> Result<Turn, Refusal>
    ensures { result ≡ spec.after_table 64 symbol }
{
    match symbol {
        Symbol::Where => Ok(Turn {
            row: Row::One(Goal::Operand(NESTING)),
            rest: Rest::AfterOperand,
        }),
        _ => group(symbol),
    }
}

fn after_operand(symbol: Symbol) -> Result<Turn, Refusal>
    ensures { result ≡ spec.after_operand 64 symbol }
{
    match symbol {
        Symbol::And | Symbol::Or => Ok(Turn {
            row: Row::One(Goal::Operand(NESTING)),
            rest: Rest::AfterOperand,
        }),
        _ => group(symbol),
    }
}

fn group(symbol: Symbol) -> Result<Turn, Refusal>
    ensures { result ≡ spec.group symbol }
{
    match symbol {
        Symbol::Group => Ok(Turn {
            row: Row::Two(Goal::Token(Fixed::By), Goal::Token(Fixed::Name)),
            rest: Rest::AfterGroup,
        }),
        _ => order(symbol),
    }
}

fn after_group(symbol: Symbol) -> Result<Turn, Refusal>
    ensures { result ≡ spec.after_group symbol }
{
    match symbol {
        Symbol::Comma => Ok(Turn {
            row: Row::One(Goal::Token(Fixed::Name)),
            rest: Rest::AfterGroup,
        }),
        _ => order(symbol),
    }
}

fn order(symbol: Symbol) -> Result<Turn, Refusal>
    ensures { result ≡ spec.order symbol }
{
    match symbol {
        Symbol::Order => Ok(Turn {
            row: Row::Two(Goal::Token(Fixed::By), Goal::Item),
            rest: Rest::AfterKey,
        }),
        _ => limit(symbol),
    }
}

fn after_key(symbol: Symbol) -> Result<Turn, Refusal>
    ensures { result ≡ spec.after_key symbol }
{
    match symbol {
        Symbol::Ascending | Symbol::Descending => Ok(Turn {
            row: Row::Nothing,
            rest: Rest::AfterDirection,
        }),
        _ => after_direction(symbol),
    }
}

fn after_direction(symbol: Symbol) -> Result<Turn, Refusal>
    ensures { result ≡ spec.after_direction symbol }
{
    match symbol {
        Symbol::Comma => Ok(Turn {
            row: Row::One(Goal::Item),
            rest: Rest::AfterKey,
        }),
        _ => limit(symbol),
    }
}

fn limit(symbol: Symbol) -> Result<Turn, Refusal>
    ensures { result ≡ spec.limit symbol }
{
    match symbol {
        Symbol::Limit => Ok(Turn {
            row: Row::One(Goal::Token(Fixed::Number)),
            rest: Rest::End,
        }),
        _ => Err(Refusal::Syntax),
    }
}

fn values(symbol: Symbol) -> Result<Turn, Refusal>
    ensures { result ≡ spec.values symbol }
{
    match symbol {
        Symbol::Open => Ok(Turn {
            row: Row::One(Goal::Literal),
            rest: Rest::AfterValue,
        }),
        _ => Err(Refusal::Syntax),
    }
}

fn after_value(symbol: Symbol) -> Result<Turn, Refusal>
    ensures { result ≡ spec.after_value symbol }
{
    match symbol {
        Symbol::Comma => Ok(Turn {
            row: Row::One(Goal::Literal),
            rest: Rest::AfterValue,
        }),
        Symbol::Close => Ok(Turn {
            row: Row::Nothing,
            rest: Rest::End,
        }),
        _ => Err(Refusal::Syntax),
    }
}

fn after_deleted(symbol: Symbol) -> Result<Turn, Refusal>
    ensures { result ≡ spec.after_deleted 64 symbol }
{
    match symbol {
        Symbol::Where => Ok(Turn {
            row: Row::One(Goal::Operand(NESTING)),
            rest: Rest::AfterCondition,
        }),
        _ => Err(Refusal::Syntax),
    }
}

fn after_condition(symbol: Symbol) -> Result<Turn, Refusal>
    ensures { result ≡ spec.after_condition 64 symbol }
{
    match symbol {
        Symbol::And | Symbol::Or => Ok(Turn {
            row: Row::One(Goal::Operand(NESTING)),
            rest: Rest::AfterCondition,
        }),
        _ => Err(Refusal::Syntax),
    }
}
