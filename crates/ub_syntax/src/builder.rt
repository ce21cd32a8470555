ghost use Rattle.std.specs.Prelude.{◌≡◌, ◌↔◌, ◌≤◌, List, [], ◌∷◌, length, IfOk};
ghost use Rattle.std.specs.Option.{option_map};
ghost use Rattle.ub_lexer.specs.Tokens.{AreSpelled};
ghost use Rattle.ub_syntax.specs.Grammar.{lexemes, AreJoined, IsToken, IsLiteral, IsComparison, IsOperand, IsCondition, IsItem, IsSelection, IsKey, IsOptional, IsFilter, AreListedBy, IsLimit, IsSelect, IsValue, IsInsert, IsDelete, IsStatement, IsChain, Lexeme};
ghost use Rattle.ub_syntax.specs.Limits.{past_limits_of};
ghost use Rattle.ub_syntax.specs.Reading.{first_symbol, Reads, Advances, Accepts};
ghost use Rattle.ub_query.specs.declared.condition.Operator.{Operator};
ghost use Rattle.ub_syntax.specs.Tree.{Select, Stated, shape, select_of, stated_of, both};
ghost use Rattle.ub_syntax.specs.declared.syntax.Insertion.{Insertion};

use crate::symbol::{Symbol, symbol_of};
use crate::syntax::{
    Condition, Insertion, Item, Literal, OrderKey, Selection, Sentence, Syntax, Value,
};
use std::alloc::{AllocError, Global};
use std::marker::Model;
use ub_lexer::{Token, TokenKind};
use ub_query::{Items, Operator};
use ub_table::columns::MAX_COLUMNS;

// What is read past the last token, where the reader of a statement never comes.
const NO_TOKEN: Token = Token {
    kind: TokenKind::Bad,
    from: 0,
    to: 0,
};

// How many parentheses and NOTs may stand one in the other.
const MAX_NESTING: u8 = 64;

// Reads a statement from the front, one part after the other, by the next symbol alone. What it reads where no such part
// stands is left open, so that it fails for want of memory only. A clause sees the lexemes that are left.
#[derive(Drop)]
struct Reader<'a> {
    source: &'a [u8],
    left: &'a [Token],
}

impl<'a> Model for Reader<'a> {
    ghost use Rattle.std.specs.Prelude.{List};
    ghost use Rattle.ub_lexer.specs.Tokens.{AreSpelled};
    ghost use Rattle.ub_syntax.specs.Grammar.{Lexeme, lexemes};

    ghost Value = { List Lexeme };

    ghost view = { λ r. lexemes r.source.now r.left.now };

    ghost invariant = { λ r. AreSpelled r.source.now r.left.now };
}

impl<'a> Reader<'a> {
    // The symbol of the next token, if there is one.
    fn symbol(&self) -> Option<Symbol>
        ensures { result ≡ first_symbol self.now }
    {
        match self.left.first() {
            Some(token) => Some(symbol_of(self.source, token)),
            None => None,
        }
    }

    // The next token, which stays.
    fn peek(&self) -> Token
        ensures { (l : Lexeme) (ls : List Lexeme) → self.now ≡ l ∷ ls → result ≡ l.token }
    {
        match self.left.first() {
            Some(token) => *token,
            None => NO_TOKEN,
        }
    }

    // Reads a token.
    fn advance(&mut self) -> Token
        ensures { Advances self.old result self.new }
    {
        match self.left.split_first() {
            Some((token, left)) => {
                self.left = left;
                *token
            }
            None => NO_TOKEN,
        }
    }

    // Reads the next token if it is this symbol, and tells whether it is.
    fn accept(&mut self, symbol: Symbol) -> bool
        ensures { Accepts symbol self.old result self.new }
    {
        let is_next = self.symbol() == Some(symbol);
        if is_next {
            self.advance();
        }
        is_next
    }

    // A number, which a `-` may stand before.
    fn literal(&mut self) -> Literal
        ensures reads { Reads IsLiteral [] self.old result self.new }
        ensures shorter { length self.new ≤ length self.old }
    {
        let is_negative = self.accept(Symbol::Minus);
        let digits = self.advance();
        Literal {
            is_negative,
            digits,
        }
    }

    // The operator that is next, if there is one.
    fn operator(&self) -> Option<Operator>
        ensures { (o : Operator) → (result ≡ Some o)
            ↔ (first_symbol self.now ≡ Some (Symbol.Operator o)) }
    {
        match self.symbol() {
            Some(Symbol::Operator(operator)) => Some(operator),
            _ => None,
        }
    }

    // A name compared with a literal, or between two.
    fn comparison(&mut self) -> Condition
        ensures reads { Reads IsComparison [] self.old (shape result) self.new }
        ensures shorter { length self.new ≤ length self.old }
    {
        let column = self.advance();
        match self.operator() {
            Some(operator) => {
                self.advance();
                let value = self.literal();
                Condition::Compare(column, operator, value)
            }
            None => {
                self.advance();
                let low = self.literal();
                self.advance();
                let high = self.literal();
                Condition::Between(column, low, high)
            }
        }
    }

    // A comparison, NOT and an operand, or a condition in parentheses, with at most `depth` parentheses and NOTs one in
    // the other.
    #[cycle(condition)]
    fn operand(&mut self, alloc: Global, depth: u8) -> Result<Condition, AllocError>
        ensures reads { IfOk result (λ c. Reads (IsOperand depth) [] self.old (shape c) self.new) }
        ensures shorter { length self.new ≤ length self.old }
    {
        if depth == 0 {
            return Ok(self.comparison());
        }
        if self.accept(Symbol::Not) {
            let negated = self.operand(alloc, depth - 1)?;
            return Ok(Condition::Not(Box::new(alloc, negated)?));
        }
        if self.accept(Symbol::Open) {
            let inner = self.condition(alloc, depth - 1)?;
            self.advance();
            return Ok(inner);
        }
        Ok(self.comparison())
    }

    // Operands joined by AND.
    #[cycle(condition)]
    fn conjunction(&mut self, alloc: Global, depth: u8) -> Result<Condition, AllocError>
        ensures reads { IfOk result (λ c. Reads (IsChain Symbol.And both (IsOperand depth))
            (Symbol.And ∷ []) self.old (shape c) self.new) }
        ensures shorter { length self.new ≤ length self.old }
    {
        let mut all = self.operand(alloc, depth)?;
        'joined: while self.accept(Symbol::And) {
            let next = self.operand(alloc, depth)?;
            all = Condition::And(Box::new(alloc, all)?, Box::new(alloc, next)?);
        }
        Ok(all)
    }

    // Conjunctions joined by OR.
    #[cycle(condition)]
    fn condition(&mut self, alloc: Global, depth: u8) -> Result<Condition, AllocError>
        ensures reads { IfOk result
            (λ c. Reads (IsCondition depth) (Symbol.Or ∷ Symbol.And ∷ []) self.old (shape c)
            self.new) }
        ensures shorter { length self.new ≤ length self.old }
    {
        let mut all = self.conjunction(alloc, depth)?;
        'joined: while self.accept(Symbol::Or) {
            let next = self.conjunction(alloc, depth)?;
            all = Condition::Or(Box::new(alloc, all)?, Box::new(alloc, next)?);
        }
        Ok(all)
    }

    // A name, COUNT ( * ), or SUM, MIN or MAX ( name ).
    fn item(&mut self) -> Item
        ensures reads { Reads IsItem [] self.old result self.new }
        ensures shorter { length self.new ≤ length self.old }
    {
        let symbol = self.symbol();
        let first = self.advance();
        if symbol == Some(Symbol::Name) {
            return Item::Column(first);
        }
        self.advance();
        let column = self.advance();
        self.advance();
        match symbol {
            Some(Symbol::Aggregate(aggregate)) => Item::Aggregate(aggregate, first, column),
            _ => Item::Count(first),
        }
    }

    // Items with commas between them.
    fn items(&mut self, alloc: Global) -> Result<Vec<Item>, AllocError>
        ensures { IfOk result
            (λ v. Reads (AreJoined Symbol.Comma IsItem) (Symbol.Comma ∷ []) self.old v.items
            self.new) }
    {
        let mut items = Vec::new(alloc);
        items.push(self.item())?;
        'joined: while self.accept(Symbol::Comma) {
            items.push(self.item())?;
        }
        Ok(items)
    }

    // `*`, or items.
    fn selection(&mut self, alloc: Global) -> Result<Selection, AllocError>
        ensures { IfOk result (λ s. Reads IsSelection (Symbol.Comma ∷ []) self.old s self.new) }
    {
        if self.symbol() == Some(Symbol::Star) {
            return Ok(Selection::All(self.advance()));
        }
        let items = self.items(alloc)?;
        Ok(Selection::Listed(Items::new(items)))
    }

    // WHERE and a condition, or nothing.
    fn filter(&mut self, alloc: Global) -> Result<Option<Condition>, AllocError>
        ensures { IfOk result (λ f. Reads (IsOptional (IsFilter 64))
            (Symbol.Where ∷ Symbol.Or ∷ Symbol.And ∷ []) self.old (option_map shape f) self.new) }
    {
        if !self.accept(Symbol::Where) {
            return Ok(None);
        }
        let condition = self.condition(alloc, MAX_NESTING)?;
        Ok(Some(condition))
    }

    // Names with commas between them.
    fn names(&mut self, alloc: Global) -> Result<Vec<Token>, AllocError>
        ensures { IfOk result (λ v. Reads (AreJoined Symbol.Comma (IsToken Symbol.Name))
            (Symbol.Comma ∷ []) self.old v.items self.new) }
    {
        let mut names = Vec::new(alloc);
        names.push(self.advance())?;
        'joined: while self.accept(Symbol::Comma) {
            names.push(self.advance())?;
        }
        Ok(names)
    }

    // GROUP BY and names, or nothing.
    fn group(&mut self, alloc: Global) -> Result<Vec<Token>, AllocError>
        ensures { IfOk result (λ v. Reads (AreListedBy Symbol.Group (IsToken Symbol.Name))
            (Symbol.Group ∷ Symbol.Comma ∷ []) self.old v.items self.new) }
    {
        if !self.accept(Symbol::Group) {
            return Ok(Vec::new(alloc));
        }
        self.advance();
        self.names(alloc)
    }

    // An item, and ASC, DESC or neither.
    fn key(&mut self) -> OrderKey
        ensures reads { Reads IsKey (Symbol.Descending ∷ Symbol.Ascending ∷ []) self.old result
            self.new }
        ensures shorter { length self.new ≤ length self.old }
    {
        let item = self.item();
        let is_descending = self.accept(Symbol::Descending);
        if !is_descending {
            self.accept(Symbol::Ascending);
        }
        OrderKey {
            item,
            is_descending,
        }
    }

    // Keys with commas between them.
    fn keys(&mut self, alloc: Global) -> Result<Vec<OrderKey>, AllocError>
        ensures { IfOk result (λ v. Reads (AreJoined Symbol.Comma IsKey)
            (Symbol.Comma ∷ Symbol.Descending ∷ Symbol.Ascending ∷ []) self.old v.items self.new) }
    {
        let mut keys = Vec::new(alloc);
        keys.push(self.key())?;
        'joined: while self.accept(Symbol::Comma) {
            keys.push(self.key())?;
        }
        Ok(keys)
    }

    // ORDER BY and keys, or nothing.
    fn order(&mut self, alloc: Global) -> Result<Vec<OrderKey>, AllocError>
        ensures { IfOk result (λ v. Reads (AreListedBy Symbol.Order IsKey)
            (Symbol.Order ∷ Symbol.Comma ∷ Symbol.Descending ∷ Symbol.Ascending ∷ [])
            self.old v.items self.new) }
    {
        if !self.accept(Symbol::Order) {
            return Ok(Vec::new(alloc));
        }
        self.advance();
        self.keys(alloc)
    }

    // LIMIT and a number, or nothing.
    fn limit(&mut self) -> Option<Token>
        ensures { Reads (IsOptional IsLimit) (Symbol.Limit ∷ []) self.old result self.new }
    {
        if !self.accept(Symbol::Limit) {
            return None;
        }
        let number = self.advance();
        Some(number)
    }

    // A number, with the token where it begins.
    fn value(&mut self) -> Value
        ensures reads { Reads IsValue [] self.old result self.new }
        ensures shorter { length self.new ≤ length self.old }
    {
        let first = self.peek();
        let literal = self.literal();
        Value { first, literal }
    }

    // Numbers with commas between them.
    fn values(&mut self, alloc: Global) -> Result<Vec<Value>, AllocError>
        ensures { IfOk result
            (λ v. Reads (AreJoined Symbol.Comma IsValue) (Symbol.Comma ∷ []) self.old v.items
            self.new) }
    {
        let mut values = Vec::with_capacity(alloc, MAX_COLUMNS)?;
        values.push(self.value())?;
        'joined: while self.accept(Symbol::Comma) {
            values.push(self.value())?;
        }
        Ok(values)
    }

    // A SELECT, which is all that is left.
    fn select(&mut self, alloc: Global) -> Result<Syntax, AllocError>
        ensures { (s : Select) → IsSelect 64 self.old s → IfOk result (λ r. select_of r ≡ s) }
    {
        let is_explained = self.accept(Symbol::Explain);
        self.advance();
        let selection = self.selection(alloc)?;
        self.advance();
        let table = self.advance();
        let filter = self.filter(alloc)?;
        let group = self.group(alloc)?;
        let order = self.order(alloc)?;
        let limit = self.limit();
        Ok(Syntax {
            is_explained,
            selection,
            table,
            filter,
            group: Items::new(group),
            order: Items::new(order),
            limit,
        })
    }

    // An INSERT, which is all that is left.
    fn insertion(&mut self, alloc: Global) -> Result<Insertion, AllocError>
        ensures { (i : Insertion) → IsInsert self.old i → IfOk result (λ r. r ≡ i) }
    {
        self.advance();
        self.advance();
        let table = self.advance();
        self.advance();
        self.advance();
        let values = self.values(alloc)?;
        let close = self.advance();
        Ok(Insertion {
            table,
            values: Items::new(values),
            close,
        })
    }

    // A DELETE, which is all that is left.
    fn deletion(&mut self, alloc: Global) -> Result<Syntax, AllocError>
        ensures { (s : Select) → IsDelete 64 self.old s → IfOk result (λ r. select_of r ≡ s) }
    {
        let word = self.advance();
        self.advance();
        let table = self.advance();
        let filter = self.filter(alloc)?;
        Ok(Syntax {
            is_explained: false,
            selection: Selection::All(word),
            table,
            filter,
            group: Items::new(Vec::new(alloc)),
            order: Items::new(Vec::new(alloc)),
            limit: None,
        })
    }

    // The whole statement, which is all that is left.
    fn statement(&mut self, alloc: Global) -> Result<Sentence, AllocError>
        ensures { (s : Stated) → IsStatement 64 self.old s → IfOk result (λ r. stated_of r ≡ s) }
    {
        let first = self.symbol();
        if first == Some(Symbol::Insert) {
            let insertion = self.insertion(alloc)?;
            return Ok(Sentence::Insert(insertion));
        }
        if first == Some(Symbol::Delete) {
            let deletion = self.deletion(alloc)?;
            return Ok(Sentence::Delete(deletion));
        }
        let select = self.select(alloc)?;
        Ok(Sentence::Select(select))
    }
}

/// The syntax of the statement that the tokens are, with at most 64 parentheses and NOTs round a place of its condition
/// (the caller's condition, which `recognise` tells) and at most 64 comparisons in it (another one, which `too_many` tells),
/// so that its tree is at most 128 high. There is no other syntax: tokens are one statement at most. `AllocError` only
/// where memory is refused.
pub fn build(alloc: Global, source: &[u8], tokens: &[Token]) -> Result<Sentence, AllocError>
    requires spelled { AreSpelled source.now tokens.now }
    requires statement { (s : Stated) × IsStatement 64 (lexemes source.now tokens.now) s }
    requires few { (s : Stated) → IsStatement 64 (lexemes source.now tokens.now) s
        → past_limits_of s ≡ [] }
    ensures { (s : Stated) → IsStatement 64 (lexemes source.now tokens.now) s
        → IfOk result (λ r. stated_of r ≡ s) }
{
    let mut reader = Reader {
        source,
        left: tokens,
    };
    reader.statement(alloc)
}
