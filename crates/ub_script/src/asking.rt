// A script whose words are read, and whether it only asks, as far as they tell.

ghost use Rattle.std.specs.Prelude.{◌≡◌, ◌≤◌, ◌↔◌, false, true, length, IfOk, IsTrue};
ghost use Rattle.std.specs.List.{All, Any};
ghost use Rattle.ub_lexer.specs.Tokens.{AreSpelled};
ghost use Rattle.ub_script.specs.Run.{IsRun};
ghost use Rattle.ub_script.specs.Script.{HasChangeWord, IsChangeWord, OnlyAsks};
ghost use Rattle.ub_table.specs.Name.{is_word};
ghost use Rattle.ub_table.specs.declared.schema.Schema.{Schema};

use crate::fault::RunFault;
use crate::output::Out;
use crate::script::{Summary, run_statements};
use std::alloc::{AllocError, Global};
use std::marker::Model;
use ub_lexer::{Token, TokenKind, lex, statements};
use ub_store::PageStore;
use ub_tree::Tree;

/// A script whose words are read, once, so that it can be weighed before it is run.
#[derive(Drop)]
pub struct Script<'s> {
    source: &'s [u8],
    tokens: Vec<Token>,
}

impl<'s> Model for Script<'s> {
    ghost use Rattle.std.specs.Prelude.{ℕ, List};
    ghost use Rattle.ub_lexer.specs.Tokens.{AreTokens};

    ghost Value = { List ℕ };

    ghost view = { λ s. s.source.now };

    ghost invariant = { λ s. AreTokens s.source.now s.tokens.items };
}

impl<'s> Script<'s> {
    /// Reads the words of a script.
    ///
    /// # Errors
    ///
    /// `AllocError` only where memory is refused.
    pub fn read(alloc: Global, source: &'s [u8]) -> Result<Script<'s>, AllocError>
        ensures { IfOk result (λ script. script ≡ source.now) }
    {
        let tokens = lex(alloc, source)?;
        Ok(Script { source, tokens })
    }

    /// Whether it holds a word with which a statement begins that changes the table: INSERT or DELETE, as a token, in any mix of
    /// cases. Without one it only asks, whatever the table. With one it may only ask too: the word can stand elsewhere than first,
    /// or in a statement that is refused.
    pub fn may_change(&self) -> bool
        ensures asks { result ≡ false → (schema : Schema) → OnlyAsks schema self.now }
        ensures exact { IsTrue result ↔ HasChangeWord self.now }
    {
        has_change_word(self.source, &self.tokens)
    }

    /// Runs it on a tree, as `run` runs the script of a text.
    pub fn run<S: PageStore, W: Out>(
        &self,
        alloc: Global,
        tree: &mut Tree<S>,
        out: &mut W,
    ) -> Result<Summary, RunFault>
        ensures { IsRun tree.old tree.new self.now result (W.facts out.old) (W.facts out.new) }
    {
        let ranges = statements(alloc, &self.tokens)?;
        run_statements(alloc, tree, self.source, &self.tokens, &ranges, out)
    }
}

// Whether one of the tokens is INSERT or DELETE.
fn has_change_word(source: &[u8], tokens: &[Token]) -> bool
    requires { AreSpelled source.now tokens.now }
    ensures found { result ≡ true → Any (λ t. IsChangeWord source.now t) tokens.now }
    ensures none { result ≡ false → All (λ t. ¬ IsChangeWord source.now t) tokens.now }
{
    for token in tokens {
        if is_change_word(source, token) {
            return true;
        }
    }
    false
}

// Whether the token is INSERT or DELETE.
fn is_change_word(source: &[u8], token: &Token) -> bool
    requires span { token.now.from ≤ token.now.to }
    requires within { token.now.to ≤ length source.now }
    ensures { IsTrue result ↔ IsChangeWord source.now token.now }
{
    let text = &source[token.from..token.to];
    token.kind == TokenKind::Word && (is_word(b"INSERT", text) || is_word(b"DELETE", text))
}

// Whether the text is this word, in any mix of cases.
fn is_word(word: &[u8], text: &[u8]) -> bool
    ensures { result ≡ is_word word.now text.now }
{
    word.eq_ignore_ascii_case(text)
}
