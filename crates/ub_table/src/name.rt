ghost use Rattle.std.specs.Prelude.{◌≡◌, ◌≤◌, ◌<◌, ◌-◌, ◌++◌, ◌↔◌, length, replicate, IsTrue, IsOk, IfOk, IfErr};
ghost use Rattle.std.specs.List.{list_all};
ghost use Rattle.ub_table.specs.Name as spec;

use crate::fault::PageFault;
use crate::keyword::is_keyword;
use std::marker::Model;

/// The most bytes that a name has.
pub const MAX_NAME_LEN: usize = 32;

/// The name of a table or of a column: 1 to 32 ASCII bytes, a letter or `_` first, then letters, digits or `_`, and no
/// keyword of the language in any case.
#[derive(Clone, Copy, Debug)]
pub struct Name {
    len: usize,
    text: [u8; MAX_NAME_LEN],
}

impl Model for Name {
    ghost use Rattle.std.specs.Prelude.{List, ℕ, length, take, replicate, ◌++◌, ◌-◌};
    ghost use Rattle.ub_table.specs.Block.{IsNameBlock, length-block, padded-block};

    ghost Value = { List ℕ };

    ghost view = { λ n. take n.len n.text };

    ghost invariant = { λ n. IsNameBlock n.len n.text };

    // The unused bytes are 0, so that a name is stored in one way alone.
    ghost inverse = { λ name. record { len = length name; text = name ++ replicate (32 - length name) 0 } };

    ghost inverse_ok = { λ n h i. record { len = length-block n.len n.text h i; text = padded-block n.len n.text h i } };
}

impl Name {
    /// The name that the text spells, or `BadName` where it breaks the rule for names.
    pub fn new(text: &[u8]) -> Result<Name, PageFault>
        ensures valid { IsOk result ↔ spec.IsName text.now }
        ensures text { IfOk result (λ name. name ≡ text.now) }
        ensures refused { IfErr result (λ fault. fault ≡ PageFault.BadName) }
    {
        if !is_name(text) {
            return Err(PageFault::BadName);
        }
        Ok(Name {
            len: text.len(),
            text: padded(text),
        })
    }

    /// The bytes of the name, as they were given.
    pub fn bytes(&self) -> &[u8]
        ensures bytes { result.now ≡ self.now }
        ensures name { spec.IsName self.now }
        ensures short { length self.now ≤ 32 }
    {
        &self.text[..self.len]
    }
}

impl PartialEq for Name {
    ghost use Rattle.std.specs.Prelude.{◌≡◌, ◌↔◌, IsTrue};
    ghost use Rattle.std.specs.Str.{bytes_eq};
    ghost use Rattle.std.specs.Cmp.{partial_equiv_from_equiv};
    ghost use Rattle.std.proofs.lemmas.Cmp.{nat_list_eq_equiv};

    ghost eq = { bytes_eq };

    ghost laws = { partial_equiv_from_equiv nat_list_eq_equiv };

    fn eq(&self, other: &Name) -> bool
        ensures value { result ≡ bytes_eq self.now other.now }
        ensures same { IsTrue result ↔ (self.now ≡ other.now) }
    {
        self.bytes() == other.bytes()
    }
}

impl Eq for Name {
    ghost use Rattle.std.proofs.lemmas.Cmp.{nat_list_eq_equiv};

    ghost laws = { nat_list_eq_equiv };
}

#[tactic(auto, unfolding(crate::specs::Name::is_name))]
fn is_name(text: &[u8]) -> bool
    ensures { result ≡ spec.is_name text.now }
{
    if !has_name_len(text) || !is_letter(text[0]) {
        return false;
    }
    has_word_bytes(text) && !is_keyword(text)
}

fn has_name_len(text: &[u8]) -> bool
    ensures { IsTrue result ↔ (0 < length text.now) × (length text.now ≤ 32) }
{
    !text.is_empty() && text.len() <= MAX_NAME_LEN
}

fn has_word_bytes(text: &[u8]) -> bool
    ensures { result ≡ list_all (λ byte. spec.is_word_byte byte) text.now }
{
    text.iter().all(|byte| is_word_byte(*byte))
}

fn is_letter(byte: u8) -> bool
    ensures { result ≡ spec.is_letter byte }
{
    byte.is_ascii_alphabetic() || byte == b'_'
}

fn is_word_byte(byte: u8) -> bool
    ensures { result ≡ spec.is_word_byte byte }
{
    is_letter(byte) || byte.is_ascii_digit()
}

// The text, and zeros after it.
fn padded(text: &[u8]) -> [u8; MAX_NAME_LEN]
    requires { length text.now ≤ 32 }
    ensures { result ≡ text.now ++ replicate (32 - length text.now) 0 }
{
    let mut bytes = [0; MAX_NAME_LEN];
    bytes[..text.len()].copy_from_slice(text);
    bytes
}
