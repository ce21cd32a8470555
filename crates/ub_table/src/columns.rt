ghost use Rattle.std.specs.Prelude.{◌≡◌, ◌+◌, ◌<◌, ◌≤◌, [], ◌∷◌, ◌++◌, length};

use crate::name::Name;
use std::marker::Model;

/// The most columns that a table has: 4 dimensions and 4 measures.
pub const MAX_COLUMNS: usize = 8;

/// The names of a table's columns, dimensions first: at most eight.
#[derive(Drop)]
pub struct Columns {
    len: usize,
    names: [Name; MAX_COLUMNS],
}

impl Model for Columns {
    ghost use Rattle.std.specs.Prelude.{List, ℕ, take, ◌≤◌};

    ghost Value = { List (List ℕ) };

    ghost view = { λ c. take c.len c.names };

    ghost invariant = { λ c. c.len ≤ 8 };
}

impl Columns {
    /// A single column.
    pub fn new(first: Name) -> Columns
        ensures { result ≡ first ∷ [] }
    {
        Columns {
            len: 1,
            names: [first; MAX_COLUMNS],
        }
    }

    /// These columns, 1 to 8 of them.
    pub fn from_slice(names: &[Name]) -> Columns
        requires some { 0 < length names.now }
        requires few { length names.now ≤ 8 }
        ensures { result ≡ names.now }
    {
        // The places that no column uses hold the first name again.
        let mut all = [names[0]; MAX_COLUMNS];
        all[..names.len()].copy_from_slice(names);
        Columns {
            len: names.len(),
            names: all,
        }
    }

    /// Puts a column after the others, of which there are fewer than 8.
    pub fn push(&mut self, name: Name)
        requires { length self.old < 8 }
        ensures { self.new ≡ self.old ++ name ∷ [] }
    {
        self.names[self.len] = name;
        self.len += 1;
    }

    // How many columns there are: at most 8.
    pub(crate) fn len(&self) -> usize
        ensures len { result ≡ length self.now }
        ensures few { result ≤ 8 }
    {
        self.as_slice().len()
    }

    /// The columns in order.
    pub fn as_slice(&self) -> &[Name]
        ensures names { result.now ≡ self.now }
        ensures few { length result.now ≤ 8 }
    {
        &self.names[..self.len]
    }
}
