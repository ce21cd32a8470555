use std::alloc::{AllocError, Global};
use std::marker::Model;

/// A list of things in order. A contract sees it as the list.
#[derive(Drop)]
pub struct Items<T> {
    all: Vec<T>,
}

impl<T> Model for Items<T> {
    ghost use Rattle.std.specs.Prelude.{List};

    ghost Value = { List T };

    ghost view = { λ s. s.all.items };
}

impl<T> Items<T> {
    ghost use Rattle.std.specs.Prelude.{◌≡◌};

    /// The list of these things.
    pub fn new(all: Vec<T>) -> Items<T>
        ensures { result ≡ all.items }
    {
        Items { all }
    }

    /// The things, in order.
    pub fn as_slice(&self) -> &[T]
        ensures { result.now ≡ self.now }
    {
        self.all.as_slice()
    }
}

impl<T: Copy> Items<T> {
    ghost use Rattle.std.specs.Prelude.{◌≡◌, IfOk};

    /// The same list in memory of its own.
    pub fn copy(&self, alloc: Global) -> Result<Items<T>, AllocError>
        ensures { IfOk result (λ items. items ≡ self.now) }
    {
        Ok(Items::new(Vec::from_slice(alloc, self.as_slice())?))
    }
}
