ghost use Rattle.std.specs.Prelude.{◌≡◌, ℕ, ◌≤◌, ◌↔◌, IsOk, IfOk, IfErr};

use crate::fault::ZFault;
use std::marker::Model;

/// How many dimensions a space has: 1 to 4.
#[derive(Clone, Copy, PartialEq, Eq, Debug)]
pub struct Shape {
    dims: u32,
}

impl Model for Shape {
    ghost Value = { ℕ };

    ghost view = { λ s. s.dims };

    ghost invariant = { λ s. (1 ≤ s.dims) × (s.dims ≤ 4) };

    ghost inverse = { λ n. record { dims = n } };
}

impl Shape {
    /// A space of so many dimensions. `BadDims` unless there are 1 to 4.
    pub fn new(dims: u32) -> Result<Shape, ZFault>
        ensures allowed { IsOk result ↔ ((1 ≤ dims) × (dims ≤ 4)) }
        ensures shape { IfOk result (λ s. s ≡ dims) }
        ensures refusal { IfErr result (λ e. e ≡ ZFault.BadDims) }
    {
        if dims < 1 || 4 < dims {
            return Err(ZFault::BadDims);
        }
        Ok(Shape { dims })
    }

    /// The number of dimensions, 1 to 4.
    pub fn dims(self) -> u32
        ensures same { result ≡ self }
        ensures some { 1 ≤ result }
        ensures within { result ≤ 4 }
    {
        self.dims
    }
}
