ghost use Rattle.std.specs.Prelude.{◌≡◌, ℕ, ◌↔◌, List, length, IsTrue, IsSome, IfSome};
ghost use Rattle.ub_zaddr.specs.Address.{IsAtMost};
ghost use Rattle.ub_bigmin.specs.Box.{Holds, IsBox};
ghost use Rattle.ub_bigmin.specs.Extremes.{LeastFrom, GreatestUpTo};

use crate::laws::{next_by_words, prev_by_words};
use std::marker::Model;
use ub_zaddr::{Point, Shape, spread};

/// A box: the points between two corners, in each coordinate.
#[derive(Clone, Copy, PartialEq, Eq, Debug)]
pub struct ZBox {
    shape: Shape,
    lo: Point,
    hi: Point,
}

impl Model for ZBox {
    ghost use Rattle.std.specs.Prelude.{length};
    ghost use Rattle.ub_bigmin.specs.Box.{Corners, IsBox};

    ghost Value = { Corners };

    ghost view = { λ b. record { lo = b.lo; hi = b.hi } };

    ghost invariant = { λ b. IsBox b.shape (record { lo = b.lo; hi = b.hi }) };

    ghost inverse = { λ c. record { shape = length c.lo; lo = c.lo; hi = c.hi } };

    ghost use Rattle.ub_bigmin.specs.BoxBack.{corners_back};

    ghost inverse_ok = { corners_back };
}

impl ZBox {
    /// The box between two points of this shape. `None` exactly where some coordinate of `lo` is above that of `hi`.
    pub fn new(shape: Shape, lo: &Point, hi: &Point) -> Option<ZBox>
        requires lo { length lo.now ≡ shape }
        requires hi { length hi.now ≡ shape }
        ensures some { IsSome result ↔ IsAtMost lo.now hi.now }
        ensures corners { IfSome result (λ b. (b.lo ≡ lo.now) × (b.hi ≡ hi.now)) }
    {
        let _dims = shape.dims();
        let _lo = lo.values();
        let _hi = hi.values();
        if is_at_most(lo, hi) {
            Some(ZBox {
                shape,
                lo: *lo,
                hi: *hi,
            })
        } else {
            None
        }
    }

    /// The number of dimensions, as a shape.
    pub fn shape(&self) -> Shape
        ensures shape { result ≡ length self.now.lo }
        ensures corners { IsBox result self.now }
    {
        self.shape
    }

    /// The corner that is least in each coordinate.
    pub fn lo(&self) -> &Point
        ensures lo { result.now ≡ self.now.lo }
        ensures corners { IsBox (length self.now.lo) self.now }
    {
        &self.lo
    }

    /// The corner that is greatest in each coordinate.
    pub fn hi(&self) -> &Point
        ensures hi { result.now ≡ self.now.hi }
        ensures corners { IsBox (length self.now.lo) self.now }
    {
        &self.hi
    }

    /// Whether the address is that of a point of the box. So it is false above the last address of the shape.
    pub fn holds(&self, z: u128) -> bool
        ensures { IsTrue result ↔ Holds self.now z }
    {
        match spread(self.shape, z) {
            Ok(point) => is_at_most(&self.lo, &point) && is_at_most(&point, &self.hi),
            Err(_) => false,
        }
    }

    /// The least address of the box that is not below z. `None` exactly where there is none (BIGMIN, but z is its own
    /// next address where the box holds it; Tropf and Herzog 1981).
    pub fn next_in_box(&self, z: u128) -> Option<u128>
        ensures { LeastFrom (Holds self.now) z result }
    {
        let mut turns = 0;
        next_by_words(self, z, &mut turns)
    }

    /// The greatest address of the box that is not above z. `None` exactly where there is none (LITMAX, but z is its
    /// own previous address where the box holds it; Tropf and Herzog 1981).
    pub fn prev_in_box(&self, z: u128) -> Option<u128>
        ensures { GreatestUpTo (Holds self.now) z result }
    {
        let mut turns = 0;
        prev_by_words(self, z, &mut turns)
    }
}

/// Whether p is at most q in each coordinate.
pub(crate) fn is_at_most(p: &Point, q: &Point) -> bool
    requires { length p.now ≡ length q.now }
    ensures point { IsTrue result ↔ IsAtMost p.now q.now }
{
    p.values().iter().zip(q.values()).all(|(a, b)| *a <= *b)
}
