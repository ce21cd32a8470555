ghost use Rattle.std.specs.Prelude.{◌≡◌, ℕ, ◌-◌, ◌^◌, ◌<◌, ◌≤◌, ◌↔◌, List, length, take, drop, replicate, All, IsOk, IfOk, IfErr};

use crate::fault::ZFault;
use crate::shape::Shape;
use std::marker::Model;

/// A point: one coordinate of 32 bits for each of 1 to 4 dimensions.
#[derive(Clone, Copy, PartialEq, Eq, Debug)]
pub struct Point {
    places: [u32; 4],
    count: usize,
}

impl Model for Point {
    ghost use Rattle.std.specs.Prelude.{ℕ, ◌-◌, ◌++◌, List, length, take, replicate};
    ghost use Rattle.ub_zaddr.specs.Padded.{IsPadded};
    ghost use Rattle.ub_zaddr.specs.Places.{padded_back};

    ghost Value = { List ℕ };

    ghost view = { λ p. take p.count p.places };

    ghost invariant = { λ p. IsPadded p.places p.count };

    ghost inverse = { λ xs. record { places = xs ++ replicate (4 - length xs) 0; count = length xs } };

    ghost inverse_ok = { padded_back };
}

impl Point {
    /// The point with these coordinates. `WrongCount` unless there is one for each dimension.
    pub fn new(shape: Shape, values: &[u32]) -> Result<Point, ZFault>
        ensures allowed { IsOk result ↔ (length values.now ≡ shape) }
        ensures point { IfOk result (λ p. p ≡ values.now) }
        ensures refusal { IfErr result (λ e. e ≡ ZFault.WrongCount) }
    {
        if values.len() != shape.dims() as usize {
            return Err(ZFault::WrongCount);
        }
        let places = match values {
            [x] => [*x, 0, 0, 0],
            [x, y] => [*x, *y, 0, 0],
            [x, y, z] => [*x, *y, *z, 0],
            [x, y, z, w] => [*x, *y, *z, *w],
            _ => unreachable!(),
        };
        Ok(Point::of_places(shape, places))
    }

    /// The point that has its coordinates in the first places, and 0 in those after them.
    pub(crate) fn of_places(shape: Shape, places: [u32; 4]) -> Point
        requires { drop shape places ≡ replicate (4 - shape) 0 }
        ensures { result ≡ take shape places }
    {
        Point {
            places,
            count: shape.dims() as usize,
        }
    }

    /// The coordinates, one for each dimension.
    pub fn values(&self) -> &[u32]
        ensures values { result.now ≡ self.now }
        ensures words { All (λ x. x < 2 ^ 32) self.now }
        ensures some { 1 ≤ length self.now }
        ensures within { length self.now ≤ 4 }
    {
        &self.places[..self.count]
    }

    // The coordinates in the first places, and 0 in those after them.
    pub(crate) fn places(&self) -> &[u32; 4]
        ensures places { take (length self.now) result.now ≡ self.now }
        ensures words { All (λ x. x < 2 ^ 32) self.now }
    {
        &self.places
    }
}
