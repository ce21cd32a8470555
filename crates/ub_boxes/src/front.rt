ghost use Rattle.std.specs.Prelude.{◌≡◌, ◌<◌, ◌≤◌, ℕ, List, [], ◌++◌, ◌∷◌, length, IfOk};
ghost use Rattle.ub_boxes.specs.Boxes as spec;
ghost use Rattle.ub_bigmin.specs.Box.{IsBox};
ghost use Rattle.ub_boxes.specs.inner.Fronts.{IsFront, widened};

use crate::interval::Interval;
use std::marker::Model;
use ub_bigmin::ZBox;
use ub_zaddr::{Point, Shape};

// A box of the first dimensions of a space of at most four.
#[derive(Drop)]
pub(crate) struct Front {
    lo: [u32; 4],
    hi: [u32; 4],
    dims: usize,
}

impl Model for Front {
    ghost use Rattle.std.specs.Prelude.{take};
    ghost use Rattle.ub_bigmin.specs.Box.{Corners};
    ghost use Rattle.ub_boxes.specs.inner.Fronts.{IsInPlaces};

    ghost Value = { Corners };

    ghost view = { λ f. record { lo = take f.dims f.lo; hi = take f.dims f.hi } };

    ghost invariant = { λ f. IsInPlaces f.lo f.hi f.dims };
}

impl Front {
    // The whole space of so many dimensions.
    pub(crate) fn space(dims: usize) -> Front
        requires { dims ≤ 4 }
        ensures { result ≡ spec.space dims }
    {
        Front {
            lo: [0; 4],
            hi: [u32::MAX; 4],
            dims,
        }
    }

    // The box with an interval of the next dimension.
    pub(crate) fn widened(&self, interval: Interval) -> Front
        requires room { length self.now.lo < 4 }
        requires ordered { interval.low ≤ interval.high }
        ensures { result ≡ widened self.now interval }
    {
        let mut lo = self.lo;
        let mut hi = self.hi;
        lo[self.dims] = interval.low;
        hi[self.dims] = interval.high;
        Front {
            lo,
            hi,
            dims: self.dims + 1,
        }
    }

    // The least corner.
    pub(crate) fn lo(&self) -> &[u32]
        ensures lo { result.now ≡ self.now.lo }
        ensures front { IsFront self.now }
    {
        &self.lo[..self.dims]
    }

    // The greatest corner.
    fn hi(&self) -> &[u32]
        ensures { result.now ≡ self.now.hi }
    {
        &self.hi[..self.dims]
    }

    // The box, where it has all dimensions of the space.
    pub(crate) fn whole(&self, shape: Shape) -> ZBox
        requires { length self.now.lo ≡ shape }
        ensures { result ≡ self.now }
    {
        match (Point::new(shape, self.lo()), Point::new(shape, self.hi())) {
            (Ok(lo), Ok(hi)) => match ZBox::new(shape, &lo, &hi) {
                Some(whole) => whole,
                None => unreachable!(),
            },
            _ => unreachable!(),
        }
    }
}
