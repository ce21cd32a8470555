ghost use Rattle.std.specs.Prelude.{◌≡◌};
ghost use Rattle.ub_tetris.specs.Awaited.{HaveDimension, IsFirstOn, IsFirstValue};
ghost use Rattle.ub_tetris.specs.inner.Events.{rank_of};
ghost use Rattle.ub_bigmin.specs.Box.{IsValueInSpan};
ghost use Rattle.ub_planning.specs.Visits as plan;
ghost use Rattle.ub_tree.specs.Spans.{Meets};

use crate::course::Course;
use crate::place::turned;
use ub_bigmin::{ZBox, greatest_value, least_value};
use ub_tree::{Region, Stretch};

/// A stretch to which a sweep is to come, and its event value: the first coordinate along the sweep among the points of the
/// boxes in its span. So no region within it has an earlier one.
#[derive(Clone, Copy, Debug)]
pub struct Awaited {
    /// The event value.
    pub value: u32,
    /// Whether the sweep goes from the greatest coordinate down.
    pub is_descending: bool,
    /// The stretch.
    pub stretch: Stretch,
}

impl Awaited {
    /// A stretch that meets the boxes, with its event value.
    pub fn new(boxes: &[ZBox], stretch: Stretch, course: Course) -> Awaited
        requires within { HaveDimension course.dim boxes.now }
        requires meets { Meets boxes.now stretch.span }
        ensures value { IsFirstValue boxes.now course.dim course.is_descending stretch.span
            result.value }
        ensures along { result.is_descending ≡ course.is_descending }
        ensures stretch { result.stretch ≡ stretch }
    {
        match first_value(boxes, &stretch.span, course) {
            Some(value) => Awaited {
                value,
                is_descending: course.is_descending,
                stretch,
            },
            None => unreachable!(),
        }
    }

    /// A number by which it comes before others: the event value, turned round where greater ones come first.
    pub fn rank(&self) -> i64
        ensures { result ≡ rank_of self.now }
    {
        turned(self.is_descending, i64::from(self.value))
    }
}

/// The first coordinate along the sweep among the points of the boxes in a region's span; `None` where it doesn't meet them.
pub fn first_value(boxes: &[ZBox], region: &Region, course: Course) -> Option<u32>
    requires { HaveDimension course.dim boxes.now }
    ensures { IsFirstOn course.is_descending
        (IsValueInSpan boxes.now region.now.from region.now.to course.dim) result }
{
    let Region { from, to, .. } = *region;
    if course.is_descending {
        greatest_value(boxes, from, to, course.dim)
    } else {
        least_value(boxes, from, to, course.dim)
    }
}

/// Whether a coordinate lies past another one along the sweep.
pub fn is_past(is_descending: bool, last: u32, value: u32) -> bool
    ensures { result ≡ plan.is_past is_descending last value }
{
    if is_descending {
        value < last
    } else {
        last < value
    }
}
