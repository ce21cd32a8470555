ghost use Rattle.std.specs.Prelude.{◌≡◌, ◌↔◌, Some, IfSome, IsTrue};
ghost use Rattle.ub_tetris.specs.Awaited.{HaveDimension};
ghost use Rattle.ub_tetris.specs.inner.Events.{IsCourseOf};

use ub_bigmin::ZBox;
use ub_planning::{Kind, Plan};

/// Where a sweep goes: along which dimension, and in which direction.
#[derive(Clone, Copy, PartialEq, Eq, Debug)]
pub struct Course {
    /// The dimension, counted from 0.
    pub dim: usize,
    /// Whether the sweep goes from the greatest coordinate down.
    pub is_descending: bool,
}

/// That of a sweep which comes to no region.
pub const NOWHERE: Course = Course {
    dim: 0,
    is_descending: false,
};

/// The course of a plan that is a sweep, in a dimension that its boxes have. Any other plan has none.
pub fn course_of(plan: &Plan) -> Option<Course>
    ensures is { IfSome result (IsCourseOf plan.now) }
    ensures some { (course : Course) → IsCourseOf plan.now course → result ≡ Some course }
{
    match plan.kind() {
        Kind::Sweep { dim, is_descending } if have_dimension(plan.boxes(), dim) => {
            Some(Course { dim, is_descending })
        }
        _ => None,
    }
}

/// Whether the boxes are of a space that has this dimension.
pub fn have_dimension(boxes: &[ZBox], dim: usize) -> bool
    ensures { IsTrue result ↔ HaveDimension dim boxes.now }
{
    for zbox in boxes {
        if dim >= zbox.lo().values().len() {
            return false;
        }
    }
    true
}
