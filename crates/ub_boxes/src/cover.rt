use std::marker::Model;
use ub_bigmin::ZBox;
use ub_query::Items;

/// The most cells of which boxes are made: a condition with more is wide.
pub const MAX_CELLS: usize = 4096;

/// The boxes of a condition, outside of which no selected row lies.
#[derive(Drop)]
pub struct Cover {
    boxes: Items<ZBox>,
    is_exact: bool,
    is_wide: bool,
}

impl Model for Cover {
    ghost use Rattle.std.specs.Prelude.{◌≤◌, ◌^◌};
    ghost use Rattle.ub_boxes.specs.Boxes.{Covering};
    ghost use Rattle.ub_boxes.specs.Points.{total};

    ghost Value = { Covering };

    ghost view = { λ c. record { boxes = c.boxes; exact = c.is_exact; wide = c.is_wide } };

    ghost invariant = { λ c. total c.boxes ≤ 2 ^ 128 };
}

impl Cover {
    ghost use Rattle.std.specs.Prelude.{◌≡◌, ◌≤◌, ◌^◌};
    ghost use Rattle.ub_boxes.specs.Points.{total};

    /// The cover of these parts.
    pub(crate) fn new(boxes: Vec<ZBox>, is_exact: bool, is_wide: bool) -> Cover
        requires { total boxes.items ≤ 2 ^ 128 }
        ensures { result ≡ record { boxes = boxes.items; exact = is_exact; wide = is_wide } }
    {
        Cover {
            boxes: Items::new(boxes),
            is_exact,
            is_wide,
        }
    }

    /// The boxes, in lexicographic order. No two of them have a point in common.
    pub fn boxes(&self) -> &[ZBox]
        ensures boxes { result.now ≡ self.now.boxes }
        ensures points { total self.now.boxes ≤ 2 ^ 128 }
    {
        self.boxes.as_slice()
    }

    /// Whether the condition names dimensions only and isn't wide; then the rows in the boxes are the selected ones.
    pub fn is_exact(&self) -> bool
        ensures { result ≡ self.now.exact }
    {
        self.is_exact
    }

    /// Whether the condition has more than `MAX_CELLS` cells. Then the one box is the whole space.
    pub fn is_wide(&self) -> bool
        ensures { result ≡ self.now.wide }
    {
        self.is_wide
    }
}
