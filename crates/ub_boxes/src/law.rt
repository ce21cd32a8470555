ghost use Rattle.ub_boxes.specs.Laws.{CutsAreTheTurns, TurnsAreWhereItTurns, BoxesAreApart, BoxesAreTheCover, WideBoxesAreTheSpace, SelectedAreInBoxes, ExactBoxesSelect, WideIsAbove4096, BoxesAreInOrder, BoxesAreJoined, PointsAreCounted, BetweenTurnsTwice, BetweenCanBeAsTwo};

// Each function here does nothing, and its clause is a law of the definitions in specs/. So the law is proved, and is read
// beside the code.

/// The values at which a comparison is said to turn are those at which it does.
pub fn turns_are_where_it_turns()
    ensures { TurnsAreWhereItTurns }
{}

/// The cuts of a dimension ascend, and are the coordinates from 1 on that stand for the values at which a comparison on
/// it turns.
pub fn cuts_are_the_turns()
    ensures { CutsAreTheTurns }
{}

/// No two boxes of a condition have a point in common.
pub fn boxes_are_apart()
    ensures { BoxesAreApart }
{}

/// The boxes of a condition are in lexicographic order.
pub fn boxes_are_in_order()
    ensures { BoxesAreInOrder }
{}

/// No two boxes of a condition adjoin along the last dimension and agree in the others.
pub fn boxes_are_joined()
    ensures { BoxesAreJoined }
{}

/// The points in the boxes of a condition that isn't wide are those of its cover.
pub fn boxes_are_the_cover()
    ensures { BoxesAreTheCover }
{}

/// All points are in the boxes of a wide condition.
pub fn wide_boxes_are_the_space()
    ensures { WideBoxesAreTheSpace }
{}

/// Each selected row is in the boxes of the condition.
pub fn selected_are_in_boxes()
    ensures { SelectedAreInBoxes }
{}

/// The rows in exact boxes are the selected ones.
pub fn exact_boxes_select()
    ensures { ExactBoxesSelect }
{}

/// How many points the boxes have together is how many points lie in them.
pub fn points_are_counted()
    ensures { PointsAreCounted }
{}

/// A condition is wide where it has more than 4096 cells.
pub fn wide_is_above_4096()
    ensures { WideIsAbove4096 }
{}

/// A BETWEEN turns where its two comparisons do.
pub fn between_turns_twice()
    ensures { BetweenTurnsTwice }
{}

/// A BETWEEN can be at a point what its two comparisons together can be.
pub fn between_can_be_as_two()
    ensures { BetweenCanBeAsTwo }
{}
