ghost use Rattle.ub_boxes.specs.Examples.{NegativesOfSigned, NoBoxOfAnd, TwoBoxesOfOr, WholeSpaceOfMeasure};

// Each function here does nothing, and its clause is a worked example of the definitions in specs/.

/// `x <= 2 OR y >= 2`
pub fn two_boxes_of_or()
    ensures { TwoBoxesOfOr }
{}

/// `x > 9 AND x < 3`
pub fn no_box_of_and()
    ensures { NoBoxOfAnd }
{}

/// `NOT m > 4`, where m is a measure
pub fn whole_space_of_measure()
    ensures { WholeSpaceOfMeasure }
{}

/// `x < 0`, over a signed dimension
pub fn negatives_of_signed()
    ensures { NegativesOfSigned }
{}
