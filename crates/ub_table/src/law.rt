ghost use Rattle.ub_table.specs.Laws.{CoordinatesAreValues, ValuesOfADimension, ValuesAscend, ValuesTellCoordinates, RowNumbersEnd, PagesEnd};

// Each function here does nothing, and its clause is a law of the definitions in specs/. So the law is proved, and is read
// beside the code.

/// The coordinate that stands for a number is the one whose value it is.
pub fn coordinates_are_values()
    ensures { CoordinatesAreValues }
{}

/// The values of a dimension are 0 to 2^32 - 1, and those of a signed one -2^31 to 2^31 - 1.
pub fn values_of_a_dimension()
    ensures { ValuesOfADimension }
{}

/// The lesser coordinate of a dimension stands for the lesser value.
pub fn values_ascend()
    ensures { ValuesAscend }
{}

/// Equal values of a dimension are those of one coordinate.
pub fn values_tell_coordinates()
    ensures { ValuesTellCoordinates }
{}

/// The greatest row number is 2^24 - 1.
pub fn row_numbers_end()
    ensures { RowNumbersEnd }
{}

/// A page holds 64 rows at most.
pub fn pages_end()
    ensures { PagesEnd }
{}
