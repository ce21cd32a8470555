ghost use Rattle.ub_growing.specs.Laws.{LaterRowsComeAfter, RowsPartAtAKey, FewRowsAreOneRegion, SortedRowsAscend, SortingParts, ManyRowsPart, RegionsAreInLine};

// Each function here does nothing, and its clause is a law of the definitions in specs/. So the law is proved, and is read
// beside the code.

/// Rows put in after others are put into what those made.
pub fn later_rows_come_after()
    ensures { LaterRowsComeAfter }
{}

/// Regions on either side of a key take the rows on that side alone.
pub fn rows_part_at_a_key()
    ensures { RowsPartAtAKey }
{}

/// As many rows as a page holds are one region.
pub fn few_rows_are_one_region()
    ensures { FewRowsAreOneRegion }
{}

/// Rows of other numbers that are put in order ascend by key.
pub fn sorted_rows_ascend()
    ensures { SortedRowsAscend }
{}

/// Rows before a key, put in order, are those of all rows in order.
pub fn sorting_parts()
    ensures { SortingParts }
{}

/// Where a page doesn't hold the first rows together, all rows part at the separator of these.
pub fn many_rows_part()
    ensures { ManyRowsPart }
{}

/// The regions that rows of ascending numbers make are in order.
pub fn regions_are_in_line()
    ensures { RegionsAreInLine }
{}
