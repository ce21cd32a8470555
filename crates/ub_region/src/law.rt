ghost use Rattle.ub_region.specs.Laws.{FirstKeysAscend, EachAddressHasASpan, RowsLieInTheirSpans, InsertionKeepsRegions, InsertionAddsTheRow, RemovalKeepsRegions, RemovalTakesTheRow};

// Each function here does nothing, and its clause is a law of the definitions in specs/. So the law is proved, and is read
// beside the code.

/// Of two regions of a table the later one begins with the later key.
pub fn first_keys_ascend()
    ensures { FirstKeysAscend }
{}

/// Each address of the space lies in the span of some region.
pub fn each_address_has_a_span()
    ensures { EachAddressHasASpan }
{}

/// Each row's address lies in the span of the row's region.
pub fn rows_lie_in_their_spans()
    ensures { RowsLieInTheirSpans }
{}

/// Where a row of the next number is put in, they are regions of a table again.
pub fn insertion_keeps_regions()
    ensures { InsertionKeepsRegions }
{}

/// Where a row of the next number is put in, the table gains that row as its last.
pub fn insertion_adds_the_row()
    ensures { InsertionAddsTheRow }
{}

/// Where the row of a key is taken out, they are regions of a table again.
pub fn removal_keeps_regions()
    ensures { RemovalKeepsRegions }
{}

/// Where the row of a key is taken out, the table loses that row alone.
pub fn removal_takes_the_row()
    ensures { RemovalTakesTheRow }
{}
