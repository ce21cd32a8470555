ghost use Rattle.ub_index_change.specs.Laws.{AddedPagesAreOwn, ChangeFills, ChangeIsMade, ChangeKeepsOrder, ChangeReplaces, DroppedPagesAreOwn, EntriesCount, FilledIndexIsLow, FullWaysPart, NewIndexIsFilled, RegionsAreForeign, RegionsKeepFilled, ReplacesAtRegion, RootsAreTaken, TurnsBecome};

/// Where a region's entry became others, they stand in its place in the whole list.
pub fn change_replaces()
    ensures { ChangeReplaces }
{}

/// And what an upper entry became is an index again.
pub fn change_keeps_order()
    ensures { ChangeKeepsOrder }
{}

/// What a change spells makes of an entry what it tells, on all later pages on which that stands.
pub fn turns_become()
    ensures { TurnsBecome }
{}

/// A page is parted only where each page on the way to the region is full.
pub fn full_ways_part()
    ensures { FullWaysPart }
{}

/// A change that is prepared is made once the store has grown, the regions' pages are put, and then the pages that it spells.
pub fn change_is_made()
    ensures { ChangeIsMade }
{}

/// A change of an index puts none of the regions' pages.
pub fn regions_are_foreign()
    ensures { RegionsAreForeign }
{}

/// No page serves twice once a region has come.
pub fn added_pages_are_own()
    ensures { AddedPagesAreOwn }
{}

/// No page serves twice once a region has gone.
pub fn dropped_pages_are_own()
    ensures { DroppedPagesAreOwn }
{}

/// How many regions there are after a change.
pub fn entries_count()
    ensures { EntriesCount }
{}

/// A change stands at the index of the region.
pub fn replaces_at_region()
    ensures { ReplacesAtRegion }
{}

/// On an index no root is refused to which its root gives way.
pub fn roots_are_taken()
    ensures { RootsAreTaken }
{}

/// An index of one level is filled.
pub fn new_index_is_filled()
    ensures { NewIndexIsFilled }
{}

/// An index that was filled is filled once a change is made that keeps it so.
pub fn change_fills()
    ensures { ChangeFills }
{}

/// An index is filled as it was where pages change that aren't its own.
pub fn regions_keep_filled()
    ensures { RegionsKeepFilled }
{}

/// An index that is filled has fewer levels than there can be.
pub fn filled_index_is_low()
    ensures { FilledIndexIsLow }
{}
