ghost use Rattle.ub_index.specs.Laws.{EntriesArePlaces, OthersStay, OwnPagesStandApart, PagesAreThere, RegionsAreLedTo, RegionsMayChange, WaysAreOne, WaysAreTheSame, WaysHold, WaysMissFirst, WaysNeverStop, WaysStay, WholeAscends, ZerosAreNoIndexPage};

/// What an entry leads to is in order.
pub fn whole_ascends()
    ensures { WholeAscends }
{}

/// On an index no search is refused for what a page tells, nor for one that isn't there.
pub fn ways_never_stop()
    ensures { WaysNeverStop }
{}

/// What an entry leads to stays where its pages stay.
pub fn others_stay()
    ensures { OthersStay }
{}

/// The pages of an index are pages of the store.
pub fn pages_are_there()
    ensures { PagesAreThere }
{}

/// The entries of an index are those of a table's regions.
pub fn entries_are_places()
    ensures { EntriesArePlaces }
{}

/// An index stands as it stood where pages change that aren't its own.
pub fn regions_may_change()
    ensures { RegionsMayChange }
{}

/// No way goes over page 0, so that it may change.
pub fn ways_miss_first()
    ensures { WaysMissFirst }
{}

/// Where a store grows, ways lead where they led.
pub fn ways_stay()
    ensures { WaysStay }
{}

/// And no other way leads anywhere, where no page of an index came.
pub fn ways_are_the_same()
    ensures { WaysAreTheSame }
{}

/// A page that a store adds is none of an index.
pub fn zeros_are_no_index_page()
    ensures { ZerosAreNoIndexPage }
{}

/// A way leads to a region that holds the key, and the way to each of its keys does.
pub fn ways_hold()
    ensures { WaysHold }
{}

/// The way to a key leads to one region.
pub fn ways_are_one()
    ensures { WaysAreOne }
{}

/// On an index ways lead to its regions, and to each of them.
pub fn regions_are_led_to()
    ensures { RegionsAreLedTo }
{}

/// The regions' pages are none of the index.
pub fn own_pages_stand_apart()
    ensures { OwnPagesStandApart }
{}
