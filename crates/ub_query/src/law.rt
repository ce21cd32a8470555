ghost use Rattle.ub_query.specs.Laws.{PosedIsLow, BetweenIsTwo, GroupQueriesAreTold, MinIsLeast, MaxIsGreatest, RowsHaveAnArrangement, RowsHaveOneArrangement, SelectedAreInOrder, RowsInOrderAreArranged, RowsFallIntoGroups, GroupsHaveAnArrangement, GroupsHaveOneArrangement, GroupsFollowTheLead, PlainQueriesMean, QueriesHaveAMeaning, QueriesHaveOneMeaning};

// Each function here does nothing, and its clause is a law of the definitions in specs/. So the law is proved, and is read
// beside the code.

/// A condition which is accepted is at most 128 high.
pub fn posed_is_low()
    ensures { PosedIsLow }
{}

/// BETWEEN is its two comparisons, also where its ends are crossed.
pub fn between_is_two()
    ensures { BetweenIsTwo }
{}

/// A group query is one that the test tells.
pub fn group_queries_are_told()
    ensures { GroupQueriesAreTold }
{}

/// MIN of some numbers is one of them, and not above any.
pub fn min_is_least()
    ensures { MinIsLeast }
{}

/// MAX of some numbers is one of them, and not below any.
pub fn max_is_greatest()
    ensures { MaxIsGreatest }
{}

/// Rows whose numbers ascend can be arranged in every order asked.
pub fn rows_have_an_arrangement()
    ensures { RowsHaveAnArrangement }
{}

/// Rows are arranged in one way only.
pub fn rows_have_one_arrangement()
    ensures { RowsHaveOneArrangement }
{}

/// The selected rows of a table are in order.
pub fn selected_are_in_order()
    ensures { SelectedAreInOrder }
{}

/// Where no order is asked, rows in order are arranged as they stand.
pub fn rows_in_order_are_arranged()
    ensures { RowsInOrderAreArranged }
{}

/// Rows fall into groups.
pub fn rows_fall_into_groups()
    ensures { RowsFallIntoGroups }
{}

/// Groups can be arranged in every order asked.
pub fn groups_have_an_arrangement()
    ensures { GroupsHaveAnArrangement }
{}

/// Groups are arranged in one way only.
pub fn groups_have_one_arrangement()
    ensures { GroupsHaveOneArrangement }
{}

/// Where some rows stand before the others along the lead, so do their groups in the order asked.
pub fn groups_follow_the_lead()
    ensures { GroupsFollowTheLead }
{}

/// A query of rows that asks no order means the selected rows as they stand.
pub fn plain_queries_mean()
    ensures { PlainQueriesMean }
{}

/// Every query means something on every table.
pub fn queries_have_a_meaning()
    ensures { QueriesHaveAMeaning }
{}

/// No query means two things on one table.
pub fn queries_have_one_meaning()
    ensures { QueriesHaveOneMeaning }
{}
