ghost use Rattle.ub_planning.specs.Laws.{PlansAreEmpty, SweepsAreLed, RegionsHaveATable, RegionsHaveOneTable, SelectedRowsAreMet, PlansTakeTheSelected, MeetingHoldTheSelected, MeetingHoldTheTables, LimitOfZeroMeansNothing, MeetingAreOne, EventsAreOne, PlansHaveVisits, VisitsAreOne};

// Each function here does nothing, and its clause is a law of the definitions in specs/. So the law is proved, and is read
// beside the code.

/// A plan is empty just where there is no box or the limit is 0.
pub fn plans_are_empty()
    ensures { PlansAreEmpty }
{}

/// A plan that isn't empty sweeps a dimension just where the query is one of rows whose first order key is that dimension, or
/// has a GROUP BY whose lead it is.
pub fn sweeps_are_led()
    ensures { SweepsAreLed }
{}

/// The regions of a table have its rows, in ascending order of number.
pub fn regions_have_a_table()
    ensures { RegionsHaveATable }
{}

/// The regions of a table have no two tables.
pub fn regions_have_one_table()
    ensures { RegionsHaveOneTable }
{}

/// Unless the limit is 0, each selected row stands in a region that meets the plan's boxes.
pub fn selected_rows_are_met()
    ensures { SelectedRowsAreMet }
{}

/// Unless the limit is 0, a plan takes of the rows of the regions those that the query selects.
pub fn plans_take_the_selected()
    ensures { PlansTakeTheSelected }
{}

/// Unless the limit is 0, the selected rows of the regions that meet the plan's boxes are those of all regions, each as often.
pub fn meeting_hold_the_selected()
    ensures { MeetingHoldTheSelected }
{}

/// Unless the limit is 0, the selected rows of the regions that meet the plan's boxes are those of the table, each as often.
pub fn meeting_hold_the_tables()
    ensures { MeetingHoldTheTables }
{}

/// Where the limit is 0, the result has no row.
pub fn limit_of_zero_means_nothing()
    ensures { LimitOfZeroMeansNothing }
{}

/// The regions that meet some boxes are one list.
pub fn meeting_are_one()
    ensures { MeetingAreOne }
{}

/// A sweep comes to them in one order.
pub fn events_are_one()
    ensures { EventsAreOne }
{}

/// Each plan of a query has visits on the regions of each table.
pub fn plans_have_visits()
    ensures { PlansHaveVisits }
{}

/// Each plan of a query has one list of visits on the regions of a table, and no other.
pub fn visits_are_one()
    ensures { VisitsAreOne }
{}
