//! Each of these functions does nothing, and its contract is the law.
ghost use Rattle.sot_law_flight_facts.specs.Firings.{FlightsFireWhatIsDue, WholeFlightsFireAllDue};

/// A history of a flight so far tells of each node a firing for each time at which it has been due,
/// but for the one that is left, and a whole history one for each due time from 0 to the horizon;
/// and so for the decisions of a module.
pub fn whole_flights_fire_all_that_is_due()
    ensures so_far { FlightsFireWhatIsDue }
    ensures whole { WholeFlightsFireAllDue }
{}
