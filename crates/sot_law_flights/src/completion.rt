//! Each of these functions does nothing, and its contract is the law.
ghost use Rattle.sot_law_flights.specs.Completion.{FlightsCanBeCompleted, HistoriesCanBeCompleted};
ghost use Rattle.sot_law_flights.specs.Possible.{PossibleHasStep};

/// Wherever a flight stands, it can be gone on with to its end, with guests that draft nothing: its
/// history so far is the beginning of a whole history of the flight.
pub fn flights_can_be_completed()
    ensures { FlightsCanBeCompleted }
{}

/// Each history so far of a flight of a certified program, with all plants starting in their
/// modules' safer regions, is the beginning of a whole history of the flight.
pub fn histories_can_be_completed()
    ensures { HistoriesCanBeCompleted }
{}

/// In a configuration of a certified program that satisfies the invariant, an event that names what
/// is there is possible exactly where the semantics has a step by it.
pub fn possible_has_a_step()
    ensures { PossibleHasStep }
{}
