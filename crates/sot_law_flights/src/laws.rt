//! Each of these functions does nothing, and its contract is the law.
ghost use Rattle.sot_law_flights.specs.Laws.{HistoriesAreRuns, BeginningsAreHistories};
ghost use Rattle.sot_law_flights.specs.Laws.{FlownPositionsAreSafe};
ghost use Rattle.sot_law_flights.specs.ToldModes.{DecisionsTellModes, FiringsTellWhetherEnabled};
ghost use Rattle.sot_law_flights.specs.Told.{InputsAreTheFlights, TicksAreTheTime, TicksAreStated};
ghost use Rattle.sot_law_flights.specs.Told.{TicksTellStates, DraftsAreStated};

/// A history of a flight is a run from the opening at the flight's points, with one event an entry;
/// the entry tells of this event, and the run ends where the flight stands.
pub fn histories_are_runs()
    ensures { HistoriesAreRuns }
{}

/// The first entries of a history of a flight are a history of it so far.
pub fn beginnings_are_histories()
    ensures { BeginningsAreHistories }
{}

/// Where every run is safe and a flight starts with all plants in their modules' safer regions,
/// each position that it comes to is safe.
pub fn flown_positions_are_safe()
    ensures { FlownPositionsAreSafe }
{}

/// A whole history tells the flight's inputs, each at its time and in order, and a history so far
/// the first of them.
pub fn inputs_are_the_flights()
    ensures { InputsAreTheFlights }
{}

/// A history has as many ticks as its time says, and a whole one as many as the horizon.
pub fn ticks_are_the_time()
    ensures { TicksAreTheTime }
{}

/// Each tick comes before the horizon, with the disturbances that the flight states for its time.
pub fn ticks_are_stated()
    ensures { TicksAreStated }
{}

/// Each tick tells the states that the plants come to.
pub fn ticks_tell_states()
    ensures { TicksTellStates }
{}

/// A firing of an external node, whose draft the flight states by the number of the firing, tells
/// this draft.
pub fn drafts_are_stated()
    ensures { DraftsAreStated }
{}

/// Each decision tells its time, and the mode that its module comes to.
pub fn decisions_tell_modes()
    ensures { DecisionsTellModes }
{}

/// Each firing tells its time, and whether its node is enabled.
pub fn firings_tell_whether_enabled()
    ensures { FiringsTellWhetherEnabled }
{}
