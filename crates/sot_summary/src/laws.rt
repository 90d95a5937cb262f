//! The laws on summaries.

ghost use Rattle.sot_summary.specs.Laws.{RegionTestsAreExact, WholeFlightsTickToTheHorizon};
ghost use Rattle.sot_summary.specs.Laws.{SafeFlightsStayInside};

/// The test of a point and a region says whether the point is in the region.
pub fn region_tests_are_exact()
    ensures { RegionTestsAreExact }
{}

/// The summary of a whole history has as many ticks as the flight's horizon.
pub fn whole_flights_tick_to_the_horizon()
    ensures { WholeFlightsTickToTheHorizon }
{}

/// No tick of a whole history of a flight from inside the safer regions leaves a plant outside its
/// safe region, where every run is safe.
pub fn safe_flights_stay_inside()
    ensures { SafeFlightsStayInside }
{}
