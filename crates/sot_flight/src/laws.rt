//! The theorems on what a flight states.

ghost use Rattle.sot_flight.specs.Laws.{StatedNoiseIsInBounds, StatedNoiseIsForPlants};
ghost use Rattle.sot_flight.specs.Laws.{StatedDraftsAreOfNodes};

/// The stated disturbances of each tick are in the bounds of their plants, and there are no others.
pub fn stated_noise_is_in_bounds()
    ensures each { StatedNoiseIsInBounds }
    ensures count { StatedNoiseIsForPlants }
{}

/// A stated draft has as many slots as its node writes scalars.
pub fn stated_drafts_are_of_their_nodes()
    ensures { StatedDraftsAreOfNodes }
{}
