//! Worked lists.
ghost use Rattle.sot_lists.specs.Sevens.{PlacesOfSevens, MembersOfSevens};

/// Which numbers stand at which places of 7, 8, 7.
#[tactic(auto, using(crate::proofs::Sevens::places))]
pub fn places_are_as_stated()
    ensures { PlacesOfSevens }
{}

/// Which numbers are in 7, 8, 7.
#[tactic(auto, using(crate::proofs::Sevens::members))]
pub fn members_are_as_stated()
    ensures { MembersOfSevens }
{}
