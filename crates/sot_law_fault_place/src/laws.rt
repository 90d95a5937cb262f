//! Each of these functions does nothing, and its contract is the law.
ghost use Rattle.sot_law_fault_place.specs.Laws.{PlacesAreExact, ExactPlacesExist};
ghost use Rattle.sot_law_fault_place.specs.Laws.{TextsAreOnlyDeep, ExactPlacesAreOne};
ghost use Rattle.sot_law_fault_place.specs.Laws.{DeepComesBefore, ProgramsHaveNoFault};

/// The place of a fault of syntax, and its kind, are those that the grammar gives.
pub fn places_are_exact()
    ensures { PlacesAreExact }
{}

/// A text of the grammar that is no program nests too deep, and that is its fault.
pub fn texts_are_only_deep()
    ensures { TextsAreOnlyDeep }
{}

/// What is no text of the grammar has a fault that is not one of nesting, also where reading stops
/// before it, at a token at which it nests too deep.
pub fn exact_places_exist()
    ensures { ExactPlacesExist }
{}

/// But for nesting, the tokens of a text have one fault at the most.
pub fn exact_places_are_one()
    ensures { ExactPlacesAreOne }
{}

/// A token at which a text nests too deep stands before the first token with which no text goes on.
pub fn deep_comes_before()
    ensures { DeepComesBefore }
{}

/// A text that spells a program has no fault.
pub fn programs_have_no_fault()
    ensures { ProgramsHaveNoFault }
{}
