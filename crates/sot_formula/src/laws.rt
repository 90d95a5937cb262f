//! The law of causes.
ghost use Rattle.sot_formula.specs.Answers.{CausesExcludeEachOther};

/// A text whose formula has a meaning has no unknown reference and no literal of another scale, as
/// whatever formula it is read; and an unknown reference is one in each.
pub fn causes_exclude_each_other()
    ensures { CausesExcludeEachOther }
{}
