//! The theorems on runs.

ghost use Rattle.sot_world.specs.Headline.{OpeningsKeepInvariant, StepsKeepInvariant};
ghost use Rattle.sot_world.specs.Headline.{WellFormedRunsKeepInvariant, InvariantIsSafe};
ghost use Rattle.sot_world.specs.Headline.{CertifiedRunsAreSafe};
ghost use Rattle.sot_world.specs.Progress.{StepsAreUnique, SomethingCanHappen};
ghost use Rattle.sot_world.specs.Possible.{PossibleIsStep};
ghost use Rattle.sot_world.specs.Publication.{FiringsPublishSo};
ghost use Rattle.sot_world.specs.Calendar.{LeftIsDue, LeftIsNow, NotLeftIsNext};
ghost use Rattle.sot_world.specs.Calendar.{TicksWhereNothingIsLeft};

/// In every run of a well-formed program from plants in their safer regions, each configuration
/// satisfies the invariant.
pub fn runs_keep_the_invariant()
    ensures { WellFormedRunsKeepInvariant }
{}

/// A safer opening satisfies the invariant, and each step from any configuration that satisfies it
/// leads to one that does.
pub fn steps_keep_the_invariant()
    ensures opening { OpeningsKeepInvariant }
    ensures step { StepsKeepInvariant }
{}

/// Where the invariant holds, every plant is in its module's safe region and nothing can trap.
pub fn the_invariant_is_safe()
    ensures { InvariantIsSafe }
{}

/// Every run of a certified program from plants in their safer regions is safe in each of its
/// configurations.
pub fn certified_runs_are_safe()
    ensures { CertifiedRunsAreSafe }
{}

/// Configuration and event determine the next configuration and what is recorded of the step.
pub fn steps_are_unique()
    ensures { StepsAreUnique }
{}

/// Wherever the invariant holds, what is left can fire, and where nothing has reached its deadline
/// a tick can come.
pub fn something_can_happen()
    ensures { SomethingCanHappen }
{}

/// An enabled node publishes its drafted numbers in range and no other, a disabled one nothing, and
/// the locals are new in either case.
pub fn firings_publish_what_is_drafted()
    ensures { FiringsPublishSo }
{}

/// Without jitter what is left is due now, the counts until a firing are the calendar's, and a tick
/// comes exactly where nothing is left.
pub fn without_jitter()
    ensures left_is_due { LeftIsDue }
    ensures until_left { LeftIsNow }
    ensures until_next { NotLeftIsNext }
    ensures tick_settled { TicksWhereNothingIsLeft }
{}

/// What `World::can` tells is the semantics: an event is possible exactly where there is a step by
/// it.
pub fn possible_is_what_has_a_step()
    ensures { PossibleIsStep }
{}
