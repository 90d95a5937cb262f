//! Each of these functions does nothing, and its contract is the law.
ghost use Rattle.sot_law_runs.specs.Firings.{FiringsAreDueTimes};
ghost use Rattle.sot_law_runs.specs.GoingOn.{SomethingAlwaysHappens, TimeGoesOn};
ghost use Rattle.sot_law_runs.specs.Openings.{PointsOpen, OpeningsAreUnique, CertifiedProgramsOpen};
ghost use Rattle.sot_law_runs.specs.TubeBoxes.{TubesHaveTheirBoxes, BoxesAreUnique};
ghost use Rattle.sot_law_runs.specs.TubeBoxes.{AnyReachIsInTheBox, HeldReachIsInTheBox};

/// In each configuration of a well-formed program that satisfies the invariant there are
/// disturbances in bounds, and a tick comes with any of them or something is left at its deadline.
/// What is left can fire, a decision that is left cannot be impossible, and so there is no dead
/// end.
pub fn something_always_happens()
    ensures { SomethingAlwaysHappens }
{}

/// Time goes on: from each such configuration it cannot be that no run comes to a later time.
pub fn time_goes_on()
    ensures { TimeGoesOn }
{}

/// At any points, one a plant and as wide as it, there is one opening.
pub fn points_have_one_opening()
    ensures some { PointsOpen }
    ensures one { OpeningsAreUnique }
{}

/// Every well-certified program has an opening with all plants in their modules' safer regions,
/// which is safe and from which it cannot be that no run comes to some time.
pub fn certified_programs_open()
    ensures { CertifiedProgramsOpen }
{}

/// In every run a node has been due as often as it has fired, and once more where it is left; and
/// so for the decisions of a module.
pub fn firings_are_due_times()
    ensures { FiringsAreDueTimes }
{}

/// What a plant can come to after so many ticks lies in the box that the tube has at this tick,
/// with any commands and with held ones; a tube that is inside a region has a box at each of its
/// ticks, one box, and the region covers it.
pub fn tubes_hold_the_reach_at_each_tick()
    ensures boxes { TubesHaveTheirBoxes }
    ensures one { BoxesAreUnique }
    ensures any { AnyReachIsInTheBox }
    ensures held { HeldReachIsInTheBox }
{}
