//! Each of these functions does nothing, and its contract is the law.
ghost use Rattle.sot_law_runs.specs.RecoveryLaws.{RanksRecover, RunsRecover, RunsHold};
ghost use Rattle.sot_law_runs.specs.RecoveryLaws.{GuardedModules};
ghost use Rattle.sot_law_runs.specs.RecoveryLaws.{RankZeroKeeps, RanksAreOne, HoldsStaySafe};

/// A module of a certified program is recovered within as many holds as its rank.
pub fn ranks_recover()
    ensures { RanksRecover }
{}

/// After as many whole holds as its rank, in any run, the decision that comes next trusts the
/// advanced node.
pub fn runs_recover()
    ensures { RunsRecover }
{}

/// From one firing of the safe node to the next, with the mode `Sc` all along, the path of a run is
/// a hold.
pub fn firings_are_holds()
    ensures { RunsHold }
{}

/// A module of a certified program has all parts of its recovery.
pub fn guarded_modules()
    ensures { GuardedModules }
{}

/// A list of exactly the cells of rank 0 keeps to itself.
pub fn rank_zero_keeps()
    ensures { RankZeroKeeps }
{}

/// A module has one rank at most, or none, with one point.
pub fn ranks_are_one()
    ensures { RanksAreOne }
{}

/// Points of holds stay in the safe region.
pub fn holds_stay_safe()
    ensures { HoldsStaySafe }
{}
