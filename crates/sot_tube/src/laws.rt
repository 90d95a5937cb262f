//! What certificates, tubes and verdicts are good for: each of these functions does nothing, and
//! its contract is the theorem.

ghost use Rattle.sot_tube.specs.Theorems.{CertifiedIsWellFormed, AnyTubeHoldsAnyReach};
ghost use Rattle.sot_tube.specs.Theorems.{HeldTubeHoldsHeldReach, SharesNoScalar};
ghost use Rattle.sot_tube.specs.Theorems.{TubesLeaveInOneWay, HullsAreUnique};
ghost use Rattle.sot_tube.specs.Theorems.{CoveredCellsNeverTrap, SaferPointsAreKept};
ghost use Rattle.sot_tube.specs.Theorems.{VerdictsAreExact, AcceptedIsWellCertified};
ghost use Rattle.sot_tube.specs.Theorems.{AcceptedWithoutJitter};

/// A program that is well certified, by boxes, is well formed, point by point.
pub fn certified_is_well_formed()
    ensures { CertifiedIsWellFormed }
{}

/// A tube that is inside a region keeps each point inside that its plant can come to from the
/// tube's first box.
pub fn tubes_hold_the_reach()
    ensures any { AnyTubeHoldsAnyReach }
    ensures held { HeldTubeHoldsHeldReach }
{}

/// A tube that leaves a region is not inside it, and it leaves in one way. The hull of a region, in
/// which seen plants are taken, is one box.
pub fn tubes_leave_in_one_way()
    ensures leaves { TubesLeaveInOneWay }
    ensures hulls { HullsAreUnique }
{}

/// Modules that share no topic share no scalar.
pub fn composed_by_scalars()
    ensures { SharesNoScalar }
{}

/// A safe node that is free of traps by the hulls of the safe regions is so from each cell that its
/// safe region covers.
pub fn covered_cells_never_trap()
    ensures { CoveredCellsNeverTrap }
{}

/// A point that a module's safer region has lies in a reach cell, whose tube holds that of the
/// point. So who asks whether such a point is kept need not follow a tube.
pub fn safer_points_are_kept()
    ensures { SaferPointsAreKept }
{}

/// There is one verdict at most, and acceptance is that the program is well certified.
pub fn verdicts_are_exact()
    ensures exact { VerdictsAreExact }
    ensures accepted { AcceptedIsWellCertified }
    ensures without_jitter { AcceptedWithoutJitter }
{}
