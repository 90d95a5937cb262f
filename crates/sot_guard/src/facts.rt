//! Worked examples of the definitions: each of these functions does nothing, and its contract is
//! what a person worked out.

ghost use Rattle.std.specs.Global.{Global};
ghost use Rattle.sot_guard.specs.Examples.{LineMayBeAt3, LineMayNotBeAt4, LineIsOutsideAt4};
ghost use Rattle.sot_guard.specs.Examples.{CommandsAreTheNewOnes};

/// From 0 with command 2 the running example may be observed at 3, and not at 4.
pub fn line_is_observed()
    ensures at_3 { (g : Global) → LineMayBeAt3 g }
    ensures not_at_4 { (g : Global) → LineMayNotBeAt4 g }
    ensures told { (g : Global) → LineIsOutsideAt4 g }
    ensures commands { (g : Global) → CommandsAreTheNewOnes g }
{}
