//! Worked counts.

ghost use Rattle.std.specs.Global.{Global};
ghost use Rattle.sot_law_flights.specs.Examples.{VersionsOnTheLine, VersionsOnTheRelay};
ghost use Rattle.sot_law_flights.specs.Examples.{FiringsCount};

/// The versions of topics and the firings of nodes in histories that were written out by hand.
pub fn counts_are_as_stated()
    ensures line { (g : Global) → VersionsOnTheLine g }
    ensures relay { (g : Global) → VersionsOnTheRelay g }
    ensures firings { FiringsCount }
{}
