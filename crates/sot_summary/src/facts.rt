//! Worked summaries.

ghost use Rattle.std.specs.Global.{Global};
ghost use Rattle.sot_summary.specs.Examples.{RelaySummary, LineSummary, EachPlantInItsRegion};
ghost use Rattle.sot_summary.specs.Examples.{SaidInOneLine};

/// Summaries that were counted by hand: of the relay, of the running example, and of two plants of
/// which now one, now both are outside.
pub fn summaries_are_as_stated()
    ensures relay { (g : Global) → RelaySummary g }
    ensures line { (g : Global) → LineSummary g }
    ensures plants { (g : Global) → EachPlantInItsRegion g }
    ensures text { SaidInOneLine }
{}
