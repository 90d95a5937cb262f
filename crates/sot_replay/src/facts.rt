//! Worked lines, as facts that the check computes from the definitions.

ghost use Rattle.std.specs.Global.{Global};
ghost use Rattle.sot_replay.specs.Examples.{TestsInOrder, TwoTraces, OtherFirstLines};
ghost use Rattle.sot_replay.specs.Examples.{OtherLastLines, SpellNothing, RefusedLines};
ghost use Rattle.sot_replay.specs.Examples.{MeetsTheLaws};
ghost use Rattle.sot_replay.specs.LineExamples.{LineTrace, OtherStartLines, OtherDecisions};
ghost use Rattle.sot_replay.specs.LineExamples.{OtherDrafts, OtherTicks, OtherLaterLines};
ghost use Rattle.sot_replay.specs.LineExamples.{LineMeetsTheLaws};

/// The order of the tests; the two traces of a flight of the relay; and lines with the first test
/// that each does not pass.
pub fn lines_are_as_stated()
    ensures order { TestsInOrder }
    ensures traces { (g : Global) → TwoTraces g }
    ensures first { (g : Global) → OtherFirstLines g }
    ensures last { (g : Global) → OtherLastLines g }
    ensures nothing { (g : Global) → SpellNothing g }
    ensures refused { (g : Global) → RefusedLines g }
    ensures laws { (g : Global) → MeetsTheLaws g }
{}

/// The trace of a flight with a plant and a module, and lines with the first test that each does
/// not pass.
pub fn lines_of_the_vehicle_are_as_stated()
    ensures trace { (g : Global) → LineTrace g }
    ensures starts { (g : Global) → OtherStartLines g }
    ensures decisions { (g : Global) → OtherDecisions g }
    ensures drafts { (g : Global) → OtherDrafts g }
    ensures ticks { (g : Global) → OtherTicks g }
    ensures later { (g : Global) → OtherLaterLines g }
    ensures laws { (g : Global) → LineMeetsTheLaws g }
{}
