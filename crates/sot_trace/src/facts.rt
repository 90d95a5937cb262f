//! Worked traces.

ghost use Rattle.std.specs.Global.{Global};
ghost use Rattle.sot_trace.specs.Examples.{AwayFromNought, TurnedBack, OutsideIsMarked};
ghost use Rattle.sot_trace.specs.Examples.{MarksOfDrafts, DisabledDrafts, RecordsAndInputs};
ghost use Rattle.sot_trace.specs.Examples.{NumbersOfAnySize, MeetsTheLaw};

/// Traces, lines and numbers, written out by hand: of the running example and of a wider one.
pub fn traces_are_as_stated()
    ensures away { (g : Global) → AwayFromNought g }
    ensures back { (g : Global) → TurnedBack g }
    ensures outside { (g : Global) → OutsideIsMarked g }
    ensures marks { (g : Global) → MarksOfDrafts g }
    ensures disabled { (g : Global) → DisabledDrafts g }
    ensures records { (g : Global) → RecordsAndInputs g }
    ensures numbers { NumbersOfAnySize }
    ensures law { (g : Global) → MeetsTheLaw g }
{}
