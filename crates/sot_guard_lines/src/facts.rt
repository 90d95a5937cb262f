//! Worked lines.

ghost use Rattle.std.specs.Global.{Global};
ghost use Rattle.sot_lang.specs.Tables.{Tables};
ghost use Rattle.sot_guard_lines.specs.Examples.{HeldByACommand, OutsideItsInterval, OtherLines};
ghost use Rattle.sot_guard_lines.specs.Examples.{ResumesAlone, AnswersToResume, ReadyForATick};
ghost use Rattle.sot_guard_lines.specs.Examples.{KnownToARobot};

/// Lines of the running example, written out by hand; `resume` is a line of any program.
pub fn lines_are_as_stated()
    ensures hold { (g : Global) → HeldByACommand g }
    ensures outside { (g : Global) → OutsideItsInterval g }
    ensures ready { (g : Global) → ReadyForATick g }
    ensures outline { (g : Global) → KnownToARobot g }
    ensures others { OtherLines }
    ensures resume { (p : Tables) → ResumesAlone p }
    ensures resumed { (g : Global) → AnswersToResume g }
{}
