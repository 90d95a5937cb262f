//! Worked texts.

ghost use Rattle.std.specs.Global.{Global};
ghost use Rattle.sot_report.specs.WorkedTexts.{RefusalLines, JsonLines, StartLines, CountedCells};

/// Texts of refusals, of faults of a certificate and of a flight, and of a start, written out by
/// hand, and a count of cells.
pub fn texts_are_as_stated()
    ensures refusals { (g : Global) → RefusalLines g }
    ensures sections { JsonLines }
    ensures starts { (g : Global) → StartLines g }
    ensures counts { (g : Global) → CountedCells g }
{}
