//! What intervals are for, as theorems, and worked intervals.

ghost use Rattle.sot_iv.specs.Soundness.{TermsAreSound, BodiesAreSound, PlantsAreSound};
ghost use Rattle.sot_iv.specs.Uniqueness.{TermsHaveOneInterval, BodiesHaveOneEnd, PlantsHaveOneBox};
ghost use Rattle.sot_iv.specs.Monotony.{TermsNarrow, BodiesNarrow, PlantsNarrow};
ghost use Rattle.sot_iv.specs.Examples.{ProductRow, QuotientRow, ZeroRow, WideRow, RestRows};
ghost use Rattle.sot_iv.specs.Examples.{MagnitudeRow, ComparisonRows, DraftRows};
ghost use Rattle.sot_iv.specs.BodyExamples.{ForEach, Conditions, FirstTraps, Branches};
ghost use Rattle.sot_iv.specs.BodyExamples.{OutsideTarget, SlowOverItsRanges};

/// Where an interval evaluation succeeds, no evaluation at a point of the ranges traps, and what it
/// gives lies in the intervals.
pub fn intervals_hold_all_points()
    ensures terms { TermsAreSound }
    ensures bodies { BodiesAreSound }
    ensures plants { PlantsAreSound }
{}

/// The least intervals of an expression, a body or a plant's tick are one answer or one first trap.
pub fn intervals_are_unique()
    ensures terms { TermsHaveOneInterval }
    ensures bodies { BodiesHaveOneEnd }
    ensures plants { PlantsHaveOneBox }
{}

/// From narrower ranges come narrower intervals, and no trap where the wider ranges have none.
pub fn intervals_are_monotone()
    ensures terms { TermsNarrow }
    ensures bodies { BodiesNarrow }
    ensures plants { PlantsNarrow }
{}

/// Worked intervals of operators, and of what both branches of an undecided condition draft.
pub fn worked_intervals()
    ensures product { ProductRow }
    ensures quotient { QuotientRow }
    ensures zero { ZeroRow }
    ensures wide { WideRow }
    ensures rests { RestRows }
    ensures magnitude { MagnitudeRow }
    ensures comparisons { ComparisonRows }
    ensures drafts { DraftRows }
{}

/// Worked evaluations: conditions, the order of traps, statements, and a node over its declared
/// ranges.
pub fn worked_evaluations()
    ensures conditions { ForEach Conditions }
    ensures traps { ForEach FirstTraps }
    ensures branches { ForEach Branches }
    ensures target { ForEach OutsideTarget }
    ensures node { ForEach SlowOverItsRanges }
{}
