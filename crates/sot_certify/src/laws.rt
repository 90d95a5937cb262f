//! Each of these functions does nothing, and its contract is the law.
ghost use Rattle.sot_certify.specs.Laws.{FailingPointsLeave, TubesOfFailingPointsLeave};
ghost use Rattle.sot_certify.specs.Laws.{PointsLeave, RefusalsAreTheVerdicts, ListsAreFoundOnce};
ghost use Rattle.sot_certify.specs.Laws.{AnswersAreOne};

/// A failing point is a point of the region, and the box of that point alone is not good.
pub fn failing_points_leave()
    ensures { FailingPointsLeave }
{}

/// The tube of a failing point is not inside the safe region, or may trap: of closed cells under
/// what the safe node surely drafts there, if it meets no trap; of reach cells under any commands.
pub fn tubes_of_failing_points_leave()
    ensures { TubesOfFailingPointsLeave }
{}

/// The tube of each point that may be answered leaves: of closed cells the safe node meets no trap
/// from it, so no premise is left.
pub fn points_leave()
    ensures { PointsLeave }
{}

/// A checker refuses the same, with any certificate that has an entry for each module.
pub fn refusals_are_the_verdicts()
    ensures { RefusalsAreTheVerdicts }
{}

/// There is at most one list of cells for a region, or first failing point.
pub fn lists_are_found_once()
    ensures { ListsAreFoundOnce }
{}

/// Of a program there is at most one answer, besides want of memory: the same cells, the same
/// refusal, the same failing point of the same list, or the same list with too many cells.
pub fn answers_are_one()
    ensures { AnswersAreOne }
{}
