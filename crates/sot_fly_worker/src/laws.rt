//! Laws on histories that go on.

ghost use Rattle.sot_fly_worker.specs.Laws.{WholeHistoriesEnd, FitsStay, AnswersStay};

/// A whole history cannot go on, so what a finished worker has seen is what the board has at its
/// end.
pub fn whole_histories_end()
    ensures { WholeHistoriesEnd }
{}

/// An asking that fits a firing fits it in each longer history.
pub fn fits_stay()
    ensures { FitsStay }
{}

/// What is answered stays answered while the node does not fire again.
pub fn answers_stay()
    ensures { AnswersStay }
{}
