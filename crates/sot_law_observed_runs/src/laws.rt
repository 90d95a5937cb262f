//! Each of these functions does nothing, and its contract is the law.
ghost use Rattle.sot_law_observed_runs.specs.Laws.{ObservedRunsAreSafe, RunsAreObserved};
ghost use Rattle.sot_law_observed_runs.specs.Laws.{OpeningsKeepTubes, ObservedStepsKeepTubes};
ghost use Rattle.sot_law_observed_runs.specs.Laws.{TubesAreSafe, TubesHaveNextBoxes};

/// Every observed run of a certified program from plants in their safer regions is safe in each of
/// its configurations, and each plant has a next box wherever a tick may come.
pub fn observed_runs_are_safe()
    ensures { ObservedRunsAreSafe }
{}

/// Every run of a certified program from plants in their safer regions is an observed run.
pub fn runs_are_observed()
    ensures { RunsAreObserved }
{}

/// A safer opening keeps tubes, and each observed step from any configuration that does leads to
/// one that does.
pub fn observed_steps_keep_tubes()
    ensures opening { OpeningsKeepTubes }
    ensures step { ObservedStepsKeepTubes }
{}

/// Where tubes are kept, the configuration is safe, and each plant has a next box wherever a tick
/// may come.
pub fn tubes_are_safe()
    ensures safe { TubesAreSafe }
    ensures boxes { TubesHaveNextBoxes }
{}
