//! The law of moments.
ghost use Rattle.sot_monitor.specs.Laws.{MomentsAreTheRuns};

/// The moments that a history tells are those of its run.
pub fn moments_are_the_runs()
    ensures { MomentsAreTheRuns }
{}
