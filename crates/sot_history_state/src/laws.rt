//! The laws of scenes.
ghost use Rattle.sot_history_state.specs.Laws.{ScenesAreTheRuns, ScenesKeepTheirSizes};

/// The scenes that a history tells are those of its run: after each of its entries, and just before
/// each of its ticks.
pub fn scenes_are_the_runs()
    ensures { ScenesAreTheRuns }
{}

/// An opening is a scene of the program, and stays one by each entry that fits.
pub fn scenes_keep_their_sizes()
    ensures { ScenesKeepTheirSizes }
{}
