//! This function does nothing, and its contract is the law.
ghost use Rattle.sot_recovery_text.specs.Laws.{ToldOnce};

/// Of tables that look the same, with certificates that have one jitter and the same cells, one
/// text is told: the rank of each module, or the point for which it has none.
pub fn recoveries_are_told_once()
    ensures { ToldOnce }
{}
