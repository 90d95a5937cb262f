//! Each of these functions does nothing, and its contract is the law.
ghost use Rattle.sot_law_bridge_answers.specs.Laws.{RefusedOnce, RejectedOnce, RefusesLikeFly};

/// Two missions that join, one of which is refused, are told so with one text.
pub fn refused_once()
    ensures { RefusedOnce }
{}

/// Why two missions are not taken is told with one text, but for what nests too deep, and for the
/// line and column of a fault of typing.
pub fn rejected_once()
    ensures { RejectedOnce }
{}

/// What is said of the one that is refused is what `fly` of `soter` says of it alone.
pub fn refuses_like_fly()
    ensures { RefusesLikeFly }
{}
