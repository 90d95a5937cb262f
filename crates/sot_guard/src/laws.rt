//! Each of these functions does nothing, and its contract is the law.

ghost use Rattle.sot_guard.specs.Beginning.{SaferStartsAreHeldSafe, HeldStartsKeepTubes};
ghost use Rattle.sot_guard.specs.Beginning.{OpensRunsAtZero};
ghost use Rattle.sot_guard.specs.Conversations.{TrustedSessionsAreObserved};
ghost use Rattle.sot_guard.specs.Conversations.{TrustComesBackByAResume};
ghost use Rattle.sot_guard.specs.Conversations.{TrustedSessionsAreSafe};

/// The opening at time 0 is the one that runs begin at.
pub fn opens_runs_at_zero()
    ensures { OpensRunsAtZero }
{}

/// An opening in the safer regions is held safe, at whatever time.
pub fn safer_starts_are_held_safe()
    ensures { SaferStartsAreHeldSafe }
{}

/// An opening that is held safe keeps tubes.
pub fn held_starts_keep_tubes()
    ensures { HeldStartsKeepTubes }
{}

/// As long as the models are trusted, what was heard and told is an observed run.
pub fn trusted_sessions_are_observed()
    ensures { TrustedSessionsAreObserved }
{}

/// Where the models are trusted, they are since the beginning or since a resume, and what was heard
/// and told since then is an observed run.
pub fn trust_comes_back_by_a_resume()
    ensures { TrustComesBackByAResume }
{}

/// From a beginning that keeps tubes, each state is in its safe region wherever the models are
/// trusted.
pub fn trusted_sessions_are_safe()
    ensures { TrustedSessionsAreSafe }
{}
