//! Each of these functions does nothing, and its contract is the law.

ghost use Rattle.sot_guard_protocol.specs.TalkLaws.{TrustedTalksAreObserved, TrustedTalksAreSafe};
ghost use Rattle.sot_guard_protocol.specs.TalkLaws.{TrustComesBackByAResume};
ghost use Rattle.sot_guard_protocol.specs.TalkLaws.{BeginsNamesWhoIsHeard, ReadyNamesWhoIsHeard};

/// As long as the models are trusted, what a robot said line by line, and was answered, is an
/// observed run.
pub fn trusted_talks_are_observed()
    ensures { TrustedTalksAreObserved }
{}

/// Wherever the models are trusted, they are so since the first line, or since a line `resume` that
/// was answered `resumed`, and all that happened since is an observed run.
pub fn trust_comes_back_by_a_resume()
    ensures { TrustComesBackByAResume }
{}

/// Wherever the models are trusted, each plant is observed inside its modules' safe regions.
pub fn trusted_talks_are_safe()
    ensures { TrustedTalksAreSafe }
{}

/// At the beginning of a talk an external node may draft exactly where the line `begins` named it.
pub fn begins_names_who_is_heard()
    ensures { BeginsNamesWhoIsHeard }
{}

/// Behind a tick an external node may draft exactly where the line `ready` before it named the node.
pub fn ready_names_who_is_heard()
    ensures { ReadyNamesWhoIsHeard }
{}
