//! Each of these functions does nothing, and its contract is the law.

ghost use Rattle.sot_law_guard_answers.specs.Answers.{LinesAreAnsweredOnce, StartsAreHeardOnce};
ghost use Rattle.sot_law_guard_answers.specs.Answers.{TalksBeginOnce};

/// Lines without numbers of more than 64 bits are answered in one way.
pub fn lines_are_answered_once()
    ensures { LinesAreAnsweredOnce }
{}

/// A line says in one way where the next plant is observed, or fails to for one cause.
pub fn starts_are_heard_once()
    ensures { StartsAreHeardOnce }
{}

/// Talks that begin about one program, at one time with their plants at the same points, are one.
pub fn talks_begin_once()
    ensures { TalksBeginOnce }
{}
