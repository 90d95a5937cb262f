//! The laws of replay. Each of these functions does nothing, and its contract is the law.

ghost use Rattle.sot_replay.specs.Laws.{ToldLinesGoOn, NextLinesGoOn, FailingLinesStop, FirstLines};
ghost use Rattle.sot_replay.specs.Laws.{RefusedOnce, TracesAreNotRefused, TracedOnce};

/// Lines that tell the history of a flight so far begin the trace of a whole history of it.
pub fn told_lines_go_on()
    ensures { ToldLinesGoOn }
{}

/// Lines that tell the history of a flight so far, and a line more, begin the trace of a whole
/// history exactly where that is the line of an entry with which the flight goes on, or the last
/// line at the flight's end.
pub fn next_lines_go_on()
    ensures { NextLinesGoOn }
{}

/// Lines that tell the history of a flight so far, and a line for which a test fails, begin the
/// trace of no whole history of it.
pub fn failing_lines_stop()
    ensures { FailingLinesStop }
{}

/// Where there is no line, line 1 is missing; and where the first line is not the header, line 1 is
/// none of a trace.
pub fn first_lines_are_refused()
    ensures { FirstLines }
{}

/// Lines are refused at one line, and there by one test.
pub fn lines_are_refused_once()
    ensures { RefusedOnce }
{}

/// The trace of a whole history is not refused.
pub fn traces_are_not_refused()
    ensures { TracesAreNotRefused }
{}

/// Lines are the trace of one history.
pub fn lines_are_traced_once()
    ensures { TracedOnce }
{}
