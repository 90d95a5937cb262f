//! Laws of lines of a robot, proved of every program.

ghost use Rattle.sot_guard_lines.specs.Shown.{SaidOnce};

/// A line says one thing at most.
pub fn lines_say_once()
    ensures { SaidOnce }
{}
