//! Worked texts and their lines.
ghost use Rattle.sot_certified_text.specs.Examples.{Lines};

/// Which texts end with a line end, and which have a section line.
pub fn lines_are_as_stated()
    ensures { Lines }
{}
