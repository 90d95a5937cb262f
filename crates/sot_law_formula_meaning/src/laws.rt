//! This function does nothing, and its contract is the law.

ghost use Rattle.sot_law_formula_meaning.specs.Laws.{TextsMeanOnce};

/// A text has one meaning for a program, if it has any.
pub fn texts_mean_once()
    ensures { TextsMeanOnce }
{}
