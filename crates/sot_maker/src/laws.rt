//! Laws of the offsets and of the length of made texts.

ghost use Rattle.sot_maker.specs.Laws.{NoTwoAreDueTogether, MadeTextsAreShort};

/// Whatever its word is, no two of a module's three parts are due in one instant.
pub fn no_two_are_due_together()
    ensures { NoTwoAreDueTogether }
{}

/// A made mission is far shorter than the longest input.
pub fn made_texts_are_short()
    ensures { MadeTextsAreShort }
{}
