//! Each of these functions does nothing, and its contract is the law.
ghost use Rattle.sot_law_trace_unique.specs.Laws.{NamesAreWords, TracesAreOfOneHistory};

/// The names in the tables of a program that a text spells are words of the language.
pub fn names_are_words()
    ensures { NamesAreWords }
{}

/// Two histories of the flight of a mission that bytes spell are the same, if they have the same
/// trace.
pub fn traces_are_of_one_history()
    ensures { TracesAreOfOneHistory }
{}
