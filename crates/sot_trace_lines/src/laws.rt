//! The laws on spelled lines.

ghost use Rattle.sot_trace_lines.specs.Laws.{SpelledOnce, EntriesAreSpelled};

/// A line spells one thing at most.
pub fn lines_spell_once()
    ensures { SpelledOnce }
{}

/// The line of an entry that fits spells the entry.
pub fn entries_are_spelled()
    ensures { EntriesAreSpelled }
{}
