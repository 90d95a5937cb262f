//! Theorems on reading words back.
ghost use Rattle.std.specs.Prelude.{List};
ghost use Rattle.sot_syntax_tree.specs.Trees.{Program};
ghost use Rattle.sot_print.specs.Words.{Word, text_of};
ghost use Rattle.sot_print.specs.Canonical.{words, canonical};
ghost use Rattle.sot_print.specs.Layout.{AreTokens, AreParted, Reads};
ghost use Rattle.sot_syntax_tree.specs.Formed.{IsFormed};

/// Words that are tokens, and that touch only where they may, are read back from their text.
#[tactic(auto, using(crate::proofs::ReadBack::words_read))]
pub fn words_are_read_back()
    ensures { (ws : List Word) → AreTokens ws → AreParted ws → Reads (text_of ws) ws }
{}

/// The tokens of the canonical text of a formed program are its words in order.
#[tactic(auto, using(crate::proofs::ProgramSits::canonical_read))]
pub fn canonical_words_are_read_back()
    ensures { (p : Program) → IsFormed p → Reads (canonical p) (words p) }
{}
