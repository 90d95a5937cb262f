//! Theorems on what is read as an expression.
ghost use Rattle.sot_expression.specs.Laws.{ReadsOnlyPhrases, ReadsEachPhrase, PhrasesAreUnique};

/// What is read as an expression is one of the grammar, nests as deep as is said, and has that
/// tree.
#[tactic(auto, using(crate::proofs::Soundness::reads_only_phrases))]
pub fn reads_only_expressions()
    ensures { ReadsOnlyPhrases }
{}

/// Each expression of the grammar that nests no deeper is read, with its tree.
#[tactic(auto, using(crate::proofs::EachRead::reads_each_phrase))]
pub fn reads_each_expression()
    ensures { ReadsEachPhrase }
{}

/// Tokens spell one expression at the most.
#[tactic(auto, using(crate::proofs::EachRead::phrases_are_unique))]
pub fn expressions_are_unique()
    ensures { PhrasesAreUnique }
{}
