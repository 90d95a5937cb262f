//! Theorems on canonical texts and the programs that they spell.
ghost use Rattle.std.specs.Prelude.{◌≡◌, ℕ, List};
ghost use Rattle.sot_syntax_tree.specs.Trees.{Program};
ghost use Rattle.sot_parser.specs.Programs.{Spells};
ghost use Rattle.sot_print.specs.Canonical.{canonical};
ghost use Rattle.sot_syntax_tree.specs.Formed.{IsFormed};
ghost use Rattle.sot_law_print_parse.specs.Unplaced.{AreSame};

/// The canonical text of a program that some text spells is itself a text of the language, and
/// spells the same program.
pub fn canonical_texts_are_read_back()
    ensures { (bytes : List ℕ) (at : ℕ) (p : Program) → Spells bytes at p
        → (q : Program) × Spells (canonical p) 0 q × AreSame p q }
{}

/// Programs that are the same have the same canonical text.
#[tactic(auto, using(crate::proofs::SameWords::one_text))]
pub fn same_programs_have_one_text()
    ensures { (p q : Program) → AreSame p q → canonical p ≡ canonical q }
{}

/// Programs of the language that have the same canonical text are the same.
pub fn canonical_texts_tell_programs_apart()
    ensures { (a b : List ℕ) (i j : ℕ) (p q : Program) → Spells a i p → Spells b j q
        → canonical p ≡ canonical q → AreSame p q }
{}

/// A canonical text that is read and printed again stays as it is.
pub fn canonical_texts_are_printed_again()
    ensures { (bytes : List ℕ) (at : ℕ) (p q : Program) → Spells bytes at p
        → Spells (canonical p) 0 q → canonical q ≡ canonical p }
{}

/// What a text spells is formed: the grammar alone makes sure of it.
pub fn spelled_programs_are_formed()
    ensures { (bytes : List ℕ) (at : ℕ) (p : Program) → Spells bytes at p → IsFormed p }
{}
