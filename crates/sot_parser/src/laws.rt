//! Theorems on what texts spell.
ghost use Rattle.std.specs.Prelude.{◌≡◌};
ghost use Rattle.sot_syntax_tree.specs.Trees.{Program};
ghost use Rattle.sot_parser.specs.Programs.{Spells};

/// A text spells at most one program.
pub fn programs_are_unique()
    ensures { (bytes : _) → (at : _) → (first : Program) → (second : Program)
        → Spells bytes at first → Spells bytes at second → first ≡ second }
{}
