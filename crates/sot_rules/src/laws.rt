//! The list of a program's faults, and the rules that fail.
ghost use Rattle.std.specs.Prelude.{◌≡◌, ◌↔◌, Some, None};
ghost use Rattle.sot_lists.specs.Places.{Has};
ghost use Rattle.sot_syntax_tree.specs.Trees.{Program};
ghost use Rattle.sot_rules.specs.declared.fault.TypeFault.{TypeFault};
ghost use Rattle.sot_rules.specs.Fails.{Fails};
ghost use Rattle.sot_rules.specs.First.{IsFirstFault, IsFaultless};
ghost use Rattle.sot_rules.specs.Faults.{faults, least};

/// The list of a program's faults has exactly the rules that fail, and its least one is the
/// program's first fault.
pub fn faults_are_the_failing_rules()
    ensures listed { (p : Program) (f : TypeFault) → Has (faults p) f ↔ Fails p f.at f.kind }
    ensures first { (p : Program) (f : TypeFault) → least None (faults p)
        ≡ Some f → IsFirstFault p f }
    ensures faultless { (p : Program) → least None (faults p) ≡ None → IsFaultless p }
{}
