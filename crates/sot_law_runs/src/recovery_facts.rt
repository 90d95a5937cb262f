//! Worked facts of recovery. Each of these functions does nothing, and its contract is what a
//! person worked out.
ghost use Rattle.std.specs.Prelude.{pos, true, List, [], ◌∷◌, ◌++◌};
ghost use Rattle.std.specs.Global.{Global};
ghost use Rattle.sot_world.specs.declared.mode.Mode.TheVariants.{Sc};
ghost use Rattle.sot_world.specs.Steps.{Code, Decide};
ghost use Rattle.sot_law_runs.specs.Holds.{IsRecovered};
ghost use Rattle.sot_law_runs.specs.RunHolds.{IsStretch, HaveHolds, TrustsAfter};
ghost use Rattle.sot_law_runs.specs.Spring.{spring_parts, spring_at, both, tick, pulling, pulled};
ghost use Rattle.sot_law_runs.specs.Spring.{letting_go, let_go};

/// The spring is recovered within one hold, and not within none: where it was pulled to 2, the
/// first hold starts outside the safer region.
pub fn one_hold_is_needed()
    ensures recovered { (g : Global) → IsRecovered (spring_parts g) 1 }
    ensures not_at_once { (g : Global) → IsRecovered (spring_parts g) 0 → ⊥ }
{}

/// A decision waits for the spring's one hold. In a run that has been in mode `Ac` before, the
/// module decides after a firing of the safe node and before the next tick, and stays in mode `Sc`.
pub fn one_hold_is_waited_for()
    ensures stretch { (g : Global) → IsStretch (spring_parts g) ((pos 0 ∷ []) ∷ [])
        (spring_at 0 both true Sc (pos 0) (pos 0)) pulling letting_go (Decide 0 ∷ [])
        (pulled ++ let_go) }
    ensures not_at_once { (g : Global) → TrustsAfter (spring_parts g) 0 → ⊥ }
{}

/// A whole hold lies between two firings, or from one firing on where a tick follows, and not where
/// the tick came before; one firing gives no two.
pub fn whole_holds_are_counted()
    ensures between { (g : Global) → HaveHolds (spring_parts g) 1 (Code 1 ∷ Code 1 ∷ []) }
    ensures present { (g : Global) → HaveHolds (spring_parts g) 1 (letting_go ++ tick ∷ []) }
    ensures begun { (g : Global) → HaveHolds (spring_parts g) 1 letting_go → ⊥ }
    ensures one { (g : Global) → HaveHolds (spring_parts g) 2 (letting_go ++ tick ∷ []) → ⊥ }
{}
