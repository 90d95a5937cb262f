//! Worked steps, runs and configurations. Each of these functions does nothing, and its contract is
//! what a person worked out.
ghost use Rattle.std.specs.Prelude.{◌≡◌, ◌≢◌, ℕ, ℤ, pos, negsuc, true, false, Some, List, [], ◌∷◌};
ghost use Rattle.std.specs.Global.{Global};
ghost use Rattle.sot_lang.specs.Line.{line};
ghost use Rattle.sot_world.specs.Configurations.{Configuration, IsOpening, IsSafer, is_left};
ghost use Rattle.sot_world.specs.Configurations.{number_of};
ghost use Rattle.sot_world.specs.declared.mode.Mode.TheVariants.{Ac, Sc};
ghost use Rattle.sot_world.specs.Steps.{Event, Step, Code, Guest, Tick};
ghost use Rattle.sot_world.specs.Headline.{IsSafeNow, InEveryRun};
ghost use Rattle.sot_world.specs.Examples.{relay, relaying, twins};
ghost use Rattle.sot_law_runs.specs.Examples.{relay_at, line_at, nothing, twins_in, twins_rest};
ghost use Rattle.sot_law_runs.specs.Examples.{second_divides, second_far, two_nodes_at, two_lines};
ghost use Rattle.sot_law_runs.specs.Examples.{two_lines_in, all_left, fired_0, fired_1, fired_2};
ghost use Rattle.sot_law_runs.specs.Examples.{fired_3};

/// A node that no module commands is left at the opening and after each tick at which it is due,
/// and then fires again.
pub fn free_nodes_fire_again()
    ensures opening { (g : Global) → IsOpening (relay g) [] (relaying (pos 0) (pos 0)) }
    ensures left_first { (g : Global) (C : Configuration) → IsOpening (relay g) [] C
        → is_left C 0 ≡ true }
    ensures due { (g : Global) → Step (relay g) 0 (relay_at 5 false (pos 0)) (Tick [])
        (relay_at 6 true (pos 0)) }
    ensures left_again { (g : Global) (D : Configuration)
        → Step (relay g) 0 (relay_at 5 false (pos 0)) (Tick []) D → is_left D 0 ≡ true }
    ensures fires { (g : Global) → Step (relay g) 0 (relay_at 6 true (pos 0)) (Code 0)
        (relay_at 6 false (pos 5)) }
    ensures not_due { (g : Global) → Step (relay g) 0 (relay_at 6 false (pos 5)) (Tick [])
        (relay_at 7 false (pos 5)) }
{}

/// What is left to fire holds a tick back at its deadline, which is as many ticks after its due
/// time as the jitter says, and not before.
pub fn ticks_wait_for_deadlines()
    ensures node { (g : Global) → Step (line g) 1 (line_at 0 (false ∷ true ∷ []) false (pos 0))
        (Tick ((pos 1 ∷ []) ∷ [])) (line_at 1 (false ∷ true ∷ []) false (pos 3)) }
    ensures node_deadline { (g : Global) (w : List (List ℤ)) (D : Configuration)
        → Step (line g) 1 (line_at 1 (false ∷ true ∷ []) false (pos 3)) (Tick w) D → ⊥ }
    ensures node_at_once { (g : Global) (w : List (List ℤ)) (D : Configuration)
        → Step (line g) 0 (line_at 0 (false ∷ true ∷ []) false (pos 0)) (Tick w) D → ⊥ }
    ensures decision { (g : Global) → Step (line g) 1 (line_at 0 (false ∷ false ∷ []) true (pos 0))
        (Tick ((pos 1 ∷ []) ∷ [])) (line_at 1 (false ∷ false ∷ []) true (pos 3)) }
    ensures decision_deadline { (g : Global) (w : List (List ℤ)) (D : Configuration)
        → Step (line g) 1 (line_at 1 (false ∷ false ∷ []) true (pos 3)) (Tick w) D → ⊥ }
    ensures decision_at_once { (g : Global) (w : List (List ℤ)) (D : Configuration)
        → Step (line g) 0 (line_at 0 (false ∷ false ∷ []) true (pos 0)) (Tick w) D → ⊥ }
    ensures three { (g : Global) → Step (line g) 3 (line_at 2 (true ∷ false ∷ []) true (pos 4))
        (Tick ((negsuc 0 ∷ []) ∷ [])) (line_at 3 (true ∷ false ∷ []) true (pos 5)) }
    ensures node_three { (g : Global) (w : List (List ℤ)) (D : Configuration)
        → Step (line g) 3 (line_at 3 (true ∷ false ∷ []) false (pos 5)) (Tick w) D → ⊥ }
    ensures decision_three { (g : Global) (w : List (List ℤ)) (D : Configuration)
        → Step (line g) 3 (line_at 3 (false ∷ false ∷ []) true (pos 5)) (Tick w) D → ⊥ }
{}

/// Every run is every run of any length: the relay's second number is 0 at the opening and after
/// each first event, and yet not in every run; and a program with nothing in it comes to each time.
pub fn every_run_has_any_length()
    ensures one_event { (g : Global) (start : List (List ℤ)) (C D : Configuration) (e : Event)
        → IsOpening (relay g) start C → Step (relay g) 0 C e D
        → (number_of C 1 ≡ pos 0) × (number_of D 1 ≡ pos 0) }
    ensures two_events { (g : Global) → InEveryRun (relay g) 0 (λ C. number_of C 1 ≡ pos 0) → ⊥ }
    ensures any_time { (t : ℕ) → InEveryRun nothing 0 (λ C. C.time ≢ t) → ⊥ }
{}

/// Safe is safe for each module's plant, each node's body and each plant's tick, and a safer
/// opening is one for each module's plant: where the second alone is outside or traps, nothing is
/// safe.
pub fn each_module_is_to_be_safe()
    ensures inside { (g : Global) → IsSafeNow (twins g) 0 (twins_in (pos 20) (pos 3)) }
    ensures second_outside { (g : Global) → IsSafeNow (twins g) 0 (twins_in (pos 3) (pos 41)) → ⊥ }
    ensures first_outside { (g : Global) → IsSafeNow (twins g) 0 (twins_in (pos 41) (pos 3)) → ⊥ }
    ensures second_body { (g : Global) → IsSafeNow (second_far g) 0 (two_nodes_at (pos 5)) → ⊥ }
    ensures second_tick { (g : Global) → IsSafeNow (second_divides g) 0 (twins_rest (pos 3) (pos 0))
        → ⊥ }
    ensures safer { (g : Global) → IsSafer (twins g) (twins_in (pos 10) (negsuc 9)) }
    ensures second_not_safer { (g : Global) → IsSafer (twins g) (twins_in (pos 3) (pos 11)) → ⊥ }
    ensures first_not_safer { (g : Global) → IsSafer (twins g) (twins_in (pos 11) (pos 3)) → ⊥ }
{}

/// A module's own mode enables its nodes: the advanced node publishes in mode Ac and the safe one
/// in mode Sc, whatever the other module's mode, in the first module as in the second.
pub fn each_module_enables_its_own_nodes()
    ensures advanced { (g : Global) → Step (two_lines g) 0
        (two_lines_in Ac Sc all_left (pos 0) (pos 0)) (Guest 0 (Some (pos 2) ∷ []))
        (two_lines_in Ac Sc fired_0 (pos 2) (pos 0)) }
    ensures advanced_disabled { (g : Global)
        → Step (two_lines g) 0 (two_lines_in Sc Ac all_left (pos 0) (pos 0))
        (Guest 0 (Some (pos 2) ∷ [])) (two_lines_in Sc Ac fired_0 (pos 0) (pos 0)) }
    ensures safe { (g : Global) → Step (two_lines g) 0 (two_lines_in Sc Ac all_left (pos 0) (pos 0))
        (Code 1) (two_lines_in Sc Ac fired_1 (negsuc 1) (pos 0)) }
    ensures safe_disabled { (g : Global)
        → Step (two_lines g) 0 (two_lines_in Ac Sc all_left (pos 0) (pos 0)) (Code 1)
        (two_lines_in Ac Sc fired_1 (pos 0) (pos 0)) }
    ensures second_advanced { (g : Global)
        → Step (two_lines g) 0 (two_lines_in Sc Ac all_left (pos 0) (pos 0))
        (Guest 2 (Some (pos 2) ∷ [])) (two_lines_in Sc Ac fired_2 (pos 0) (pos 2)) }
    ensures second_advanced_disabled { (g : Global)
        → Step (two_lines g) 0 (two_lines_in Ac Sc all_left (pos 0) (pos 0))
        (Guest 2 (Some (pos 2) ∷ [])) (two_lines_in Ac Sc fired_2 (pos 0) (pos 0)) }
    ensures second_safe { (g : Global)
        → Step (two_lines g) 0 (two_lines_in Ac Sc all_left (pos 0) (pos 0)) (Code 3)
        (two_lines_in Ac Sc fired_3 (pos 0) (negsuc 1)) }
    ensures second_safe_disabled { (g : Global)
        → Step (two_lines g) 0 (two_lines_in Sc Ac all_left (pos 0) (pos 0)) (Code 3)
        (two_lines_in Sc Ac fired_3 (pos 0) (pos 0)) }
{}
