//! Worked configurations, steps and runs.

ghost use Rattle.std.specs.Prelude.{◌≡◌, ℤ, pos, negsuc, true, false, Some, None, List, [], ◌∷◌};
ghost use Rattle.std.specs.Global.{Global};
ghost use Rattle.sot_lang.specs.Line.{line};
ghost use Rattle.sot_world.specs.Configurations.{Configuration, IsOpening, IsSafer, Ac, Sc};
ghost use Rattle.sot_world.specs.Steps.{Step, Input, Code, Guest, Decide, Tick};
ghost use Rattle.sot_world.specs.Outcomes.{Records, InputTaken, NodeFired, ModuleDecided};
ghost use Rattle.sot_world.specs.Outcomes.{PlantsTicked, is_refused};
ghost use Rattle.sot_tube.specs.Examples.{line1};
ghost use Rattle.sot_world.specs.Runs.{Run};
ghost use Rattle.sot_world.specs.Headline.{IsSafeNow, EveryRunIsSafe};
ghost use Rattle.sot_world.specs.Examples.{at_opening, decided, refused, drafted, settled, ticked};
ghost use Rattle.sot_world.specs.Examples.{second, deciding, braking, counting, idle_counter};
ghost use Rattle.sot_world.specs.Examples.{relay, relaying, line_events, line_configurations};
ghost use Rattle.sot_world.specs.Examples.{narrow, drifting, dividing, far_relay, twins, twins_at};
ghost use Rattle.sot_world.specs.Examples.{twins_idle};

/// The running example opens at 0, inside its safer region, with all that is due left to fire and
/// one point for its plant.
pub fn line_opens()
    ensures opening { (g : Global) → IsOpening (line g) ((pos 0 ∷ []) ∷ []) at_opening }
    ensures safer { (g : Global) → IsSafer (line g) at_opening }
    ensures one_point { (g : Global) (s : List ℤ) (C : Configuration)
        → IsOpening (line g) ((pos 0 ∷ []) ∷ s ∷ []) C → ⊥ }
    ensures one_number { (g : Global) (C : Configuration)
        → IsOpening (line g) ((pos 0 ∷ pos 0 ∷ []) ∷ []) C → ⊥ }
{}

/// The module of the running example decides for the advanced node from the safer region.
pub fn line_decides()
    ensures step { (g : Global) → Step (line g) 0 at_opening (Decide 0) decided }
    ensures recorded { (g : Global) → Records (line g) at_opening (Decide 0) decided
        (ModuleDecided Ac) }
    ensures once { (g : Global) (D : Configuration) → Step (line g) 0 decided (Decide 0) D → ⊥ }
{}

/// In mode Ac the advanced node's numbers in range are published, and others refused; a node fires
/// once, with one slot a scalar.
pub fn line_fires()
    ensures takes_2 { (g : Global) → Step (line g) 0 decided (Guest 0 (Some (pos 2) ∷ [])) drafted }
    ensures refuses_7 { (g : Global)
        → Step (line g) 0 decided (Guest 0 (Some (pos 7) ∷ [])) refused }
    ensures blank { (g : Global) → Step (line g) 0 decided (Guest 0 (None ∷ [])) refused }
    ensures recorded { (g : Global) → Records (line g) decided (Guest 0 (Some (pos 7) ∷ [])) refused
        (NodeFired (Some (pos 7) ∷ []) true) }
    ensures marks_7 { (g : Global) → is_refused (line g) 0 (Some (pos 7)) ≡ true }
    ensures leaves_2 { (g : Global) → is_refused (line g) 0 (Some (pos 2)) ≡ false }
    ensures once { (g : Global) (D : Configuration)
        → Step (line g) 0 drafted (Guest 0 (Some (pos 2) ∷ [])) D → ⊥ }
    ensures no_fewer { (g : Global) (D : Configuration) → Step (line g) 0 decided (Guest 0 []) D
        → ⊥ }
    ensures no_more { (g : Global) (D : Configuration)
        → Step (line g) 0 decided (Guest 0 (Some (pos 7) ∷ Some (pos 9) ∷ [])) D → ⊥ }
    ensures no_code { (g : Global) (D : Configuration) → Step (line g) 0 decided (Code 0) D → ⊥ }
    ensures no_guest { (g : Global) (D : Configuration)
        → Step (line g) 0 decided (Guest 1 (Some (pos 2) ∷ [])) D → ⊥ }
{}

/// A disabled node publishes nothing, its draft is recorded, and its locals are new all the same.
pub fn disabled_nodes_publish_nothing()
    ensures safe_node { (g : Global) → Step (line g) 0 drafted (Code 1) settled }
    ensures recorded { (g : Global) → Records (line g) drafted (Code 1) settled
        (NodeFired (Some (pos 0) ∷ []) false) }
    ensures advanced_node { (g : Global)
        → Step (line g) 0 braking (Guest 0 (Some (pos 2) ∷ []))
        (record braking { left = false ∷ true ∷ [] }) }
    ensures recorded_guest { (g : Global)
        → Records (line g) braking (Guest 0 (Some (pos 2) ∷ []))
        (record braking { left = false ∷ true ∷ [] }) (NodeFired (Some (pos 2) ∷ []) false) }
    ensures enabled { (g : Global) → Step (line g) 0 braking (Code 1)
        (record braking { left = true ∷ false ∷ []; scalars = negsuc 1 ∷ [] }) }
    ensures locals { (g : Global) → Step (counting g) 0 (idle_counter (pos 1)) (Code 1)
        (record (idle_counter (pos 2)) { left = false ∷ false ∷ [] }) }
{}

/// A tick comes where nothing is left, with one list of disturbances in bounds for each plant; what
/// is due then is left.
pub fn line_ticks()
    ensures step { (g : Global) → Step (line g) 0 settled (Tick ((pos 1 ∷ []) ∷ [])) ticked }
    ensures due { (g : Global) → Step (line g) 0 ticked (Tick ((negsuc 0 ∷ []) ∷ [])) second }
    ensures not_yet { (g : Global) (w : List (List ℤ)) (D : Configuration)
        → Step (line g) 0 drafted (Tick w) D → ⊥ }
    ensures no_decision { (g : Global) (w : List (List ℤ)) (D : Configuration)
        → Step (line g) 0 (record settled { left_dm = true ∷ [] }) (Tick w) D → ⊥ }
    ensures out_of_bounds { (g : Global) (D : Configuration)
        → Step (line g) 0 settled (Tick ((pos 2 ∷ []) ∷ [])) D → ⊥ }
    ensures no_plant { (g : Global) (D : Configuration) → Step (line g) 0 settled (Tick []) D → ⊥ }
    ensures one_plant { (g : Global) (w : List ℤ) (D : Configuration)
        → Step (line g) 0 settled (Tick ((pos 1 ∷ []) ∷ w ∷ [])) D → ⊥ }
{}

/// An input is a value in the type of an environment topic, and changes that topic alone.
pub fn relay_takes_inputs()
    ensures step { (g : Global) → Step (relay g) 0 (relaying (pos 0) (pos 0)) (Input 0 (pos 5 ∷ []))
        (relaying (pos 5) (pos 0)) }
    ensures copied { (g : Global) → Step (relay g) 0 (relaying (pos 5) (pos 0)) (Code 0)
        (record (relaying (pos 5) (pos 5)) { left = false ∷ [] }) }
    ensures no_other { (g : Global) (D : Configuration)
        → Step (relay g) 0 (relaying (pos 0) (pos 0)) (Input 1 (pos 5 ∷ [])) D → ⊥ }
    ensures no_10 { (g : Global) (D : Configuration)
        → Step (relay g) 0 (relaying (pos 0) (pos 0)) (Input 0 (pos 10 ∷ [])) D → ⊥ }
    ensures no_more { (g : Global) (D : Configuration)
        → Step (relay g) 0 (relaying (pos 0) (pos 0)) (Input 0 (pos 5 ∷ pos 5 ∷ [])) D → ⊥ }
    ensures no_fewer { (g : Global) (D : Configuration)
        → Step (relay g) 0 (relaying (pos 0) (pos 0)) (Input 0 []) D → ⊥ }
{}

/// Every run of the running example is safe, and here is one, with its end.
pub fn line_is_safe()
    ensures every { (g : Global) → EveryRunIsSafe (line g) 0 }
    ensures run { (g : Global) → Run (line g) 0 at_opening line_events line_configurations }
    ensures end { (g : Global) → IsSafeNow (line g) 0 ticked }
{}

/// What is not safe: a plant outside, a coded body that traps though it is not left, a tick that
/// traps, a run whose opening is outside, and a run that leaves with its one tick.
pub fn some_are_not_safe()
    ensures outside { (g : Global) → IsSafeNow (line g) 0
        (record ticked { points = (pos 41 ∷ []) ∷ [] }) → ⊥ }
    ensures code { (g : Global) → IsSafeNow (far_relay g) 0
        (record (relaying (pos 5) (pos 0)) { time = 1; left = false ∷ [] }) → ⊥ }
    ensures tick { (g : Global) → IsSafeNow (dividing g) 0 settled → ⊥ }
    ensures opening { (g : Global) → EveryRunIsSafe (narrow g) 0 → ⊥ }
    ensures run { (g : Global) → EveryRunIsSafe (drifting g) 0 → ⊥ }
{}

/// Decisions of a flight that keeps its advanced node at 8 with its plant at 12, switches at 12
/// with its plant at 20, stays at 16 and returns at 20 with its plant at 8.
pub fn line_switches()
    ensures stays_ac { (g : Global) → Step (line1 g) 0 (deciding 8 Ac (pos 12)) (Decide 0)
        (record (deciding 8 Ac (pos 12)) { left_dm = false ∷ [] }) }
    ensures to_sc { (g : Global) → Step (line1 g) 0 (deciding 12 Ac (pos 20)) (Decide 0)
        (record (deciding 12 Sc (pos 20)) { left_dm = false ∷ [] }) }
    ensures no_stay { (g : Global) → Step (line1 g) 0 (deciding 12 Ac (pos 20)) (Decide 0)
        (record (deciding 12 Ac (pos 20)) { left_dm = false ∷ [] }) → ⊥ }
    ensures stays_sc { (g : Global) → Step (line1 g) 0 (deciding 16 Sc (pos 16)) (Decide 0)
        (record (deciding 16 Sc (pos 16)) { left_dm = false ∷ [] }) }
    ensures to_ac { (g : Global) → Step (line1 g) 0 (deciding 20 Sc (pos 8)) (Decide 0)
        (record (deciding 20 Ac (pos 8)) { left_dm = false ∷ [] }) }
{}

/// Where there are two of each thing: both numbers of a value are written, a module decides for its
/// own mode by its own plant, and two plants that see each other tick from the points before, each
/// with its own disturbance.
pub fn twins_step()
    ensures both_numbers { (g : Global)
        → Step (twins g) 0 (twins_at 0) (Input 0 (pos 5 ∷ pos 6 ∷ []))
        (record (twins_at 0) { scalars = pos 5 ∷ pos 6 ∷ [] }) }
    ensures second_decides { (g : Global)
        → Step (twins g) 0 (twins_at 0) (Decide 1)
        (record (twins_at 0) { left_dm = true ∷ false ∷ []; modes = Sc ∷ Ac ∷ [] }) }
    ensures swap { (g : Global) → Step (twins g) 0 (twins_idle 1)
        (Tick ((pos 1 ∷ []) ∷ (negsuc 0 ∷ []) ∷ []))
        (record (twins_idle 2) { points = (pos 4 ∷ []) ∷ (pos 19 ∷ []) ∷ [] }) }
{}
