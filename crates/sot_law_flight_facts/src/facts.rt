//! A worked flight. The function does nothing, and its contract is what a person worked out.
ghost use Rattle.std.specs.Prelude.{pos, negsuc, true, false, Some, List, [], ◌∷◌};
ghost use Rattle.std.specs.Global.{Global};
ghost use Rattle.sot_lang.specs.Line.{line};
ghost use Rattle.sot_board.specs.Flown.{FlownBy};
ghost use Rattle.sot_law_flight_facts.specs.Examples.{line_flight, instant_flight, decides, drafts};
ghost use Rattle.sot_law_flight_facts.specs.Examples.{steers, ticks};

/// A flight of the running example with its disturbance at the low end, a draft of 2, and one tick
/// or none: it is flown as stated, and not with another disturbance, another draft, a tick more or
/// less, or with something left.
pub fn line_is_flown()
    ensures flown { (g : Global) → FlownBy (line g) 0 line_flight
        (decides ∷ drafts (pos 2) true ∷ steers false ∷ ticks (negsuc 0) (pos 1) ∷ []) }
    ensures at_once { (g : Global) → FlownBy (line g) 0 instant_flight
        (decides ∷ drafts (pos 2) true ∷ steers false ∷ []) }
    ensures other_disturbance { (g : Global)
        → FlownBy (line g) 0 line_flight (decides ∷ drafts (pos 2) true ∷ steers false ∷ ticks
        (pos 1) (pos 3) ∷ []) → ⊥ }
    ensures other_draft { (g : Global)
        → FlownBy (line g) 0 line_flight (decides ∷ drafts (pos 1) true ∷ steers false ∷ ticks
        (negsuc 0) (pos 0) ∷ []) → ⊥ }
    ensures no_tick { (g : Global) → FlownBy (line g) 0 line_flight
        (decides ∷ drafts (pos 2) true ∷ steers false ∷ []) → ⊥ }
    ensures tick_after_the_end { (g : Global)
        → FlownBy (line g) 0 instant_flight
        (decides ∷ drafts (pos 2) true ∷ steers false ∷ ticks (negsuc 0) (pos 1) ∷ []) → ⊥ }
    ensures safe_node_left { (g : Global)
        → FlownBy (line g) 0 instant_flight (decides ∷ drafts (pos 2) true ∷ []) → ⊥ }
    ensures advanced_node_left { (g : Global)
        → FlownBy (line g) 0 instant_flight (decides ∷ steers false ∷ []) → ⊥ }
    ensures decision_left { (g : Global)
        → FlownBy (line g) 0 instant_flight (drafts (pos 2) false ∷ steers true ∷ []) → ⊥ }
{}
