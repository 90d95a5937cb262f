//! Tables that break a rule, and of two modules the one that counts.
ghost use Rattle.std.specs.Prelude.{false, ◌≡◌, pos, [], ◌∷◌};
ghost use Rattle.std.specs.Global.{Global};
ghost use Rattle.sot_lang.specs.Line.{side};
ghost use Rattle.sot_lang.specs.SafeRegions.{safe_of};
ghost use Rattle.sot_lang.specs.TableRules.{MeetsTableRules};
ghost use Rattle.sot_worked_missions.specs.Broken.{reads_its_own, one_name_twice, sees_itself};
ghost use Rattle.sot_worked_missions.specs.Broken.{seven_decimals, one_value_too_many, long_period};
ghost use Rattle.sot_worked_missions.specs.Broken.{box_of_two_sides, turned_box, module_with};

/// Tables that break one rule are no tables of a program.
pub fn broken_tables_are_refused()
    ensures own_read { (g : Global) → MeetsTableRules (reads_its_own g) → ⊥ }
    ensures name_twice { (g : Global) → MeetsTableRules (one_name_twice g) → ⊥ }
    ensures itself_seen { (g : Global) → MeetsTableRules (sees_itself g) → ⊥ }
    ensures decimals { (g : Global) → MeetsTableRules (seven_decimals g) → ⊥ }
    ensures values { (g : Global) → MeetsTableRules (one_value_too_many g) → ⊥ }
    ensures period { (g : Global) → MeetsTableRules (long_period g) → ⊥ }
    ensures sides { (g : Global) → MeetsTableRules (box_of_two_sides g) → ⊥ }
    ensures turned { (g : Global) → MeetsTableRules (turned_box g) → ⊥ }
{}

/// Of two modules that name a plant, the first one's safe region is the plant's.
pub fn the_first_module_counts()
    ensures { (g : Global) → safe_of
        (module_with g (record {
          width = 1;
          boxes =
              (side (pos 0) (pos 1) ∷ []) ∷ [];
          settled = false;
        })
        ∷ module_with g (record { width = 1; boxes = (side (pos 5) (pos 6) ∷ []) ∷ []; settled = false }) ∷ []) 0 ≡ (side (pos 0) (pos 1) ∷ []) ∷ [] }
{}
