//! Each of these functions does nothing, and its contract is what a person worked out.
ghost use Rattle.std.specs.Global.{Global};
ghost use Rattle.sot_law_runs.specs.Holds.{IsRecovered};
ghost use Rattle.sot_law_runs.specs.Ranks.{IsRank, HasRank};
ghost use Rattle.sot_law_recovery.specs.Stairs.{stairs_parts};

/// The stairs are recovered within two holds, and not within one: from 2 the first hold leads to 1,
/// so that the second one starts outside the safer region.
pub fn two_holds_are_needed()
    ensures recovered { (g : Global) → IsRecovered (stairs_parts g) 2 }
    ensures not_after_one { (g : Global) → IsRecovered (stairs_parts g) 1 → ⊥ }
{}

/// The stairs have rank 2. Each of the three cells has a rank of its own: the one on the ground 0,
/// the next one 1, and the highest one 2.
pub fn the_rank_is_two()
    ensures rank { (g : Global) → IsRank (stairs_parts g) 2 }
    ensures ground { (g : Global) → HasRank (stairs_parts g) 0 0 }
    ensures first { (g : Global) → HasRank (stairs_parts g) 1 1 }
    ensures first_not_less { (g : Global) → HasRank (stairs_parts g) 0 1 → ⊥ }
    ensures second { (g : Global) → HasRank (stairs_parts g) 2 2 }
    ensures second_not_less { (g : Global) → HasRank (stairs_parts g) 1 2 → ⊥ }
{}
