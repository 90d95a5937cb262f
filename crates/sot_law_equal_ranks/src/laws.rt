//! Each of these functions does nothing, and its contract is the law.
ghost use Rattle.sot_law_equal_ranks.specs.Laws.{RanksAlike, OneAnswer};

/// A rank of a module, or the point that all its ranks leave out, is that of each of the tables of
/// a program.
pub fn ranks_are_alike()
    ensures { RanksAlike }
{}

/// A module has one rank at most, or none, with one point, whichever of the tables of a program is
/// asked.
pub fn modules_have_one_answer()
    ensures { OneAnswer }
{}
