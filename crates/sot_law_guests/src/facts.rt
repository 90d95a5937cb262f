//! Worked askings and lists. Each of these functions does nothing, and its contract is what a
//! person worked out.

ghost use Rattle.std.specs.Global.{Global};
ghost use Rattle.sot_board.specs.Flown.{FlownBy};
ghost use Rattle.sot_law_guests.specs.Examples.{asked_relay, asked_flight, asked_history};
ghost use Rattle.sot_law_guests.specs.Examples.{FitAsStated, SeenAsStated, AnswerAsStated};
ghost use Rattle.sot_law_guests.specs.Examples.{ListsAsStated, EachAsStated, UnnamedAsStated};

/// In a flight with a guest that was written out by hand, which askings fit which firing, what was
/// seen in time for it, which lists answer it, and what is said of its guests.
pub fn askings_fit_as_stated()
    ensures flown { (g : Global) → FlownBy (asked_relay g) 0 asked_flight asked_history }
    ensures fit { (g : Global) → FitAsStated g }
    ensures seen { (g : Global) → SeenAsStated g }
    ensures answer { (g : Global) → AnswerAsStated g }
    ensures each { (g : Global) → EachAsStated g }
    ensures unnamed { UnnamedAsStated }
{}

/// Which lists are the drafts of two nodes in a history that was written out by hand.
pub fn lists_are_as_stated()
    ensures { ListsAsStated }
{}
