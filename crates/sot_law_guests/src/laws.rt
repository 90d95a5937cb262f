//! Each of these functions does nothing, and its contract is the law.
ghost use Rattle.sot_law_guests.specs.Laws.{FitsGiveDrafts, AskingsGiveDrafts};
ghost use Rattle.sot_law_guests.specs.Laws.{OneHistoryOneListOfDrafts, ListsAreOfOneHistory};
ghost use Rattle.sot_law_guests.specs.Laws.{ListsAreTheAskings};
ghost use Rattle.sot_law_guests.specs.Sights.{SeenAreRecent, GuestsAreAnswered};

/// An asking that fits a firing gives its draft. The askings by which a list has grown give the
/// drafts of the node's firings in order, and so two lists that answer one history give the same.
pub fn askings_give_drafts()
    ensures one { FitsGiveDrafts }
    ensures all { AskingsGiveDrafts }
    ensures same { OneHistoryOneListOfDrafts }
{}

/// The lists of drafts of one history are the same, and the list of a guest's node is what its
/// askings give.
pub fn lists_are_the_drafts()
    ensures one_history { ListsAreOfOneHistory }
    ensures askings { ListsAreTheAskings }
{}

/// What a guest saw was there between the time at which its node was due and the firing, which
/// comes by the deadline of that time.
pub fn what_was_seen_is_recent()
    ensures { SeenAreRecent }
{}

/// Of each guest that a flight names all of this holds.
pub fn guests_are_answered()
    ensures { GuestsAreAnswered }
{}
