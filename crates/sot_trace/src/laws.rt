//! The laws on texts of histories.

ghost use Rattle.sot_trace.specs.Telling.{TextTellsHistory, FlownHistoriesAreTold};

/// The text of a history tells where its plants start and what happens in it.
pub fn text_tells_history()
    ensures { TextTellsHistory }
{}

/// The text of a flight's history so far leaves out nothing of it.
pub fn flown_histories_are_told()
    ensures { FlownHistoriesAreTold }
{}
