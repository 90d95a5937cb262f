//! Worked flights, boards and traces. Each function does nothing, and its contract is what a person
//! worked out.

ghost use Rattle.std.specs.Global.{Global};
ghost use Rattle.sot_law_flight_facts.specs.Versions.{LaterScalarIsWritten, NothingIsWritten};
ghost use Rattle.sot_law_flight_facts.specs.Versions.{InputsWrite, WritesAreCounted};
ghost use Rattle.sot_law_flight_facts.specs.Views.{FirstViewIsThere, InputEndsView};
ghost use Rattle.sot_law_flight_facts.specs.Views.{LaterViewIsCurrent, OtherTopicsLeaveView};
ghost use Rattle.sot_law_flight_facts.specs.Views.{TimeEndsView, ChangedBackEndsView};
ghost use Rattle.sot_law_flight_facts.specs.Stated.{EndsOfBounds, RowsStay, WordsOfSways};
ghost use Rattle.sot_law_flight_facts.specs.Stated.{EdgesOfSways, EdgesOfCrews};
ghost use Rattle.sot_law_flight_facts.specs.Stated.{DraftsStay, WordsOfCrews};
ghost use Rattle.sot_law_flight_facts.specs.Fits.{HorizonLimit, InputsFit, SwaysFit, CrewsFit};
ghost use Rattle.sot_law_flight_facts.specs.Fits.{GuestsFit, CountsOfFlights};
ghost use Rattle.sot_law_flight_facts.specs.Limits.{MostEvents, OneEventTooMany, MostNumbers};
ghost use Rattle.sot_law_flight_facts.specs.Limits.{OneNumberTooMany, FitNoMore};
ghost use Rattle.sot_law_flight_facts.specs.Marks.{TwoMarksOfOneFiring, IdleMarksCount};

/// A view of the relay's node is current as long as neither the time nor the version of the topic
/// that it reads has changed.
pub fn views_are_current_by_versions()
    ensures there { (g : Global) → FirstViewIsThere g }
    ensures input_came { (g : Global) → InputEndsView g }
    ensures taken_after { (g : Global) → LaterViewIsCurrent g }
    ensures other_topic { (g : Global) → OtherTopicsLeaveView g }
    ensures earlier_time { (g : Global) → TimeEndsView g }
    ensures changed_back { (g : Global) → ChangedBackEndsView g }
{}

/// What a flight states for ticks and firings.
pub fn stated_values_are_as_stated()
    ensures ends { (g : Global) → EndsOfBounds g }
    ensures rows { (g : Global) → RowsStay g }
    ensures words { (g : Global) → WordsOfSways g }
    ensures edges { (g : Global) → EdgesOfSways g }
    ensures drafts { (g : Global) → DraftsStay g }
    ensures drawn { (g : Global) → WordsOfCrews g }
    ensures drawn_edges { (g : Global) → EdgesOfCrews g }
{}

/// Which flights fit, and what they count.
pub fn flights_fit_as_stated()
    ensures horizon { HorizonLimit }
    ensures inputs { (g : Global) → InputsFit g }
    ensures sways { (g : Global) → SwaysFit g }
    ensures crews { (g : Global) → CrewsFit g }
    ensures guests { (g : Global) → GuestsFit g }
    ensures counts { (g : Global) → CountsOfFlights g }
{}

/// Flights may have 200,000 events and 1,000,000 numbers, and not one more.
pub fn flights_count_up_to_their_limits()
    ensures most_events { (g : Global) → MostEvents g }
    ensures one_event_too_many { (g : Global) → OneEventTooMany g }
    ensures most_numbers { (g : Global) → MostNumbers g }
    ensures one_number_too_many { (g : Global) → OneNumberTooMany g }
    ensures fit_no_more { FitNoMore }
{}

/// Which entries write a topic.
pub fn versions_count_writes()
    ensures later_scalar { (g : Global) → LaterScalarIsWritten g }
    ensures nothing { (g : Global) → NothingIsWritten g }
    ensures inputs { (g : Global) → InputsWrite g }
    ensures counted { (g : Global) → WritesAreCounted g }
{}

/// Numbers outside their ranges are counted one by one, whether their node is enabled or not.
pub fn marks_are_counted()
    ensures two { (g : Global) → TwoMarksOfOneFiring g }
    ensures idle { (g : Global) → IdleMarksCount g }
{}
