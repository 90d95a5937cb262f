//! Laws on flights that are flown in order.

ghost use Rattle.sot_ordered_board.specs.Laws.{OrderedAreFlown, OneHistoryInOrder};

/// What is flown in order is flown.
pub fn ordered_are_flown()
    ensures { OrderedAreFlown }
{}

/// A flight that no guest flies has one whole history in order: program, certificate and flight
/// decide it.
pub fn one_history_in_order()
    ensures { OneHistoryInOrder }
{}
