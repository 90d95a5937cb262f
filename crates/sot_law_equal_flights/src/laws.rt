//! Each of these functions does nothing, and its contract is the law.
ghost use Rattle.sot_law_equal_flights.specs.Laws.{HistoriesAlikeSoFar, HistoriesAlike, OrdersAlike};

/// A history of a flight is one of the same flight of all tables that look the same, and so is one
/// in order.
pub fn histories_are_alike()
    ensures so_far { HistoriesAlikeSoFar }
    ensures whole { HistoriesAlike }
    ensures order { OrdersAlike }
{}
