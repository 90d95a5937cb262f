//! Each of these functions does nothing, and its contract is the law.
ghost use Rattle.sot_bridge.specs.Laws.{SendsAreFew, SendsAreInOrder, SendsAreInRange};
ghost use Rattle.sot_bridge.specs.Laws.{SendsMayBeRelayed, SendsAreTaken};

/// A whole history sends no more often than nodes that write the topic are due.
pub fn sends_are_few()
    ensures { SendsAreFew }
{}

/// A whole history sends in order of time, and by its horizon.
pub fn sends_are_in_order()
    ensures { SendsAreInOrder }
{}

/// What is sent has a number for each scalar of the topic, in its range.
pub fn sends_are_in_range()
    ensures { SendsAreInRange }
{}

/// Of two topics that match, what a history sends may be relayed to a flight that is long enough,
/// and has room for as many sends as there may be.
pub fn sends_may_be_relayed()
    ensures { SendsMayBeRelayed }
{}

/// The flight to which sends come too takes as inputs its own and each send once, in order.
pub fn sends_are_taken()
    ensures { SendsAreTaken }
{}
