//! Worked offsets, orders and missions, as facts that the check computes from the definitions.

ghost use Rattle.sot_maker.specs.Examples.{FirstOffsets, EvenOffsets, Orders, Objects, OneModule};
ghost use Rattle.sot_maker.specs.Examples.{TwoModules};

/// Offsets that words stand for.
pub fn offsets_are_as_stated()
    ensures first { FirstOffsets }
    ensures even { EvenOffsets }
{}

/// Numbers in the order of their names, and objects with a member for each.
pub fn orders_are_as_stated()
    ensures orders { Orders }
    ensures objects { Objects }
{}

/// The text of the mission of one module for seed 42, and those of two modules for the seeds 42 and
/// 9.
pub fn missions_are_as_stated()
    ensures one { OneModule }
    ensures two { TwoModules }
{}
