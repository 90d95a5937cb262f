//! Worked lists of askings.

ghost use Rattle.sot_commands.specs.Examples.{GrownIsToldOn, SilentIsToldOn, LostIsNotToldOn};
ghost use Rattle.sot_commands.specs.Examples.{ChangedIsNotToldOn, BegunIsNotToldOn};

/// Which lists are told on: a list that has grown at its end, and one that is not told any more;
/// not one that has lost or changed what it told, and not one of which nothing was told.
pub fn lists_are_told_on_as_stated()
    ensures grown { GrownIsToldOn }
    ensures silent { SilentIsToldOn }
    ensures lost { LostIsNotToldOn }
    ensures changed { ChangedIsNotToldOn }
    ensures begun { BegunIsNotToldOn }
{}
