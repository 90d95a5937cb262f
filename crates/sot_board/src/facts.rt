//! A worked history, as facts that the check computes from the definitions.

ghost use Rattle.sot_board.specs.Examples.{RelayIsFlown, NotWithoutInput};

/// A flight of the relay is flown by its input and then a firing that copies it, and not where the
/// input is left out.
pub fn relay_is_flown()
    ensures flown { RelayIsFlown }
    ensures input_left_out { NotWithoutInput }
{}
