//! Whether a flight's next input is due.

ghost use Rattle.std.specs.Prelude.{◌≡◌, ◌<◌, ◌≤◌, ◌^◌, ◌∷◌, List, drop, length, IsTrue, ◌↔◌};
ghost use Rattle.sot_flight.specs.Plans.{StatedInput};

use sot_flight::Flight;

/// Whether the input in this place comes at a time.
pub fn is_due(flight: &Flight, next: u32, time: u32) -> bool
    requires few { length flight.now.inputs < 2 ^ 32 }
    ensures { IsTrue result ↔ ((x : StatedInput) × (rest : List StatedInput)
        × (drop next flight.now.inputs ≡ x ∷ rest) × (x.at ≡ time)) }
{
    next < flight.inputs() && flight.input(next).at == time
}
