//! Worked words, numbers, rows and flights, as facts that the check computes from the definitions.

ghost use Rattle.std.specs.Global.{Global};
ghost use Rattle.sot_flight.specs.DrawExamples.{Words, Numbers, HeldEnds, OneRow, TwoRows};
ghost use Rattle.sot_flight.specs.FlightExamples.{OnTheLine, OfEachKind, LastOfRepeated, Keys};
ghost use Rattle.sot_flight.specs.FlightExamples.{HeldEdges};
ghost use Rattle.sot_flight.specs.FlightExamples.{Horizons, Starts, InputFaults, SwayFaults};
ghost use Rattle.sot_flight.specs.FlightExamples.{CrewFaults};

/// The first words of a generator, and the numbers that they stand for.
pub fn draws_are_as_stated()
    ensures words { Words }
    ensures numbers { Numbers }
    ensures ends { HeldEnds }
{}

/// Rows that are stated one after another, of which the last one stays.
pub fn rows_are_as_stated()
    ensures one { OneRow }
    ensures two { TwoRows }
{}

/// What texts say as flights.
pub fn flights_are_as_stated()
    ensures line { (g : Global) → OnTheLine g }
    ensures kinds { (g : Global) → OfEachKind g }
    ensures repeated { (g : Global) → LastOfRepeated g }
    ensures edges { (g : Global) → HeldEdges g }
{}

/// The first faults of texts.
pub fn flight_faults_are_as_stated()
    ensures keys { (g : Global) → Keys g }
    ensures horizons { (g : Global) → Horizons g }
    ensures starts { (g : Global) → Starts g }
    ensures inputs { (g : Global) → InputFaults g }
    ensures sways { (g : Global) → SwayFaults g }
    ensures crews { (g : Global) → CrewFaults g }
{}
