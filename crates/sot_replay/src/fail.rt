//! Why lines are not the trace of a flight.

/// Which test a line does not pass.
#[derive(Clone, Copy, Debug, PartialEq, Eq)]
pub enum LineKind {
    /// It is not spelled as a line that may stand there.
    NotALine,
    /// It names another time than the present one.
    WrongTime,
    /// What it names is not due.
    NotDue,
    /// What it names is due, and has fired.
    AlreadyFired,
    /// A tick while something that is left has its deadline, or the end while something is left.
    NodesLeft,
    /// A value or a disturbance is out of its range.
    OutsideType,
    /// A tick or the end while an input of the flight is due.
    InputsLeft,
    /// A tick at the horizon, or the end before it.
    TooFar,
    /// The program and the flight give another line.
    Differs,
    /// It stands behind the end line.
    Ended,
    /// There is no such line, and the end line has not come.
    Missing,
}

/// Why a replay fails.
#[derive(Clone, Copy, Debug, PartialEq, Eq)]
pub enum ReplayFail {
    /// The first module whose plant starts outside its safer region.
    NotSafer { module: u32 },
    /// The first line, counted from 1, with which no trace of the flight goes on.
    Line { line: u32, kind: LineKind },
    Memory,
}
