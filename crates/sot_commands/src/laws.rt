//! Laws on what is said. Each of these functions does nothing, and its contract is the law.

ghost use Rattle.sot_commands.specs.Laws.{AcceptedOnce, RefusedOnce, LinesRefusedOnce};
ghost use Rattle.sot_commands.specs.Laws.{RejectedOnce, UnflownToldOnce};
ghost use Rattle.sot_commands.specs.GuestLaws.{TracesEndOnce, FlewOnce, NamedAreAsked, OthersStay};

use sot_fly_worker::Controller;

/// What is accepted is told with one text, but by `watch`, and by `fly` where guests are handed in.
pub fn accepted_once()
    ensures { AcceptedOnce }
{}

/// Bytes are refused with one text: one condition with one evidence, one start, one reason why
/// there is no certificate, one moment at which a formula fails without guests. Of the lines of a
/// trace, and of watched flights with guests, other laws speak.
pub fn refused_once()
    ensures { RefusedOnce }
{}

/// The lines of a trace are refused at one line, by one test.
pub fn lines_refused_once()
    ensures { LinesRefusedOnce }
{}

/// A watched mission that is not flown is told so with one text, and is not refuted otherwise.
pub fn unflown_told_once()
    ensures { UnflownToldOnce }
{}

/// The first fault of bytes is told with one text, but for what nests too deep, and for the line
/// and column of a fault of typing.
pub fn rejected_once()
    ensures { RejectedOnce }
{}

/// What is written of a flight tells where its trace ends, whatever verdict stands behind it.
pub fn traces_end_once()
    ensures { TracesEndOnce }
{}

/// Whoever tells of the guests of one written trace tells of one history.
pub fn flew_once<C: Controller>()
    ensures { FlewOnce C.asked }
{}

/// A guest that flies a node, where it tells its list, has answered the node's firings in the
/// history that was written.
pub fn named_are_asked<C: Controller>()
    ensures { NamedAreAsked C.asked }
{}

/// A guest that no node of the flight names stays as it was.
pub fn others_stay<C: Controller>()
    ensures { OthersStay C.asked }
{}
