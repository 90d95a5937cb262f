//! Missions that are flown, with guests, event by event, and from views of before. Expected texts
//! are worked out by hand, or come from an independent program.
mod guests;
mod parts;
mod steps;
mod views;

ghost use Rattle.std.specs.Prelude.{IfSome};
ghost use Rattle.sot_lang.specs.CertRules.{FitsTables};
ghost use Rattle.sot_flight.specs.Fits.{FitsFlight};
ghost use Rattle.sot_trace.specs.Words.{AreWords};
ghost use Rattle.sot_ordered_board.specs.Crews.{HasNoGuests};

use sot_flight::Flight;
use sot_lang::Typed;
use sot_law_trace_unique::names_are_words;
use sot_ports::Process;
use sot_report::{Loaded, load};
use sot_sections::Need;
use std::alloc::Global;
use std::fmt::Debug;
use std::process::Abort;
use std::thread::Threads;

const LONGEST: usize = 16_777_216;

// Ends the test, with what was asked, where the answer is not the one that is wanted.
pub fn same<A: Debug + Drop, T: PartialEq + Debug + Drop>(
    rt: &impl Abort,
    asked: A,
    got: T,
    wanted: T,
) {
    assert_eq!(rt; got, wanted, "{asked:?}");
}

// A vehicle on a line at most one of whose nodes is due in any instant.
pub const APART: &str = "topic cmd: int[-2..2] = 0;
plant pos { state x: int; input cmd; noise w: int[-1..1]; next x = (x + cmd) + w; }
external fast period 4 offset 2 { reads pos; writes cmd; }
node slow period 4 offset 1 {
  reads pos;
  writes cmd;
  do { publish cmd = if pos.x > 10 then -2 else if pos.x < -10 then 2 else 0; }
}
module nav { ac fast; sc slow; period 4 offset 0; plant pos; safe [-40..40]; safer [-10..10]; }
%certificate
{\"format\":1,\"modules\":{\"nav\":{\"closed\":[[[-40,-11]],[[-10,10]],[[11,40]]],\"reach\":[[[-10,10]]]}}}
";

// A node that copies what comes from outside.
pub const RELAY: &str = "environment topic e: int[0..9] = 0;
topic m: int[0..9] = 0;
node copy period 6 offset 0 { reads e; writes m; do { publish m = e; } }
%certificate
{\"format\":1,\"modules\":{}}
";

// A vehicle whose advanced node has a guest and reads what comes from outside, and whose safe node
// is not due in the first tick.
pub const GUIDED: &str = "environment topic e: int[0..9] = 0;
topic cmd: int[-2..2] = 0;
plant pos { state x: int; input cmd; noise w: int[-1..1]; next x = (x + cmd) + w; }
external fast period 4 offset 0 { reads pos, e; writes cmd; }
node slow period 4 offset 2 {
  reads pos;
  writes cmd;
  do { publish cmd = if pos.x > 10 then -2 else if pos.x < -10 then 2 else 0; }
}
module nav { ac fast; sc slow; period 4 offset 0; plant pos; safe [-40..40]; safer [-10..10]; }
%certificate
{\"format\":1,\"modules\":{\"nav\":{\"closed\":[[[-40,-11]],[[-10,10]],[[11,40]]],\"reach\":[[[-10,10]]]}}}
%flight
";

// One tick, with an input.
pub const ONE_TICK: &str =
    "{\"crew\":{\"fast\":{\"index\":0,\"kind\":\"guest\"}},\"format\":1,\"horizon\":1,\"inputs\":[{\"at\":0,\"topic\":\"e\",\"value\":[5]}],\"start\":{\"pos\":[3]},\"sway\":{\"pos\":{\"kind\":\"seed\",\"seed\":42,\"stream\":54}}}
";

// A flight of the vehicle.
pub fn flight(
    rt: &impl Abort,
    alloc: Global,
    start: &str,
    horizon: &str,
    sway: &str,
    crew: &str,
) -> String {
    format!(in alloc;
        "{{\"crew\":{{\"fast\":{crew}}},\"format\":1,\"horizon\":{horizon},\"inputs\":[],\"start\":{{\"pos\":[{start}]}},\"sway\":{{\"pos\":{sway}}}}}"
    ).expect(rt, "memory")
}

// A mission with a flight behind it.
pub fn with_flight(rt: &impl Abort, alloc: Global, mission: &str, flight: &str) -> String {
    format!(in alloc; "{mission}%flight\n{flight}\n").expect(rt, "memory")
}

// What a mission says. Its names are words. It has a flight, which fits, and at most 16 MiB.
pub fn loaded<'t>(rt: &impl Abort, alloc: Global, text: &'t str, guests: u32) -> Loaded<'t>
    ensures words { AreWords result.program }
    ensures cert { FitsTables result.program result.cert }
    ensures flight { IfSome result.flight (λ f. FitsFlight result.program guests f) }
{
    names_are_words();
    if text.len() > LONGEST {
        panic!(rt; "a text that is too long");
    }
    match load(alloc, text.as_bytes(), Need::Fly, guests, Process::GoesOn) {
        Ok(loaded) => loaded,
        Err(_) => panic!(rt; "no mission: {text}"),
    }
}

// A flight that is handed no guest has none.
pub fn has_no_guests(p: &Typed, flight: &Flight)
    requires { FitsFlight p.now 0 flight.now }
    ensures { HasNoGuests flight.now }
{}
