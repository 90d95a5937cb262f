//! Flights with guests: what texts say of them, what they state, and traces in which a guest's node
//! fires with the draft of the line. The answers are those of an independent reader of the format
//! and of an independent program.
ghost use Rattle.std.specs.Prelude.{ℕ};
ghost use Rattle.sot_flight.specs.Fits.{FitsFlight};

use super::*;
use sot_compose::check_all;
use sot_replay::{ReplayFail, replay};
use sot_report::{LoadFail, fault_text};
use sot_trace_lines::{Lines, entries_are_spelled, lines_spell_once};

// Two nodes that guests may fly.
const TWINS: &str = "topic a: int[0..1] = 0;
topic b: int[0..1] = 0;
external first period 1 offset 0 { writes a; }
external second period 1 offset 0 { writes b; }
%certificate
{\"format\":1,\"modules\":{}}
";

// The parts of a flight of the vehicle and of the two nodes behind the crew.
const OF_THE_VEHICLE: &str =
    r#","format":1,"horizon":20,"inputs":[],"start":{"pos":[0]},"sway":{"pos":{"kind":"low"}}}"#;

const OF_THE_TWINS: &str = r#","format":1,"horizon":2,"inputs":[],"start":{},"sway":{}}"#;

// How many guests are handed in, the mission and its crew, and what is said of the flight: its
// horizon, its events and its numbers, or its fault.
const CREWS: &str =
    r#"1 vehicle {"fast":{"kind":"guest","index":0}} => horizon 20 events 36 numbers 50
1 vehicle {"fast":{"kind":"guest","index":1}} => fault flight /crew/fast/index NoGuest
1 vehicle {"fast":{"kind":"guest","index":1000000000001}} => fault flight /crew/fast/index OutsideRange
1 vehicle {"fast":{"kind":"guest"}} => fault flight /crew/fast/index Missing
1 vehicle {"fast":{"kind":"guest","index":0,"seed":0}} => fault flight /crew/fast Unknown
1 vehicle {"fast":{"kind":"guest","index":0},"slow":{}} => fault flight /crew Unknown
2 twins {"first":{"index":0,"kind":"guest"},"second":{"index":1,"kind":"guest"}} => horizon 2 events 8 numbers 6
2 twins {"first":{"index":1,"kind":"guest"},"second":{"index":0,"kind":"guest"}} => horizon 2 events 8 numbers 6
2 twins {"first":{"index":1,"kind":"guest"},"second":{"index":1,"kind":"guest"}} => fault flight /crew/second/index GuestTwice
1 twins {"first":{"index":0,"kind":"guest"},"second":{"index":0,"kind":"guest"}} => fault flight /crew/second/index GuestTwice"#;

// The two parts of a row, before and behind a sign.
fn cut<'t>(rt: &impl Abort, row: &'t str, sign: &str) -> (&'t str, &'t str) {
    row.split_once(sign).expect(rt, sign)
}

// The mission of a row with its crew.
fn crewed(rt: &impl Abort, alloc: Global, name: &str, crew: &str) -> String {
    let (mission, behind) = match name {
        "twins" => (TWINS, OF_THE_TWINS),
        _ => (APART, OF_THE_VEHICLE),
    };
    format!(in alloc; "{mission}%flight\n{{\"crew\":{crew}{behind}\n").expect(rt, "memory")
}

// The horizon of a mission's flight, its events and its numbers.
fn counts(rt: &impl Abort, alloc: Global, loaded: &Loaded<'_>) -> String {
    let Some(flight) = &loaded.flight else {
        panic!(rt; "no flight");
    };
    let (horizon, events, numbers) = (flight.horizon(), flight.events(), flight.numbers());
    format!(in alloc; "horizon {horizon} events {events} numbers {numbers}\n").expect(rt, "memory")
}

// What is said of a text with a flight, where so many guests are handed in.
fn said(rt: &impl Abort, alloc: Global, text: &str, guests: u32) -> String {
    if text.len() > LONGEST {
        panic!(rt; "a text that is too long");
    }
    match load(alloc, text.as_bytes(), Need::Fly, guests, Process::GoesOn) {
        Ok(loaded) => counts(rt, alloc, &loaded),
        Err(LoadFail::Fault(fault)) => fault_text(alloc, &fault).expect(rt, "memory"),
        Err(LoadFail::Memory) => panic!(rt; "memory"),
    }
}

#[test]
fn flights_with_guests_are_read(rt: HostRuntime) {
    let alloc = rt.alloc();
    for row in CREWS.lines() {
        let (asked, want) = cut(&rt, row, " => ");
        let (guests, asked) = cut(&rt, asked, " ");
        let (name, crew) = cut(&rt, asked, " ");
        let guests = guests.parse().ok().expect(&rt, "a number");
        let text = crewed(&rt, alloc, name, crew);
        let found = said(&rt, alloc, text.as_str(), guests);
        same(&rt, row, found.as_str().strip_suffix("\n"), Some(want));
    }
    same(&rt, "rows", CREWS.lines().count(), 10);
}

// Who flies a node, and whether a draft of it is stated.
fn crew_of(rt: &impl Abort, alloc: Global, p: &Typed, flight: &Flight) -> String
    requires fits { (guests : ℕ) × FitsFlight p.now guests flight.now }
{
    if p.nodes.len() < 2 {
        panic!(rt; "no two nodes");
    }
    let (first, second) = (flight.guest(0), flight.guest(1));
    let stated = flight.stated(p, 0, 0).is_some();
    format!(in alloc; "{first:?} {second:?} {stated}").expect(rt, "memory")
}

#[test]
fn a_guest_drafts(rt: HostRuntime) {
    let alloc = rt.alloc();
    let crew = r#"{"fast":{"index":3,"kind":"guest"}}"#;
    let text = crewed(&rt, alloc, "vehicle", crew);
    let loaded = loaded(&rt, alloc, text.as_str(), 4);
    let Some(stated) = &loaded.flight else {
        panic!(rt; "no flight");
    };
    let found = crew_of(&rt, alloc, &loaded.program, stated);
    same(&rt, "crew", found.as_str(), "Some(3) None false");
}

// What stands behind `2 fire fast`, the refused drafts that the last line counts, and the answer.
// No guest hands over a number of more than 64 bits: the last row is said by hand, since the
// independent program has numbers of any length.
const DRAFTS: &str = " cmd!7 | 1 | legal events 6
 cmd!9223372036854775807 | 1 | legal events 6
 cmd!-9223372036854775808 | 1 | legal events 6
 | 0 | legal events 6
 cmd=0 | 0 | legal events 6
 cmd=7 | 1 | refused line 7 Differs
 cmd!2 | 0 | refused line 7 Differs
 cmd!7 | 0 | refused line 9 Differs
 cmd!9223372036854775808 | 1 | refused line 7 Differs";

// The trace with this behind `2 fire fast`, and so many refused drafts.
fn with_draft(rt: &impl Abort, alloc: Global, draft: &str, refused: &str) -> String {
    format!(in alloc;
        "soter trace 1
start pos 0
0 decide nav ac
0 tick pos(0)=0
1 idle slow cmd=0
1 tick pos(0)=0
2 fire fast{draft}
2 tick pos(0)=0
end 3 events 6 refused {refused}
"
    )
    .expect(rt, "memory")
}

// What replay answers, as a line.
fn answer_text(rt: &impl Abort, alloc: Global, answer: Result<u32, ReplayFail>) -> String {
    let text = match answer {
        Ok(events) => format!(in alloc; "legal events {events}"),
        Err(ReplayFail::Line { line, kind }) => format!(in alloc; "refused line {line} {kind:?}"),
        Err(ReplayFail::NotSafer { module }) => format!(in alloc; "refused start {module}"),
        Err(ReplayFail::Memory) => panic!(rt; "memory"),
    };
    text.expect(rt, "memory")
}

// What replay answers to the lines of a trace of three calm ticks, in which a guest flies the
// advanced node.
fn replayed(rt: &(impl Abort + Threads + Sync), alloc: Global, trace: &str) -> String {
    let crew = r#"{"index":0,"kind":"guest"}"#;
    let calm = r#"{"kind":"list","values":[[0]]}"#;
    let flight = flight(rt, alloc, "0", "3", calm, crew);
    let text = with_flight(rt, alloc, APART, flight.as_str());
    let loaded = loaded(rt, alloc, text.as_str(), 1);
    let Some(flight) = &loaded.flight else {
        panic!(rt; "no flight");
    };
    if trace.len() > LONGEST {
        panic!(rt; "a trace that is too long");
    }
    let Ok(accepted) = check_all(rt, &loaded.program, &loaded.cert) else {
        panic!(rt; "the mission is refused");
    };
    let answer = replay(alloc, &accepted, flight, Lines::new(trace.as_bytes()));
    answer_text(rt, alloc, answer)
}

// The two laws of lines can be called too.
#[test]
fn guests_hand_over_numbers_of_64_bits(rt: HostRuntime) {
    lines_spell_once();
    entries_are_spelled();
    let alloc = rt.alloc();
    for row in DRAFTS.lines() {
        let (draft, behind) = cut(&rt, row, " | ");
        let (refused, want) = cut(&rt, behind, " | ");
        let trace = with_draft(&rt, alloc, draft, refused);
        let found = replayed(&rt, alloc, trace.as_str());
        same(&rt, row, found.as_str(), want);
    }
    same(&rt, "rows", DRAFTS.lines().count(), 9);
}
