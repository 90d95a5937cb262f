//! Flights with guests.

ghost use Rattle.std.specs.Prelude.{◌≡◌, ◌<◌, ◌^◌, vec_len, IfSome};
ghost use Rattle.sot_lang.specs.CertRules.{FitsTables};
ghost use Rattle.sot_flight.specs.Fits.{FitsFlight};
ghost use Rattle.sot_ordered_board.specs.Crews.{HasNoGuests};

mod crowd;
mod held;
mod holder;
mod long;
mod many;
mod ordered;
mod rung;

use crate::keeper::Keeper;
use sot_board::Board;
use sot_compose::check_all;
use sot_flight::Flight;
use sot_fly_worker::Controller;
use sot_lang::Typed;
use sot_ordered_board::OrderedBoard;
use sot_ports::Process;
use sot_report::{Loaded, load};
use sot_sections::Need;
use sot_trace::board_text;
use sot_tube::Accepted;
use sot_workers::{Flown, NodeList, fly, fly_alone};
use std::alloc::Global;
use std::fmt::Debug;
use std::process::Abort;
use std::sync::Wait;
use std::thread::Threads;

const LONGEST: usize = 16_777_216;

// Ends the test, with what was asked, where the answer is not the one that is wanted.
fn same<A: Debug + Drop, T: PartialEq + Debug + Drop>(
    rt: &impl Abort,
    asked: A,
    got: T,
    wanted: T,
) {
    assert_eq!(rt; got, wanted, "{asked:?}");
}

// What a mission says. It has a flight, which fits, and at most 16 MiB.
fn loaded<'t>(rt: &impl Abort, alloc: Global, text: &'t str, guests: u32) -> Loaded<'t>
    ensures cert { FitsTables result.program result.cert }
    ensures flight { IfSome result.flight (λ f. FitsFlight result.program guests f) }
{
    if text.len() > LONGEST {
        panic!(rt; "a text that is too long");
    }
    match load(alloc, text.as_bytes(), Need::Fly, guests, Process::GoesOn) {
        Ok(loaded) => loaded,
        Err(_) => panic!(rt; "no mission: {text}"),
    }
}

// Flies an accepted program.
fn flown<'a, C: Controller + Send, R: Abort + Threads + Wait + Sync>(
    rt: &R,
    alloc: Global,
    accepted: &'a Accepted<'a>,
    flight: &'a Flight,
    guests: &mut Vec<C>,
) -> Flown<'a>
    requires { FitsFlight accepted.now.program (vec_len guests.old) flight.now }
    ensures { vec_len guests.new ≡ vec_len guests.old }
{
    match Board::open(alloc, accepted, flight) {
        Ok(board) => fly(rt, alloc, board, guests).expect(rt, "memory"),
        Err(_) => panic!(rt; "the flight does not start"),
    }
}

// The trace of a mission's flight with its guests, and the lists of the drafts of its nodes.
fn trace_of<C: Controller + Send, R: Abort + Threads + Wait + Sync>(
    rt: &R,
    alloc: Global,
    text: &str,
    guests: &mut Vec<C>,
) -> (String, Vec<NodeList>)
    requires { vec_len guests.old < 2 ^ 32 }
    ensures { vec_len guests.new ≡ vec_len guests.old }
{
    let loaded = loaded(rt, alloc, text, guests.len() as u32);
    let Some(flight) = &loaded.flight else {
        panic!(rt; "no flight");
    };
    let Ok(accepted) = check_all(rt, &loaded.program, &loaded.cert) else {
        panic!(rt; "the mission is refused");
    };
    let Flown { board, lists } = flown(rt, alloc, &accepted, flight, guests);
    let text = board_text(alloc, &board).expect(rt, "memory");
    (text, lists)
}

// A flight that is handed no guest has none.
fn has_no_guests(p: &Typed, flight: &Flight)
    requires { FitsFlight p.now 0 flight.now }
    ensures { HasNoGuests flight.now }
{}

// The trace of a mission's flight, which has no guests and is flown on this thread alone.
fn alone(rt: &(impl Abort + Threads + Sync), alloc: Global, text: &str) -> String {
    let loaded = loaded(rt, alloc, text, 0);
    let Some(flight) = &loaded.flight else {
        panic!(rt; "no flight");
    };
    has_no_guests(&loaded.program, flight);
    let Ok(accepted) = check_all(rt, &loaded.program, &loaded.cert) else {
        panic!(rt; "the mission is refused");
    };
    let Ok(board) = Board::open(alloc, &accepted, flight) else {
        panic!(rt; "the flight does not start");
    };
    let mut ordered = OrderedBoard::new(board);
    fly_alone(&mut ordered);
    board_text(alloc, &ordered.into_board()).expect(rt, "memory")
}

// The trace of a mission's flight, which has no guests, by workers in threads.
fn threads<R: Abort + Threads + Wait + Sync>(rt: &R, alloc: Global, text: &str) -> String {
    let mut nobody: Vec<Keeper> = Vec::new(alloc);
    let (trace, _) = trace_of(rt, alloc, text, &mut nobody);
    trace
}

// How many drafts the list of a node has.
fn drafts_of(rt: &impl Abort, lists: &[NodeList], node: usize) -> usize {
    lists.get(node).expect(rt, "a list").drafts.len()
}
