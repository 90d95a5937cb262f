//! Many nodes, and many flights in a row.
ghost use Rattle.std.specs.Prelude.{◌≡◌, vec_len};
ghost use Rattle.sot_flight.specs.Fits.{FitsFlight};

use super::{flown, loaded, same};
use crate::keeper::Keeper;
use sot_compose::check_all;
use sot_flight::Flight;
use sot_tube::Accepted;
use sot_workers::{Flown, NodeList};
use std::alloc::{AllocError, Global};
use std::fmt::Write;
use std::process::Abort;
use std::sync::Wait;
use std::thread::Threads;

const NODES: u32 = 300;

const GUESTS: u32 = 20;

const HORIZON: u32 = 3;

const FLIGHTS: usize = 100;

// Who drafts for a node.
enum Drafter {
    Guest(u32),
    Code,
    Script,
}

// Of each fifteen nodes the first has a guest, the next seven their code, and the others a script.
fn drafter_of(node: u32) -> Drafter {
    match node % 15 {
        0 => Drafter::Guest(node / 15),
        1..=7 => Drafter::Code,
        _ => Drafter::Script,
    }
}

// A node that is due at each time, and writes its topic. Its code counts its firings.
fn declare_node(text: &mut String, node: u32) -> Result<(), AllocError> {
    match drafter_of(node) {
        Drafter::Code => write!(
            text,
            "node n{node} period 1 offset 0 {{ writes t{node}; local n: int[0..999] = 0; do {{ n := min(n + 1, 999); publish t{node} = n; }} }}\n"
        ),
        Drafter::Guest(_) | Drafter::Script => write!(
            text,
            "external n{node} period 1 offset 0 {{ writes t{node}; }}\n"
        ),
    }
}

// A node, with the topic that it writes.
fn declare(text: &mut String, node: u32) -> Result<(), AllocError> {
    write!(text, "topic t{node}: int[0..999] = 0;\n")?;
    declare_node(text, node)
}

// Who drafts for a node, in a flight. The script of a node has its number, and then 0.
fn hire(text: &mut String, node: u32) -> Result<(), AllocError> {
    let comma = if node == 0 { "" } else { "," };
    match drafter_of(node) {
        Drafter::Code => Ok(()),
        Drafter::Guest(index) => write!(
            text,
            "{comma}\"n{node}\":{{\"kind\":\"guest\",\"index\":{index}}}"
        ),
        Drafter::Script => write!(
            text,
            "{comma}\"n{node}\":{{\"kind\":\"script\",\"drafts\":[[{node}],[0]]}}"
        ),
    }
}

// A mission of all these nodes, with its flight.
fn crowd(rt: &impl Abort, alloc: Global) -> String {
    let mut text = String::new(alloc);
    for node in 0..NODES {
        declare(&mut text, node).expect(rt, "memory");
    }
    text.push_str(
        "%certificate\n{\"format\":1,\"modules\":{}}\n%flight\n{\"format\":1,\"inputs\":[],\"start\":{},\"sway\":{},\"crew\":{",
    ).expect(rt, "memory");
    for node in 0..NODES {
        hire(&mut text, node).expect(rt, "memory");
    }
    write!(text, "}},\"horizon\":{HORIZON}}}\n").expect(rt, "memory");
    text
}

// What a node drafts in a firing, from 0 on. Each guest drafts a thousand less its number.
fn drafted(node: u32, firing: u32) -> i64 {
    match drafter_of(node) {
        Drafter::Guest(index) => 1000 - i64::from(index),
        Drafter::Code => i64::from(firing) + 1,
        Drafter::Script => { if firing == 0 { i64::from(node) } else { 0 } }
    }
}

// Whether a list has the drafts of all firings of a node.
fn is_whole(list: &NodeList, node: u32) -> bool {
    let drafts = list.drafts.as_slice();
    if list.node != node || drafts.len() != HORIZON as usize + 1 {
        return false;
    }
    let mut whole = true;
    for firing in 0..HORIZON + 1 {
        if drafts[firing as usize].get(0) != Some(drafted(node, firing)) {
            whole = false;
        }
    }
    whole
}

// Whether the history of a flight has all firings and ticks, and its lists are whole.
fn is_flown(flown: &Flown<'_>) -> bool {
    let lists = flown.lists.as_slice();
    let events = NODES * (HORIZON + 1) + HORIZON;
    if lists.len() != NODES as usize || flown.board.history().len() != events as usize {
        return false;
    }
    let mut whole = true;
    for node in 0..NODES {
        if !is_whole(&lists[node as usize], node) {
            whole = false;
        }
    }
    whole
}

// The guests, each of which always drafts a thousand less its number.
fn keepers(rt: &impl Abort, alloc: Global) -> Vec<Keeper> {
    let mut guests = Vec::new(alloc);
    for index in 0..GUESTS {
        let number = Some(1000 - i64::from(index));
        guests
            .push(Keeper::new(alloc, number, number))
            .expect(rt, "memory");
    }
    guests
}

// A guest found memory for each asking, and keeps one for each firing of each flight.
fn keeps_all(rt: &impl Abort, guest: &Keeper) {
    same(rt, guest.number, guest.lost, false);
    same(
        rt,
        guest.number,
        guest.kept.len(),
        FLIGHTS * (HORIZON as usize + 1),
    );
}

// Flies a flight, and looks at its history and its lists.
fn flies<R: Abort + Threads + Wait + Sync>(
    rt: &R,
    alloc: Global,
    accepted: &Accepted<'_>,
    flight: &Flight,
    guests: &mut Vec<Keeper>,
    number: usize,
)
    requires { FitsFlight accepted.now.program (vec_len guests.old) flight.now }
    ensures { vec_len guests.new ≡ vec_len guests.old }
{
    let flown = flown(rt, alloc, accepted, flight, guests);
    same(rt, number, is_flown(&flown), true);
}

#[test]
fn a_crowd_flies_a_hundred_times(rt: HostRuntime) {
    let alloc = rt.alloc();
    let text = crowd(&rt, alloc);
    let mut guests = keepers(&rt, alloc);
    if guests.len() != GUESTS as usize {
        panic!(rt; "not all guests");
    }
    let loaded = loaded(&rt, alloc, text.as_str(), GUESTS);
    let Some(flight) = &loaded.flight else {
        panic!(rt; "no flight");
    };
    let Ok(accepted) = check_all(&rt, &loaded.program, &loaded.cert) else {
        panic!(rt; "the mission is refused");
    };
    for number in 0..FLIGHTS {
        flies(&rt, alloc, &accepted, flight, &mut guests, number);
    }
    for guest in &guests {
        keeps_all(&rt, guest);
    }
}
