//! Guests that keep their askings, and many guests.
ghost use Rattle.std.specs.Prelude.{◌≡◌, vec_len};

use super::{drafts_of, same, trace_of};
use crate::keeper::{Keeper, Kept};
use sot_workers::NodeList;
use std::alloc::{AllocError, Global};
use std::fmt::Write;
use std::process::Abort;

// The trace of twenty ticks of a vehicle on a line, in which its module switches to the safe node at
// 12 and back at 20, as a person worked it out.
const SWITCHED: &str = "soter trace 1
start pos 0
0 decide nav ac
0 tick pos(0)=0
1 idle slow cmd=0
1 tick pos(0)=0
2 fire fast cmd=2
2 tick pos(0)=2
3 tick pos(0)=4
4 decide nav ac
4 tick pos(0)=6
5 idle slow cmd=0
5 tick pos(0)=8
6 fire fast cmd=2
6 tick pos(0)=10
7 tick pos(0)=12
8 decide nav ac
8 tick pos(0)=14
9 idle slow cmd=-2
9 tick pos(0)=16
10 fire fast cmd=2
10 tick pos(0)=18
11 tick pos(0)=20
12 decide nav sc
12 tick pos(0)=22
13 fire slow cmd=-2
13 tick pos(0)=20
14 idle fast cmd=2
14 tick pos(0)=18
15 tick pos(0)=16
16 decide nav sc
16 tick pos(0)=14
17 fire slow cmd=-2
17 tick pos(0)=12
18 idle fast cmd=2
18 tick pos(0)=10
19 tick pos(0)=8
20 decide nav ac
end 20 events 36 refused 0
";

// A vehicle whose first node is flown by the second guest, and no other node by a guest.
const VEHICLE: &str = "topic cmd: int[-2..2] = 0;
plant pos { state x: int; input cmd; noise w: int[-1..1]; next x = (x + cmd) + w; }
external fast period 4 offset 2 { reads pos; writes cmd; }
node slow period 4 offset 1 {
  reads pos;
  writes cmd;
  do { publish cmd = if pos.x > 10 then -2 else if pos.x < -10 then 2 else 0; }
}
module nav { ac fast; sc slow; period 4 offset 0; plant pos; safe [-40..40]; safer [-10..10]; }
%certificate
{\"format\":1,\"modules\":{\"nav\":{\"closed\":[[[-40,-11]],[[-10,10]],[[11,40]]],\"reach\":[[[-10,10]]]}}}
%flight
{\"crew\":{\"fast\":{\"kind\":\"guest\",\"index\":1}},\"format\":1,\"horizon\":20,\"inputs\":[],\"start\":{\"pos\":[0]},\"sway\":{\"pos\":{\"kind\":\"list\",\"values\":[[0]]}}}
";

// A guest that always drafts one number.
fn keeper(alloc: Global, number: i64) -> Keeper {
    Keeper::new(alloc, Some(number), Some(number))
}

// The asking of a firing has one number, which is the one that was there to see, and the draft of
// the node's list.
fn asked_is(rt: &impl Abort, kept: &[Kept], lists: &[NodeList], firing: usize, seen: i64) {
    let kept = kept.get(firing).expect(rt, "an asking");
    let list = lists.get(0).expect(rt, "a list");
    let draft = list.drafts.get(firing).expect(rt, "a draft");
    let shown = kept.view.len() == 1 && kept.view.value(0) == seen;
    same(rt, (firing, seen), shown, true);
    same(rt, firing, kept.draft, *draft);
}

// A guest has its number, found memory for each asking, and keeps so many.
fn keeps(rt: &impl Abort, guests: &[Keeper], index: usize, number: i64, count: usize) {
    let guest = guests.get(index).expect(rt, "a guest");
    same(rt, index, guest.number, Some(number));
    same(rt, index, guest.lost, false);
    same(rt, index, guest.kept.len(), count);
}

// Two guests, which always draft 1 and 2.
fn two_keepers(rt: &impl Abort, alloc: Global) -> Vec<Keeper>
    ensures { vec_len result ≡ 2 }
{
    let mut guests = Vec::new(alloc);
    guests.push(keeper(alloc, 1)).expect(rt, "memory");
    guests.push(keeper(alloc, 2)).expect(rt, "memory");
    guests
}

// What is seen at 2, 6, 10, 14 and 18.
fn askings_are(rt: &impl Abort, guests: &[Keeper], lists: &[NodeList]) {
    let kept = guests.get(1).expect(rt, "a guest").kept.as_slice();
    for (firing, seen) in [(0, 0), (1, 8), (2, 16), (3, 20), (4, 12)] {
        asked_is(rt, kept, lists, firing, seen);
    }
}

#[test]
fn askings_are_those_of_the_firings(rt: HostRuntime) {
    let alloc = rt.alloc();
    let mut guests = two_keepers(&rt, alloc);
    let (trace, lists) = trace_of(&rt, alloc, VEHICLE, &mut guests);
    same(&rt, "trace", trace.as_str(), SWITCHED);
    same(&rt, "guests", guests.len(), 2);
    keeps(&rt, &guests, 0, 1, 0);
    keeps(&rt, &guests, 1, 2, 5);
    same(&rt, "lists", lists.len(), 2);
    same(&rt, "fast", drafts_of(&rt, &lists, 0), 5);
    same(&rt, "slow", drafts_of(&rt, &lists, 1), 5);
    askings_are(&rt, &guests, &lists);
}

// A node of a row, with the topic that it writes; each but the first reads what the one before it
// writes.
fn declare(text: &mut String, i: u32) -> Result<(), AllocError> {
    write!(
        text,
        "topic t{i}: int[0..999] = 0;\nexternal n{i} period 1 offset 0 {{ "
    )?;
    if i > 0 {
        let before = i - 1;
        write!(text, "reads t{before}; ")?;
    }
    write!(text, "writes t{i}; }}\n")
}

// The guest of a node, in a flight.
fn hire(text: &mut String, i: u32) -> Result<(), AllocError> {
    let comma = if i == 0 { "" } else { "," };
    write!(text, "{comma}\"n{i}\":{{\"kind\":\"guest\",\"index\":{i}}}")
}

// So many nodes in a row, each of which is due at each time, and flown by a guest.
fn row(rt: &impl Abort, alloc: Global, count: u32, horizon: u32) -> String {
    let mut text = String::new(alloc);
    for i in 0..count {
        declare(&mut text, i).expect(rt, "memory");
    }
    text.push_str("%certificate\n{\"format\":1,\"modules\":{}}\n%flight\n{\"crew\":{")
        .expect(rt, "memory");
    for i in 0..count {
        hire(&mut text, i).expect(rt, "memory");
    }
    write!(
        text,
        "}},\"format\":1,\"horizon\":{horizon},\"inputs\":[],\"start\":{{}},\"sway\":{{}}}}\n"
    )
    .expect(rt, "memory");
    text
}

// So many guests, each of which always drafts its number.
fn keepers(rt: &impl Abort, alloc: Global, count: i64) -> Vec<Keeper> {
    let mut guests = Vec::new(alloc);
    for number in 0..count {
        guests.push(keeper(alloc, number)).expect(rt, "memory");
    }
    guests
}

#[test]
fn a_hundred_guests_fly(rt: HostRuntime) {
    let alloc = rt.alloc();
    let text = row(&rt, alloc, 100, 20);
    let mut guests = keepers(&rt, alloc, 100);
    if guests.len() != 100 {
        panic!(rt; "not a hundred guests");
    }
    let (_, lists) = trace_of(&rt, alloc, text.as_str(), &mut guests);
    same(&rt, "lists", lists.len(), 100);
    same(&rt, "guests", guests.len(), 100);
    for i in 0..100 {
        same(&rt, i, drafts_of(&rt, &lists, i), 21);
        keeps(&rt, &guests, i, i as i64, 21);
    }
}
