//! Guests that are held until another one was called.
ghost use Rattle.std.specs.Prelude.{◌≡◌, vec_len};

use super::holder::{Caller, Holder};
use super::{drafts_of, same, trace_of};
use sot_fly_worker::Controller;
use std::alloc::Global;
use std::process::Abort;
use std::sync::Arc;
use std::sync::atomic::{AtomicBool, Ordering};

// Two nodes that read and write nothing, the second one due a tick after the first, with a jitter
// of one; four ticks.
const APART: &str = "external one period 4 offset 0 { }
external two period 4 offset 1 { }
%certificate
{\"format\":2,\"jitter\":1,\"modules\":{}}
%flight
{\"crew\":{\"one\":{\"kind\":\"guest\",\"index\":0},\"two\":{\"kind\":\"guest\",\"index\":1}},\"format\":1,\"horizon\":4,\"inputs\":[],\"start\":{},\"sway\":{}}
";

// Three nodes that read and write nothing, each due a tick after the one before it, with a jitter
// of one; four ticks.
const THREE: &str = "external one period 4 offset 0 { }
external two period 4 offset 1 { }
external three period 4 offset 2 { }
%certificate
{\"format\":2,\"jitter\":1,\"modules\":{}}
%flight
{\"crew\":{\"one\":{\"kind\":\"guest\",\"index\":0},\"two\":{\"kind\":\"guest\",\"index\":1},\"three\":{\"kind\":\"guest\",\"index\":2}},\"format\":1,\"horizon\":4,\"inputs\":[],\"start\":{},\"sway\":{}}
";

// The advanced nodes of two modules, which are due in one instant, each flown by a guest; four
// ticks.
const ADVANCED: &str = "plant p { state x: int; next x = x; }
plant q { state x: int; next x = x; }
external one period 4 offset 0 { }
external two period 4 offset 0 { }
node slow period 4 offset 0 { do { } }
node calm period 4 offset 0 { do { } }
module m { ac one; sc slow; period 4 offset 0; plant p; safe [0..1]; safer [0..1]; }
module n { ac two; sc calm; period 4 offset 0; plant q; safe [0..1]; safer [0..1]; }
%certificate
{\"format\":1,\"modules\":{\"m\":{\"closed\":[[[0,1]]],\"reach\":[[[0,1]]]},\"n\":{\"closed\":[[[0,1]]],\"reach\":[[[0,1]]]}}}
%flight
{\"crew\":{\"one\":{\"kind\":\"guest\",\"index\":0},\"two\":{\"kind\":\"guest\",\"index\":1}},\"format\":1,\"horizon\":4,\"inputs\":[],\"start\":{\"p\":[0],\"q\":[1]},\"sway\":{}}
";

// A flag that is not up.
fn flag(rt: &impl Abort, alloc: Global) -> Arc<AtomicBool, Global> {
    Arc::new(alloc, AtomicBool::new(false)).expect(rt, "memory")
}

// One more handle of a flag.
fn again(rt: &impl Abort, flag: &Arc<AtomicBool, Global>) -> Arc<AtomicBool, Global> {
    Arc::try_clone(flag).expect(rt, "memory")
}

// A guest that puts one flag up, waits for another, and puts a third up once it met that.
fn holder(
    rt: &impl Abort,
    called: &Arc<AtomicBool, Global>,
    other: &Arc<AtomicBool, Global>,
    met: &Arc<AtomicBool, Global>,
) -> Holder {
    Holder {
        called: again(rt, called),
        other: again(rt, other),
        met: again(rt, met),
    }
}

// Two guests, each of which waits until the other was called.
fn holders(
    rt: &impl Abort,
    alloc: Global,
    first: &Arc<AtomicBool, Global>,
    second: &Arc<AtomicBool, Global>,
) -> Vec<Holder>
    ensures { vec_len result ≡ 2 }
{
    let one = flag(rt, alloc);
    let other = flag(rt, alloc);
    let mut guests = Vec::new(alloc);
    guests
        .push(holder(rt, &one, &other, first))
        .expect(rt, "memory");
    guests
        .push(holder(rt, &other, &one, second))
        .expect(rt, "memory");
    guests
}

#[test]
fn guests_are_asked_at_once(rt: HostRuntime) {
    let alloc = rt.alloc();
    let first = flag(&rt, alloc);
    let second = flag(&rt, alloc);
    let mut guests = holders(&rt, alloc, &first, &second);
    let (_, lists) = trace_of(&rt, alloc, ADVANCED, &mut guests);
    same(&rt, "first", first.load(Ordering::SeqCst), true);
    same(&rt, "second", second.load(Ordering::SeqCst), true);
    same(&rt, "lists", lists.len(), 4);
    same(&rt, "one", drafts_of(&rt, &lists, 0), 2);
    same(&rt, "two", drafts_of(&rt, &lists, 1), 2);
}

#[test]
fn time_goes_on_while_a_guest_is_held(rt: HostRuntime) {
    let alloc = rt.alloc();
    let met = flag(&rt, alloc);
    let called = flag(&rt, alloc);
    let held = holder(&rt, &flag(&rt, alloc), &called, &met);
    let held: Box<dyn Controller + Send> = Box::new(alloc, held).expect(&rt, "memory");
    let calls: Box<dyn Controller + Send> = Box::new(alloc, Caller { called }).expect(
        &rt, "memory",
    );
    let mut guests = Vec::new(alloc);
    guests.push(held).expect(&rt, "memory");
    guests.push(calls).expect(&rt, "memory");
    let (_, lists) = trace_of(&rt, alloc, APART, &mut guests);
    same(&rt, "met", met.load(Ordering::SeqCst), true);
    same(&rt, "lists", lists.len(), 2);
    same(&rt, "one", drafts_of(&rt, &lists, 0), 2);
    same(&rt, "two", drafts_of(&rt, &lists, 1), 1);
}

// The second guest is asked at 1 and held until the third one is called, whose node is due at 2: so
// a tick comes while it is held.
#[test]
fn a_tick_comes_while_a_guest_is_held(rt: HostRuntime) {
    let alloc = rt.alloc();
    let met = flag(&rt, alloc);
    let called = flag(&rt, alloc);
    let first = Caller {
        called: flag(&rt, alloc),
    };
    let held = holder(&rt, &flag(&rt, alloc), &called, &met);
    let first: Box<dyn Controller + Send> = Box::new(alloc, first).expect(&rt, "memory");
    let held: Box<dyn Controller + Send> = Box::new(alloc, held).expect(&rt, "memory");
    let last: Box<dyn Controller + Send> = Box::new(alloc, Caller { called }).expect(&rt, "memory");
    let mut guests = Vec::new(alloc);
    guests.push(first).expect(&rt, "memory");
    guests.push(held).expect(&rt, "memory");
    guests.push(last).expect(&rt, "memory");
    let (_, lists) = trace_of(&rt, alloc, THREE, &mut guests);
    same(&rt, "met", met.load(Ordering::SeqCst), true);
    same(&rt, "one", drafts_of(&rt, &lists, 0), 2);
    same(&rt, "two", drafts_of(&rt, &lists, 1), 1);
    same(&rt, "three", drafts_of(&rt, &lists, 2), 1);
}
