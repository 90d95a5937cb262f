//! Guests that are to be rung for at each of their firings, the first one too. Where a ring is
//! lost, the flight does not end.

use super::{drafts_of, same, trace_of};
use crate::keeper::Keeper;
use std::alloc::Global;
use std::process::Abort;
use std::sync::Wait;
use std::thread::Threads;

// The second guest is due for the first time long after it was started, while the first one is due
// at each time.
const FAR: &str = "external one period 1 offset 0 { }
external two period 40 offset 30 { }
%certificate
{\"format\":1,\"modules\":{}}
%flight
{\"crew\":{\"one\":{\"kind\":\"guest\",\"index\":0},\"two\":{\"kind\":\"guest\",\"index\":1}},\"format\":1,\"horizon\":40,\"inputs\":[],\"start\":{},\"sway\":{}}
";

// The first node has its code, and a guest flies the second one.
const CODED: &str = "node calm period 1 offset 0 { do { } }
external one period 2 offset 1 { }
%certificate
{\"format\":1,\"modules\":{}}
%flight
{\"crew\":{\"one\":{\"kind\":\"guest\",\"index\":0}},\"format\":1,\"horizon\":6,\"inputs\":[],\"start\":{},\"sway\":{}}
";

// Two nodes with code, one with a script, one that a guest flies, and firings that may be two ticks
// late.
const MIXED: &str = "node calm period 2 offset 0 { do { } }
external one period 3 offset 1 { }
node slow period 5 offset 2 { do { } }
external two period 4 offset 0 { }
%certificate
{\"format\":2,\"jitter\":1,\"modules\":{}}
%flight
{\"crew\":{\"one\":{\"kind\":\"guest\",\"index\":0},\"two\":{\"kind\":\"script\",\"drafts\":[[]]}},\"format\":1,\"horizon\":12,\"inputs\":[],\"start\":{},\"sway\":{}}
";

// Two thousand ticks, with a guest that is due at each and one that is due at each third.
const LONG: &str = "external one period 1 offset 0 { }
external two period 3 offset 2 { }
node calm period 2 offset 0 { do { } }
%certificate
{\"format\":1,\"modules\":{}}
%flight
{\"crew\":{\"one\":{\"kind\":\"guest\",\"index\":0},\"two\":{\"kind\":\"guest\",\"index\":1}},\"format\":1,\"horizon\":2000,\"inputs\":[],\"start\":{},\"sway\":{}}
";

// So many guests that draft nothing.
fn keepers(rt: &impl Abort, alloc: Global, count: u32) -> Vec<Keeper> {
    let mut guests = Vec::new(alloc);
    for _ in 0..count {
        guests
            .push(Keeper::new(alloc, None, None))
            .expect(rt, "memory");
    }
    guests
}

// The flight ends, and the nodes have fired so often.
fn fires<R: Abort + Threads + Wait + Sync>(
    rt: &R,
    alloc: Global,
    text: &str,
    count: u32,
    wanted: &[usize],
) {
    let mut guests = keepers(rt, alloc, count);
    if guests.len() > 2 {
        panic!(rt; "too many guests");
    }
    let (_, lists) = trace_of(rt, alloc, text, &mut guests);
    for node in 0..wanted.len() {
        same(rt, (text, node), drafts_of(rt, &lists, node), wanted[node]);
    }
}

#[test]
fn no_ring_is_lost(rt: HostRuntime) {
    for (text, count, wanted) in [
        (FAR, 2, [41, 1].as_slice()),
        (CODED, 1, [7, 3].as_slice()),
        (MIXED, 1, [7, 4, 3, 4].as_slice()),
        (LONG, 2, [2001, 667, 1001].as_slice()),
    ] {
        fires(&rt, rt.alloc(), text, count, wanted);
    }
}
