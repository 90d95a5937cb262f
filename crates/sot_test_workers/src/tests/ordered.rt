//! The order in which a flight's entries come, and that nothing is late: traces of an independent
//! program.

use super::{alone, same, threads, trace_of};
use crate::keeper::Keeper;
use std::alloc::Global;
use std::process::Abort;
use std::sync::Wait;
use std::thread::Threads;

// Two modules decide in the instants in which an input comes and four nodes fire.
const DECIDING: &str = "environment topic wind: int[0..9] = 0;
topic word: int[0..9] = 0;
plant p { state x: int; next x = x; }
plant q { state x: int; next x = x; }
external one period 4 offset 0 { }
external two period 4 offset 0 { }
node slow period 4 offset 0 { do { } }
node calm period 4 offset 0 { do { } }
external aux period 8 offset 1 { writes word; }
module m { ac one; sc slow; period 4 offset 0; plant p; safe [0..1]; safer [0..1]; }
module n { ac two; sc calm; period 4 offset 0; plant q; safe [0..1]; safer [0..1]; }
%certificate
{\"format\":1,\"modules\":{\"m\":{\"closed\":[[[0,1]]],\"reach\":[[[0,1]]]},\"n\":{\"closed\":[[[0,1]]],\"reach\":[[[0,1]]]}}}
%flight
{\"crew\":{\"one\":{\"kind\":\"script\",\"drafts\":[[]]},\"two\":{\"kind\":\"script\",\"drafts\":[[]]},";

const DECIDING_END: &str =
    "},\"format\":1,\"horizon\":4,\"inputs\":[{\"at\":0,\"topic\":\"wind\",\"value\":[3]},{\"at\":4,\"topic\":\"wind\",\"value\":[7]}],\"start\":{\"p\":[0],\"q\":[1]},\"sway\":{}}
";

const DECIDED: &str = "soter trace 1
start p 0
start q 1
0 input wind=3
0 decide m ac
0 decide n ac
0 fire one
0 fire two
0 idle slow
0 idle calm
0 tick p()=0 q()=1
1 fire aux word=5
1 tick p()=0 q()=1
2 tick p()=0 q()=1
3 tick p()=0 q()=1
4 input wind=7
4 decide m ac
4 decide n ac
4 fire one
4 fire two
4 idle slow
4 idle calm
end 4 events 19 refused 0
";

// A node copies what comes from outside, and the next one what that node writes, in one instant.
const COPYING: &str = "environment topic wind: int[0..9] = 0;
topic word: int[0..9] = 0;
topic near: int[0..9] = 0;
topic far: int[0..9] = 0;
node first period 2 offset 0 { reads wind; writes near; do { publish near = wind; } }
node second period 2 offset 0 { reads near; writes far; do { publish far = near; } }
external aux period 8 offset 1 { writes word; }
%certificate
{\"format\":1,\"modules\":{}}
%flight
{\"crew\":{";

const COPYING_END: &str =
    "},\"format\":1,\"horizon\":4,\"inputs\":[{\"at\":0,\"topic\":\"wind\",\"value\":[3]},{\"at\":3,\"topic\":\"wind\",\"value\":[7]},{\"at\":4,\"topic\":\"wind\",\"value\":[8]}],\"start\":{},\"sway\":{}}
";

const COPIED: &str = "soter trace 1
0 input wind=3
0 fire first near=3
0 fire second far=3
0 tick
1 fire aux word=5
1 tick
2 fire first near=3
2 fire second far=3
2 tick
3 input wind=7
3 tick
4 input wind=8
4 fire first near=8
4 fire second far=8
end 4 events 14 refused 0
";

// Firings and decisions may be a tick late, and none is.
const LATE: &str = "environment topic wind: int[0..9] = 0;
topic word: int[0..9] = 0;
topic near: int[0..9] = 0;
plant p { state x: int; next x = x; }
external one period 4 offset 1 { }
node slow period 4 offset 1 { do { } }
node first period 2 offset 0 { reads wind; writes near; do { publish near = wind; } }
external aux period 8 offset 7 { writes word; }
module m { ac one; sc slow; period 4 offset 0; plant p; safe [0..1]; safer [0..1]; }
%certificate
{\"format\":2,\"jitter\":1,\"modules\":{\"m\":{\"closed\":[[[0,1]]],\"reach\":[[[0,1]]]}}}
%flight
{\"crew\":{\"one\":{\"kind\":\"script\",\"drafts\":[[]]},";

const LATE_END: &str =
    "},\"format\":1,\"horizon\":7,\"inputs\":[{\"at\":0,\"topic\":\"wind\",\"value\":[3]},{\"at\":2,\"topic\":\"wind\",\"value\":[7]}],\"start\":{\"p\":[0]},\"sway\":{}}
";

const NOT_LATE: &str = "soter trace 1
start p 0
0 input wind=3
0 decide m ac
0 fire first near=3
0 tick p()=0
1 fire one
1 idle slow
1 tick p()=0
2 input wind=7
2 fire first near=7
2 tick p()=0
3 tick p()=0
4 decide m ac
4 fire first near=7
4 tick p()=0
5 fire one
5 idle slow
5 tick p()=0
6 fire first near=7
6 tick p()=0
7 fire aux word=5
end 7 events 20 refused 0
";

// The node `aux` is due at a time at which nothing else is, and drafts 5: by its script, or by the
// first guest.
const SCRIPT: &str = "\"aux\":{\"kind\":\"script\",\"drafts\":[[5]]}";

const GUEST: &str = "\"aux\":{\"kind\":\"guest\",\"index\":0}";

fn mission(rt: &impl Abort, alloc: Global, front: &str, crew: &str, end: &str) -> String {
    format!(in alloc; "{front}{crew}{end}").expect(rt, "memory")
}

// The mission is flown in this order by the caller alone, by a worker a node in threads, and with a
// guest.
fn flies_in_order<R: Abort + Threads + Wait + Sync>(
    rt: &R,
    alloc: Global,
    front: &str,
    end: &str,
    said: &str,
) {
    let text = mission(rt, alloc, front, SCRIPT, end);
    same(rt, "alone", alone(rt, alloc, text.as_str()).as_str(), said);
    same(
        rt,
        "threads",
        threads(rt, alloc, text.as_str()).as_str(),
        said,
    );
    let text = mission(rt, alloc, front, GUEST, end);
    let mut guests = Vec::new(alloc);
    guests
        .push(Keeper::new(alloc, Some(5), Some(5)))
        .expect(rt, "memory");
    let (trace, _) = trace_of(rt, alloc, text.as_str(), &mut guests);
    same(rt, "guest", trace.as_str(), said);
}

#[test]
fn instants_come_in_order(rt: HostRuntime) {
    for (front, end, said) in [
        (DECIDING, DECIDING_END, DECIDED),
        (COPYING, COPYING_END, COPIED),
        (LATE, LATE_END, NOT_LATE),
    ] {
        flies_in_order(&rt, rt.alloc(), front, end, said);
    }
}
