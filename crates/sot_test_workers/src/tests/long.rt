//! Nodes with long bodies, whose workers run at once.

use super::{alone, same, threads};

// Two long bodies, of which the second one reads what the first one writes, and three short ones,
// which fire more than a thousand times: where all are due, their order tells in what they write.
const BODIES: &str = "topic a: int[0..999] = 0;
topic b: int[0..999] = 0;
topic c: int[0..999] = 0;
topic d: int[0..999] = 0;
topic e: int[0..999] = 0;
node before period 2 offset 0 { reads c; writes d; do { publish d = c; } }
node one period 70 offset 0 { reads d; writes a; local n: int[0..999] = 0; do { repeat 1000 { n := (n + 7) % 998; } publish a = (n + d) % 1000; } }
node between period 2 offset 0 { reads a; writes e; do { publish e = a; } }
node two period 70 offset 0 { reads e; writes b; local n: int[0..999] = 1; do { repeat 1000 { n := (n + e) % 999; } publish b = n; } }
node after period 2 offset 0 { reads b; writes c; do { publish c = b; } }
%certificate
{\"format\":2,\"jitter\":";

const FLIGHT: &str = ",\"modules\":{}}
%flight
{\"crew\":{},\"format\":1,\"horizon\":700,\"inputs\":[],\"start\":{},\"sway\":{}}
";

#[test]
fn long_bodies_commit_in_order(rt: HostRuntime) {
    let alloc = rt.alloc();
    for jitter in [0, 1] {
        let text = format!(in alloc; "{BODIES}{jitter}{FLIGHT}").expect(&rt, "memory");
        let said = alone(&rt, alloc, text.as_str());
        let trace = threads(&rt, alloc, text.as_str());
        same(&rt, jitter, trace.as_str(), said.as_str());
    }
}
