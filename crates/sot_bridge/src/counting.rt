//! How often something is sent at most.

ghost use Rattle.std.specs.Prelude.{◌≡◌, ℕ, ◌<◌, ◌≤◌, length, if◌then◌else◌};
ghost use Rattle.sot_lists.specs.Places.{Has};
ghost use Rattle.sot_flight.specs.Counts.{due_count};
ghost use Rattle.sot_bridge.specs.Sends.{has_topic, most_sends};

use sot_calendar::firings;
use sot_lang::{NodeInfo, Typed};

// How often it is due up to and including the horizon.
#[tactic(auto, using(sot_flight::proofs::DueCounts::due_count_is))]
fn due_times(period: u32, offset: u32, horizon: u32) -> u64
    requires times { (offset < period) × (period ≤ 1000) }
    requires horizon { horizon ≤ 100000 }
    ensures { result ≡ due_count period offset horizon }
{
    u64::from(firings(period, offset, horizon))
}

// Whether some of these scalars is one of the topic.
fn has_topic(p: &Typed, topic: u32, scalars: &[u32]) -> bool
    requires { (k : ℕ) → Has scalars.now k → k < length p.now.scalars }
    ensures { result ≡ has_topic p.now topic scalars.now }
{
    for k in scalars {
        if p.scalars[*k as usize].topic == topic {
            return true;
        }
    }
    false
}

// How often a node may send: as often as it is due, if it writes the topic.
fn node_sends(p: &Typed, topic: u32, node: &NodeInfo, horizon: u32) -> u64
    requires times { (node.now.offset < node.now.period) × (node.now.period ≤ 1000) }
    requires inside { (k : ℕ) → Has node.now.writes.items k → k < length p.now.scalars }
    requires horizon { horizon ≤ 100000 }
    ensures { result ≡ (if has_topic p.now topic node.now.writes.items
        then due_count node.now.period node.now.offset horizon else 0) }
{
    if has_topic(p, topic, &node.writes) {
        due_times(node.period, node.offset, horizon)
    } else {
        0
    }
}

/// How often nodes that write the topic are due up to and including the horizon. A flight of that
/// horizon publishes on the topic no more often.
pub fn most_sends(p: &Typed, topic: u32, horizon: u32) -> u64
    requires { horizon ≤ 100000 }
    ensures count { result ≡ most_sends p.now topic horizon }
    ensures small { result ≤ 30000300 }
{
    let mut sum = 0;
    for n in 0..p.nodes.len() {
        sum += node_sends(p, topic, &p.nodes[n], horizon);
    }
    sum
}
