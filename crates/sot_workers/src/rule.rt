//! For which nodes the start of a thread is tried. It is decided before the flight, from the
//! calendar, the crew and the bodies alone.

ghost use Rattle.std.specs.Prelude.{◌≡◌, ◌≤◌, ◌<◌, ℕ, ◌-◌, ◌^◌, ◌&&◌, length, min, IfOk};
ghost use Rattle.std.specs.Prelude.{false, nat_lt, slice_index_or};
ghost use Rattle.sot_lists.specs.Places.{At};
ghost use Rattle.sot_lang.specs.declared.tables.NodeInfo.{NodeInfo};
ghost use Rattle.sot_lang.specs.Tables.{Tables};
ghost use Rattle.sot_flight.specs.Counts.{due_count, firing_count};
ghost use Rattle.sot_workers.specs.Threads.{weight, statements, has_long_body, has_guest};
ghost use Rattle.sot_workers.specs.Threads.{is_long, is_small, is_tried, AreNoted};

use sot_calendar::firings;
use sot_flight::Flight;
use sot_lang::{Act, NodeInfo, Typed};
use std::alloc::{AllocError, Global};

/// In a flight with at most so many nodes, which fire at most so often up to the horizon, the start
/// of a thread is tried for each node. A firing by a thread was measured to take 4 to 6
/// microseconds, and one by the caller half a microsecond, so the threads of such a flight cost it
/// some half a second at most.
const MOST_NODES: usize = 64;

const MOST_FIRINGS: u64 = 100_000;

/// In any other flight it is tried for the nodes with guests, and for so many with long bodies: of
/// so many statements, with loops unrolled. These run at once.
const MOST_LONG: usize = 16;

const LONG_BODY: u32 = 1000;

// How many statements a block has, with loops unrolled.
#[cycle(weigh)]
fn statements(acts: &[Act]) -> u32
    ensures { result ≡ min (statements acts.now) (2 ^ 32 - 1) }
{
    let mut count: u32 = 0;
    for act in acts {
        count = count.saturating_add(weight(act));
    }
    count
}

// How many statements one statement is, with itself and all that stand in it, loops unrolled.
#[cycle(weigh)]
fn weight(act: &Act) -> u32
    ensures { result ≡ min (weight act.now) (2 ^ 32 - 1) }
{
    match act {
        Act::Assign { .. } => 1,
        Act::Publish { .. } => 1,
        Act::If { yes, no, .. } => {
            statements(yes)
                .saturating_add(statements(no))
                .saturating_add(1)
        }
        Act::Repeat { times, body } => { statements(body).saturating_mul(*times).saturating_add(1) }
    }
}

// Whether the body of a node is long.
fn has_long_body(node: &NodeInfo) -> bool
    ensures { result ≡ has_long_body node.now }
{
    match &node.body {
        Some(acts) => statements(acts) >= LONG_BODY,
        None => false,
    }
}

/// How often it is due up to and including the horizon.
#[tactic(auto, using(sot_flight::proofs::DueCounts::due_count_is))]
pub(crate) fn due_times(period: u32, offset: u32, horizon: u32) -> u32
    requires times { (offset < period) × (period ≤ 1000) }
    requires horizon { horizon ≤ 100000 }
    ensures { result ≡ due_count period offset horizon }
{
    firings(period, offset, horizon)
}

fn firings_of(nodes: &[NodeInfo], horizon: u32) -> u64
    requires times { (n : ℕ) (node : NodeInfo) → At nodes.now n node
        → (node.offset < node.period) × (node.period ≤ 1000) }
    requires few { length nodes.now ≤ 300 }
    requires horizon { horizon ≤ 100000 }
    ensures { result ≡ firing_count horizon nodes.now }
{
    let mut sum = 0;
    for node in nodes {
        sum += u64::from(due_times(node.period, node.offset, horizon));
    }
    sum
}

// Whether the flight has few nodes, and few firings.
fn is_small(p: &Typed, flight: &Flight) -> bool
    requires { flight.now.horizon ≤ 100000 }
    ensures { result ≡ is_small p.now flight.now }
{
    p.nodes.len() <= MOST_NODES && firings_of(&p.nodes, flight.horizon()) <= MOST_FIRINGS
}

// Whether a guest flies a node.
fn has_guest(flight: &Flight, node: u32) -> bool
    requires { node < length flight.now.crews }
    ensures { result ≡ has_guest flight.now node }
{
    flight.guest(node).is_some()
}

/// Whether the start of a thread is tried for a node, in a flight that is small or not, where its
/// body is one of the first long ones or not.
fn is_tried(flight: &Flight, node: u32, small: bool, long: bool) -> bool
    requires { node < length flight.now.crews }
    ensures { (p : Tables) → small ≡ is_small p flight.now → long ≡ is_long p node
        → result ≡ is_tried p flight.now node }
{
    small || has_guest(flight, node) || long
}

// Whether a body is one of the first long ones: it is long, and so many are before it.
fn is_first(long: bool, before: usize) -> bool
    ensures { result ≡ long && nat_lt before 16 }
{
    long && before < MOST_LONG
}

/// Of each node, whether its body is one of the first long ones.
pub(crate) fn long_each(alloc: Global, p: &Typed) -> Result<Vec<bool>, AllocError>
    ensures { IfOk result (λ long. AreNoted (length p.now.nodes) (is_long p.now) long.items) }
{
    let mut long = Vec::with_capacity(alloc, p.nodes.len())?;
    let mut count = 0;
    for node in 0..p.nodes.len() {
        let is_one = has_long_body(&p.nodes[node]);
        long.push_reserved(is_first(is_one, count));
        if is_one {
            count += 1;
        }
    }
    Ok(long)
}

/// Of each node, whether the start of a thread is tried for it.
pub(crate) fn tried_each(
    alloc: Global,
    p: &Typed,
    flight: &Flight,
    long: &Vec<bool>,
) -> Result<Vec<bool>, AllocError>
    requires crews { length flight.now.crews ≡ length p.now.nodes }
    requires horizon { flight.now.horizon ≤ 100000 }
    requires long { AreNoted (length p.now.nodes) (is_long p.now) long.now.items }
    ensures { IfOk result (λ tried.
        AreNoted (length p.now.nodes) (is_tried p.now flight.now) tried.items) }
{
    let small = is_small(p, flight);
    let mut tried = Vec::with_capacity(alloc, p.nodes.len())?;
    for node in 0..p.nodes.len() {
        let is_long = is_noted(long, node);
        tried.push_reserved(is_tried(flight, node as u32, small, is_long));
    }
    Ok(tried)
}

/// Whether it is noted of a node.
pub(crate) fn is_noted(noted: &Vec<bool>, node: usize) -> bool
    ensures { result ≡ slice_index_or noted.now.items node false }
{
    node < noted.len() && noted[node]
}
