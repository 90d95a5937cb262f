//! Topics that two nodes write.

ghost use Rattle.std.specs.Prelude.{ℕ, ◌≡◌, ◌<◌, ◌≤◌, length, true, false, IsTrue, ◌↔◌};
ghost use Rattle.std.specs.Prelude.{MatchOption, IfSome};
ghost use Rattle.sot_lang.specs.TableRules.{MeetsTableRules};
ghost use Rattle.sot_tube.specs.Verdict.{ShareOutput};
ghost use Rattle.sot_compose.specs.Outputs.{ArePair, ArePartnersIn, Writes, AreRelated};
ghost use Rattle.sot_compose.specs.Outputs.{AreAllRelated, IsStranger, AreFirstWriters};
ghost use Rattle.sot_compose.specs.Outputs.{IsFirstWriter};

use crate::clash::Clash;
use crate::ordered::are_in_order;
use sot_lang::{ModuleInfo, Typed};
use sot_rta::{are_some_of, node_at};

// Whether two nodes are the two nodes of this module.
fn are_pair(info: &ModuleInfo, n: u32, other: u32) -> bool
    ensures { IsTrue result ↔ ArePair info.now n other }
{
    (info.ac == n && info.sc == other) || (info.sc == n && info.ac == other)
}

// Whether two nodes are the two nodes of some module.
pub fn are_partners(modules: &[ModuleInfo], n: u32, other: u32) -> bool
    ensures { IsTrue result ↔ ArePartnersIn modules.now n other }
{
    for info in modules {
        if are_pair(info, n, other) {
            return true;
        }
    }
    false
}

// Whether a node writes a topic.
fn writes(p: &Typed, node: u32, topic: u32) -> bool
    requires there { node < length p.now.nodes }
    requires rules { MeetsTableRules p.now }
    ensures { IsTrue result ↔ Writes p.now node topic }
{
    are_some_of(&p.scalars, &node_at(p, node).writes, topic)
}

// Whether two nodes write a topic and are not partners.
fn is_stranger(p: &Typed, topic: u32, node: u32, other: u32) -> bool
    requires there { node < length p.now.nodes }
    requires there_too { other < length p.now.nodes }
    requires rules { MeetsTableRules p.now }
    ensures shares { result ≡ true → ShareOutput p.now topic node other }
    ensures related { result ≡ false → AreRelated p.now topic node other }
{
    if !writes(p, node, topic) {
        return false;
    }
    if !writes(p, other, topic) {
        return false;
    }
    !are_partners(&p.modules, node, other)
}

// The first node behind another one that writes a topic too and is not its partner.
fn first_stranger(p: &Typed, topic: u32, node: u32) -> Option<u32>
    requires there { node < length p.now.nodes }
    requires rules { MeetsTableRules p.now }
    ensures { MatchOption result
        ((k : ℕ) → node < k → AreRelated p.now topic node k)
        (λ k. IsStranger p.now topic node k) }
{
    if !writes(p, node, topic) {
        return None;
    }
    for other in node + 1..p.nodes.len() as u32 {
        if is_stranger(p, topic, node, other) {
            return Some(other);
        }
    }
    None
}

// The first node from a place on that writes a topic.
fn first_writer(p: &Typed, topic: u32, from: u32) -> Option<u32>
    requires rules { MeetsTableRules p.now }
    ensures first { MatchOption result
        ((k : ℕ) → from ≤ k → Writes p.now k topic → ⊥)
        (λ k. IsFirstWriter p.now topic from k) }
    ensures there { IfSome result (λ k. k < length p.now.nodes) }
{
    for node in from..p.nodes.len() as u32 {
        if writes(p, node, topic) {
            return Some(node);
        }
    }
    None
}

// Whether a topic has no writers but two partners, or but one. Then none of its writers are to be
// compared with others.
fn are_few(p: &Typed, topic: u32) -> bool
    requires rules { MeetsTableRules p.now }
    ensures { result ≡ true → AreAllRelated p.now topic }
{
    let Some(a) = first_writer(p, topic, 0) else {
        return true;
    };
    let Some(b) = first_writer(p, topic, a + 1) else {
        return true;
    };
    match first_writer(p, topic, b + 1) {
        Some(_) => false,
        None => are_partners(&p.modules, a, b),
    }
}

// The first two nodes that write a topic and are not partners.
fn first_writers(p: &Typed, topic: u32) -> Option<Clash>
    requires rules { MeetsTableRules p.now }
    ensures { MatchOption result
        (AreAllRelated p.now topic)
        (λ c. (c.what ≡ topic) × AreFirstWriters p.now topic c.a c.b) }
{
    if are_few(p, topic) {
        return None;
    }
    for node in 0..p.nodes.len() as u32 {
        if let Some(other) = first_stranger(p, topic, node) {
            return Some(Clash {
                what: topic,
                a: node,
                b: other,
            });
        }
    }
    None
}

/// The first topic that two nodes write which are not the two nodes of a module.
pub fn first_shared_output(p: &Typed) -> Option<Clash>
    requires rules { MeetsTableRules p.now }
    ensures first { MatchOption result
        ((t : ℕ) → t < length p.now.topics → AreAllRelated p.now t)
        (λ c. AreFirstWriters p.now c.what c.a c.b
        × ((t : ℕ) → t < c.what → AreAllRelated p.now t)) }
    ensures within { IfSome result (λ c. c.what < length p.now.topics) }
{
    if are_in_order(p) {
        return None;
    }
    for topic in 0..p.topics.len() as u32 {
        if let Some(clash) = first_writers(p, topic) {
            return Some(clash);
        }
    }
    None
}
