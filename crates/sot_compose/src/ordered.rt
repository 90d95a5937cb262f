//! Nodes in an order that shows by one look at each of them that those which write a topic are
//! partners.

ghost use Rattle.std.specs.Prelude.{ℕ, ◌≡◌, ◌<◌, ◌≤◌, ◌⊎◌, ◌-◌, length, true, IfSome};
ghost use Rattle.sot_lists.specs.Places.{Has};
ghost use Rattle.sot_lang.specs.TableRules.{MeetsTableRules};
ghost use Rattle.sot_rta.specs.Topics.{AreSomeOf};
ghost use Rattle.sot_compose.specs.Outputs.{ArePartnersIn, Writes, AreAllRelated};

use crate::outputs::are_partners;
use sot_lang::{ScalarInfo, Typed};
use sot_rta::node_at;

// The topic of a scalar that is the only one.
fn only_topic(infos: &[ScalarInfo], scalars: &[u32]) -> Option<u32>
    requires { (k : ℕ) → Has scalars.now k → k < length infos.now }
    ensures { IfSome result (λ t. (u : ℕ) → AreSomeOf infos.now scalars.now u → u ≡ t) }
{
    if scalars.len() != 1 {
        return None;
    }
    let scalar = scalars[0] as usize;
    Some(infos[scalar].topic)
}

// The topic of a node that writes one scalar alone.
fn lone_topic(p: &Typed, node: u32) -> Option<u32>
    requires there { node < length p.now.nodes }
    requires rules { MeetsTableRules p.now }
    ensures { IfSome result (λ t. (u : ℕ) → Writes p.now node u → u ≡ t) }
{
    only_topic(&p.scalars, &node_at(p, node).writes)
}

// Whether a node writes a topic behind those of all nodes before it, or one behind those of all but
// its partner just before it.
fn is_apart(p: &Typed, node: u32, topic: u64, behind: u64, next: u64) -> bool
    ensures { result ≡ true → (next ≤ topic)
        ⊎ ((behind ≤ topic) × (0 < node) × ArePartnersIn p.now.modules (node - 1) node) }
{
    if next <= topic {
        return true;
    }
    if node == 0 || topic < behind {
        return false;
    }
    are_partners(&p.modules, node - 1, node)
}

fn greater(a: u64, b: u64) -> u64
    ensures first { a ≤ result }
    ensures second { b ≤ result }
{
    a.max(b)
}

/// Whether each node writes one scalar, of a topic behind those of the nodes before it but perhaps
/// its partner just before it. Then nodes that share a topic are partners.
pub fn are_in_order(p: &Typed) -> bool
    requires { MeetsTableRules p.now }
    ensures { result ≡ true → (t : ℕ) → AreAllRelated p.now t }
{
    let mut behind: u64 = 0;
    let mut next: u64 = 0;
    for node in 0..p.nodes.len() as u32 {
        let Some(topic) = lone_topic(p, node) else {
            return false;
        };
        if !is_apart(p, node, topic as u64, behind, next) {
            return false;
        }
        behind = next;
        next = greater(next, topic as u64 + 1);
    }
    true
}
