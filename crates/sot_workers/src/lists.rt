//! Lists of drafts, one a node.

ghost use Rattle.std.specs.Prelude.{ℕ, ◌<◌, ◌≤◌, length, IfOk};
ghost use Rattle.sot_lists.specs.Places.{At};
ghost use Rattle.sot_lang.specs.declared.tables.NodeInfo.{NodeInfo};
ghost use Rattle.sot_workers.specs.Lists.{AreEmpty, HaveRoom};

use crate::rule::due_times;
use sot_lang::{Draft, NodeInfo, Typed};
use std::alloc::{AllocError, Global};

/// A node, with the drafts of its firings in order.
#[derive(Drop)]
pub struct NodeList {
    pub node: u32,
    pub drafts: Vec<Draft>,
}

fn lists_for(alloc: Global, nodes: &[NodeInfo], horizon: u32) -> Result<Vec<NodeList>, AllocError>
    requires times { (n : ℕ) (node : NodeInfo) → At nodes.now n node
        → (node.offset < node.period) × (node.period ≤ 1000) }
    requires few { length nodes.now ≤ 300 }
    requires horizon { horizon ≤ 100000 }
    ensures lists { IfOk result (λ lists. AreEmpty (length nodes.now) lists.items) }
    ensures room { IfOk result (λ lists.
        HaveRoom nodes.now horizon (λ _. Unit {0}) lists.items) }
{
    let mut lists = Vec::with_capacity(alloc, nodes.len())?;
    for node in 0..nodes.len() {
        let info = &nodes[node];
        let room = due_times(info.period, info.offset, horizon);
        let drafts = Vec::with_capacity(alloc, room as usize)?;
        lists.push_reserved(NodeList {
            node: node as u32,
            drafts,
        });
    }
    Ok(lists)
}

/// An empty list for each node, in declared order, with room for all its firings up to the horizon.
pub(crate) fn no_lists(alloc: Global, p: &Typed, horizon: u32) -> Result<Vec<NodeList>, AllocError>
    requires { horizon ≤ 100000 }
    ensures lists { IfOk result (λ lists. AreEmpty (length p.now.nodes) lists.items) }
    ensures room { IfOk result (λ lists.
        HaveRoom p.now.nodes horizon (λ _. Unit {0}) lists.items) }
{
    lists_for(alloc, &p.nodes, horizon)
}
