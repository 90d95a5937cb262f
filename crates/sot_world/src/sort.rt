//! Which sort of node stands in a place.

ghost use Rattle.std.specs.Prelude.{◌≡◌, ◌<◌, length, true, false};
ghost use Rattle.sot_world.specs.NodeSorts.{IsCodedNode, IsExternalNode};

use sot_lang::Typed;

/// Whether a node is coded, and else it is an external one.
pub fn is_coded(p: &Typed, node: u32) -> bool
    requires { node < length p.now.nodes }
    ensures coded { result ≡ true → IsCodedNode p.now node }
    ensures external { result ≡ false → IsExternalNode p.now node }
{
    p.nodes[node as usize].body.is_some()
}
