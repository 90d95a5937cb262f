//! Whether anything is left.

ghost use Rattle.std.specs.Prelude.{◌≡◌, ℕ, ◌<◌, false, length, IsTrue, ◌↔◌};
ghost use Rattle.sot_world.specs.Configurations.{is_left, is_left_dm};
ghost use Rattle.sot_world.specs.Calendar.{NothingLeft};

use sot_world::World;

// Whether no node is left to fire.
fn no_node_left(world: &World<'_>, nodes: u32) -> bool
    requires { nodes ≡ length world.now.accepted.program.nodes }
    ensures { IsTrue result ↔ ((n : ℕ) → n < length world.now.accepted.program.nodes
        → is_left world.now.at n ≡ false) }
{
    for n in 0..nodes {
        if world.left(n) {
            return false;
        }
    }
    true
}

// Whether no decision is left.
fn no_decision_left(world: &World<'_>, modules: u32) -> bool
    requires { modules ≡ length world.now.accepted.program.modules }
    ensures { IsTrue result ↔ ((m : ℕ) → m < length world.now.accepted.program.modules
        → is_left_dm world.now.at m ≡ false) }
{
    for m in 0..modules {
        if world.left_dm(m) {
            return false;
        }
    }
    true
}

/// Whether nothing is left to fire or to decide.
pub fn nothing_left(world: &World<'_>) -> bool
    ensures { IsTrue result ↔ NothingLeft world.now.accepted.program world.now.at }
{
    let p = world.typed();
    no_node_left(world, p.nodes.len() as u32) && no_decision_left(world, p.modules.len() as u32)
}
