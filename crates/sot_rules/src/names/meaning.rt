//! What kind of declaration a name means, and how much it stands for.
ghost use Rattle.std.specs.Prelude.{◌≡◌, ◌&&◌, not};
ghost use Rattle.sot_rules.specs.Names.{is_topic, is_plant, is_node, is_environment, is_external};
ghost use Rattle.sot_rules.specs.Tests.{side_sorts};
ghost use Rattle.sot_rules.specs.Scopes.{sorts_in};
ghost use Rattle.sot_rules.specs.Meanings.{meant, size_of};

use crate::declarations::topic::scalar_count;
use sot_syntax_tree::{Decl, StateDecl};

pub fn is_topic(d: Option<&Decl>) -> bool
    ensures { result ≡ is_topic (meant d.entry) }
{
    match d {
        Some(Decl::Topic(_)) => true,
        _ => false,
    }
}

pub fn is_plant(d: Option<&Decl>) -> bool
    ensures { result ≡ is_plant (meant d.entry) }
{
    match d {
        Some(Decl::Plant(_)) => true,
        _ => false,
    }
}

/// Neither a topic nor a plant.
pub fn is_neither(d: Option<&Decl>) -> bool
    ensures { result ≡ (not (is_topic (meant d.entry)) && not (is_plant (meant d.entry))) }
{
    match d {
        Some(Decl::Topic(_)) => false,
        Some(Decl::Plant(_)) => false,
        _ => true,
    }
}

pub fn is_node(d: Option<&Decl>) -> bool
    ensures { result ≡ is_node (meant d.entry) }
{
    match d {
        Some(Decl::Node(_)) => true,
        _ => false,
    }
}

/// A topic that the environment publishes.
pub fn is_environment(d: Option<&Decl>) -> bool
    ensures { result ≡ is_environment (meant d.entry) }
{
    match d {
        Some(Decl::Topic(t)) => t.outside,
        _ => false,
    }
}

/// A node without a body.
pub fn is_external(d: Option<&Decl>) -> bool
    ensures { result ≡ is_external (meant d.entry) }
{
    match d {
        Some(Decl::Node(n)) => n.content().body.is_none(),
        _ => false,
    }
}

/// How many scalars a topic has; where plants count, how many states a plant has.
pub fn size_of(plants: bool, d: Option<&Decl>) -> usize
    ensures { result ≡ size_of plants (meant d.entry) }
{
    match d {
        Some(Decl::Topic(t)) => scalar_count(&t.shape),
        Some(Decl::Plant(q)) => { if plants { q.content().states.len() } else { 0 } }
        _ => 0,
    }
}

/// The state variables of a plant.
pub fn states_of<'p>(d: Option<&'p Decl>) -> Option<&'p [StateDecl]>
    ensures { sorts_in result ≡ side_sorts (meant d.entry) }
{
    match d {
        Some(Decl::Plant(q)) => Some(&q.content().states),
        _ => None,
    }
}
