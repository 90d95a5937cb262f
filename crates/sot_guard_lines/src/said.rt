//! What is looked at of a line of a robot.

use sot_lang::Draft as NodeDraft;

/// What a robot says in a line. Plants, topics and nodes are named by their places in declared
/// order.
#[derive(Clone, Copy)]
pub enum Said {
    /// The first state of a plant. Its coordinates stand in the list that was handed in, where each
    /// of them has 64 bits.
    Start { plant: u32, whole: bool },
    /// A value came on an environment topic. It stands in the list, where each of its numbers has
    /// 64 bits.
    Input { topic: u32, whole: bool },
    /// What an external node drafts; none where some number has more than 64 bits.
    Draft { node: u32, draft: Option<NodeDraft> },
    /// That was all of this instant.
    Go,
    /// The models are to be trusted again.
    Resume,
    /// The states of all plants after a tick, which stand in the list, one plant after another in
    /// declared order, where each of their numbers has 64 bits.
    Tick { whole: bool },
}
