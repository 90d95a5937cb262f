//! What happens in an instant.

use sot_lang::Draft;

/// What happens in an instant of a run. Topics, nodes and modules are named by their places in
/// declared order.
#[derive(Clone, Copy)]
pub enum Event<'e> {
    /// A value comes on an environment topic, with one number for each of the topic's scalars, a
    /// mantissa at its scale.
    Input { topic: u32, value: &'e [i64] },
    /// A coded node fires, with what its body gives.
    Code { node: u32 },
    /// An external node fires with a draft.
    Guest { node: u32, draft: Draft },
    /// A module decides which of its nodes is enabled.
    Decide { module: u32 },
    /// All plants tick. The list holds the disturbances of all plants, one plant after another in
    /// declared order.
    Tick { noise: &'e [i64] },
}
