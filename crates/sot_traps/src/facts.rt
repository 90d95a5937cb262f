//! What trap-freedom means for executions, as a theorem.

ghost use Rattle.sot_traps.specs.Soundness.{TrapFreeNodesNeverTrap};

/// A trap-free node never traps: its execution succeeds wherever plants are in their safe regions
/// and topics and locals in their declared ranges.
pub fn trap_free_nodes_never_trap()
    ensures { TrapFreeNodesNeverTrap }
{}
