//! The fifteen refusals, with their evidence.

use sot_box::{BoxN, Point};
use sot_lang::TrapKind;
use sot_text::Span;

/// Why a program and its certificate are refused: the first condition that fails, with its
/// evidence. Modules, nodes, topics, plants, cells and ticks are numbered from 0.
#[derive(Clone, Copy, Debug, PartialEq, Eq)]
pub enum Refusal {
    /// The period of the node is longer than the module's.
    Periods {
        module: u32,
        node: u32,
    },
    /// The topic is written by one of the module's two nodes alone.
    Outputs {
        module: u32,
        topic: u32,
    },
    /// The module's safe region, or its safer one, has no box.
    EmptyRegion {
        module: u32,
        safer: bool,
    },
    /// The point is in the safe region and in no closed cell.
    ClosedGap {
        module: u32,
        point: Point,
    },
    /// The plant may trap in the held tube of the closed cell, in the step from this tick on.
    ClosedTrap {
        module: u32,
        cell: u32,
        tick: u32,
        at: Span,
    },
    /// The held tube of the closed cell leaves the safe region: its box at this tick has the point
    /// outside.
    ClosedLeaves {
        module: u32,
        cell: u32,
        tick: u32,
        area: BoxN,
        point: Point,
    },
    /// The point is in the safer region and in no reach cell.
    ReachGap {
        module: u32,
        point: Point,
    },
    /// The tube of the reach cell leaves the safe region.
    ReachLeaves {
        module: u32,
        cell: u32,
        tick: u32,
        area: BoxN,
        point: Point,
    },
    /// The plant may trap in the tube of the reach cell.
    ReachTrap {
        module: u32,
        cell: u32,
        tick: u32,
        at: Span,
    },
    /// Two modules use the node.
    SharedNode {
        node: u32,
        a: u32,
        b: u32,
    },
    /// Two nodes write the topic, and are not the two nodes of a module.
    SharedOutput {
        topic: u32,
        a: u32,
        b: u32,
    },
    /// Two modules name the plant.
    SharedPlant {
        plant: u32,
        a: u32,
        b: u32,
    },
    /// The topic is an input of the module's plant, and its safe node does not write it.
    ForeignInput {
        module: u32,
        topic: u32,
    },
    /// A coded node may trap: the first operands or target of which some trap lie in this interval.
    CodeMayTrap {
        node: u32,
        at: Span,
        kind: TrapKind,
        lo: i128,
        hi: i128,
    },
    /// The certificate has no entry for the module.
    NoCells {
        module: u32,
    },
}
