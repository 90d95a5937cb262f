//! What is looked at of a line of a trace.

use sot_lang::Draft;

/// What is looked at of a line behind the start lines. Topics, nodes and modules are named by their
/// places in declared order. A number that has more than 64 bits is none.
#[derive(Clone, Copy)]
pub enum Line {
    /// An input. The value stands in the list that was handed in, where each of its numbers has 64
    /// bits.
    Input {
        time: Option<i64>,
        topic: u32,
        whole: bool,
    },
    /// A firing, enabled or not, with what stands for each scalar that the node writes; none where
    /// some number has more than 64 bits.
    Fire {
        time: Option<i64>,
        node: u32,
        draft: Option<Draft>,
    },
    Decide {
        time: Option<i64>,
        module: u32,
    },
    /// A tick. The disturbances of all plants stand in the list that was handed in, where each of
    /// them has 64 bits.
    Tick {
        time: Option<i64>,
        whole: bool,
    },
    End {
        ticks: Option<i64>,
    },
}

/// What is looked at first of a line behind the start lines.
#[derive(Clone, Copy)]
pub enum LineFront {
    /// It can be spelled only as a firing of this node at this time, enabled or not. What stands
    /// behind the node's name has not been looked at.
    Firing { time: Option<i64>, node: u32 },
    /// It can be spelled only as a tick at this time. What stands behind the word has not been
    /// looked at.
    Tick { time: Option<i64> },
    /// Any other line, to its end.
    Whole(Line),
}
