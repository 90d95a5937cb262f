//! Steps of a body.

use crate::instruction::Instruction;

/// A step of a body. The number at a place says which way it goes, or is drafted.
#[derive(Drop)]
pub enum Step {
    Line(Vec<Instruction>),
    Publish {
        slot: u32,
        place: u8,
    },
    Choice {
        place: u8,
        yes: Vec<Step>,
        no: Vec<Step>,
    },
    Turns {
        times: u32,
        body: Vec<Step>,
    },
}
