//! What a node's code and a plant's tick give, on numbers.
//!
//! `run_node` is the execution of a body and `plant_next` one tick, exactly as `sot_lang` defines
//! them: the first trap with its place and kind, or the new numbers. Numbers are 64-bit words, and
//! a result that is none is a trap. Nothing here takes memory. What a node reads is asked of a
//! `Seen`, so that a caller can lend its own numbers.
#![tactic(auto)]

mod body;
mod fired;
mod gather;
mod locals;
mod node;
mod numbers;
mod plant;
mod seen;
mod term;

pub use fired::Fired;
pub use gather::{put, put_locals, put_point, put_seen};
pub use locals::Locals;
pub use node::{run_node, run_node_over};
pub use numbers::power_of_ten;
pub use plant::{plant_next, plant_next_over};
pub use seen::Seen;
pub use term::value;
