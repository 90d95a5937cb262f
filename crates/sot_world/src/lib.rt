//! Runs of a program, and the theorem that they are safe.
//!
//! A configuration goes to the next one by an input, a firing, a decision or a tick. In every run
//! from plants in their safer regions each configuration satisfies an invariant of all modules
//! together, and what satisfies it is safe.
#![tactic(auto)]

mod answers;
mod clock;
mod decide;
mod drafted;
mod event;
mod facts;
mod fire;
mod history;
mod input;
mod laws;
mod lent;
mod looks;
mod mode;
mod open_fail;
mod outcome;
mod recorded;
mod role;
mod schedule;
mod sort;
mod starts;
mod tick;
mod word;
mod world;

pub use decide::mode_by;
pub use event::Event;
pub use facts::{
    disabled_nodes_publish_nothing, line_decides, line_fires, line_is_safe, line_opens,
    line_switches, line_ticks, relay_takes_inputs, some_are_not_safe, twins_step,
};
pub use fire::{first_slots, publish_if};
pub use history::{Entry, History};
pub use input::write;
pub use laws::{
    certified_runs_are_safe, firings_publish_what_is_drafted, possible_is_what_has_a_step,
    runs_keep_the_invariant, something_can_happen, steps_are_unique, steps_keep_the_invariant,
    the_invariant_is_safe, without_jitter,
};
pub use lent::Lent;
pub use looks::{is_in, is_in_bounds, is_in_type};
pub use mode::Mode;
pub use open_fail::OpenFail;
pub use outcome::{Firing, Outcome, Why};
pub use sort::is_coded;
pub use starts::{
    all_locals, decisions_left, first_outside, initial_scalars, nodes_left, safe_modes,
};
pub use world::World;
