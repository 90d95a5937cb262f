//! One worker's shift at a board that is taken in turns.
//!
//! A [`Controller`] is asked what a node writes, once a firing. A [`Shift`] is the job of one node:
//! it takes turns at the board, sees there whether its node is due, computes outside the turn, and
//! commits in another one. Its list of drafts is that of the node's firings in all that it has seen
//! of the history. Nobody promises that a turn comes.
#![tactic(auto)]

mod bells;
mod controller;
mod hold;
mod laws;
mod note;
mod order;
mod promise;
mod shift;
mod sight;
mod take;
mod turns;

pub use bells::Bells;
pub use controller::Controller;
pub use laws::{answers_stay, fits_stay, whole_histories_end};
pub use note::note_draft;
pub use promise::Works;
pub use shift::Shift;
pub use take::stop;
pub use turns::{take_turn, work};
