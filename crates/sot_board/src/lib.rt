//! Boards: a world that is flown as a flight states, with its history.
//!
//! The type of a board keeps that its history is one of the flight so far, and that its world is
//! where this history leads. Each call that changes a board goes on by one event of the semantics,
//! as the flight states it, and appends the one entry that tells of it. [`Board::open`] takes all
//! memory that the flight will need, and no later call takes any.
#![tactic(auto)]

mod board;
mod commit;
mod counts;
mod due;
mod facts;
mod inputs;
mod journal;
mod laws;
mod left;
mod reads;
mod receipt;
mod record;
mod states;
mod versions;
mod view;
mod zeros;

pub use board::Board;
pub use commit::Commit;
pub use facts::relay_is_flown;
pub use inputs::Inputs;
pub use journal::HistoryEntry;
pub use laws::{code_runs_on_inputs, code_runs_on_views, views_stay};
pub use receipt::Receipt;
pub use versions::publishes;
pub use view::View;
