//! Two flights with a bridge between them, over any source and any sink.
//!
//! [`bridge`] is the top call: it looks at the words ([`delay_of`]), divides its input ([`divide`])
//! into two missions, flies the first, hands what it published on one topic ([`sends`]) to the
//! second as inputs, so many ticks later, flies that too, and writes both traces. Its contract is a
//! record with a field for each exit status (specs/Ends.antt).
#![tactic(auto)]

mod answer;
mod counting;
mod flown;
mod flying;
mod halves;
mod history;
mod joining;
mod laws;
mod program;
mod publishing;
mod reply;
mod side;
mod top;
mod topics;
mod words;

pub use counting::most_sends;
pub use flown::board_sends;
pub use halves::{MissionHalves, divide};
pub use history::sends;
pub use joining::JoinFault;
pub use laws::{
    sends_are_few, sends_are_in_order, sends_are_in_range, sends_are_taken, sends_may_be_relayed,
};
pub use program::run;
pub use sot_cli::Status;
pub use sot_ports::{Process, Sink, Source, StdSink, StdSource};
pub use top::bridge;
pub use topics::{topic_named, topics_match};
pub use words::{DelayFail, delay_of};
