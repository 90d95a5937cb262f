//! A mission from what must never be left, over any source and any sink.
//!
//! [`regions`] is the top call: it looks at the words ([`jitter_of`]), reads a program whose `safe`
//! says what must never be left, has regions searched for each of its modules, and writes the
//! mission of the program with these regions, or why there is none. Its contract is a record with a
//! field for each exit status (specs/Ends.antt). How regions are searched is no matter of this
//! crate: what was found is looked at and checked before it is written.
#![tactic(auto)]

mod alone;
mod as_asked;
mod as_given;
mod before;
mod finding;
mod lines;
mod mission;
mod program;
mod refusal;
mod reply;
mod search;
mod top;
mod typed;
mod words;

pub use lines::{refusal_line, usage_text};
pub use program::run;
pub use refusal::RegionsRefusal;
pub use sot_cli::Status;
pub use sot_ports::{Process, Sink, Source, StdSink, StdSource};
pub use top::regions;
pub use words::{JitterFail, jitter_of};
