//! The commands of `soter`: what words ask, done over any source and any sink.
//!
//! [`soter`] is the top call: it looks at the words, reads, decides and writes one text. Its
//! contract is a record with a field for each exit status (specs/Ends.antt), and says of all bytes
//! of the input which status they get. [`command_of`] says which command the words ask for. The
//! other functions are laws on what is answered, whatever the code does.
//!
//! The rules themselves stand in the crates below: `sot_report` says what the bytes of a mission
//! spell and which texts are written, `sot_compose` whether a mission is accepted, `sot_world` what
//! a run is, and `sot_ports` what was read and written.
#![tactic(auto)]

mod answer;
mod certify;
mod check;
mod facts;
mod flight;
mod flight_text;
mod fly;
mod input;
mod laws;
mod order;
mod program;
mod recover;
mod replay;
mod reply;
mod soak;
mod telling;
mod top;
mod words;

pub use facts::lists_are_told_on_as_stated;
pub use laws::{
    accepted_once, flew_once, lines_refused_once, named_are_asked, others_stay, refused_once,
    rejected_once, traces_end_once, unflown_told_once,
};
pub use order::{Begun, FlightOrder};
pub use program::run;
pub use sot_board::View;
pub use sot_cli::Status;
pub use sot_fly_worker::Controller;
pub use sot_lang::Draft;
pub use sot_ports::{Process, Sink, Source, StdSink, StdSource};
pub use telling::Telling;
pub use top::{begin, fly_to_the_end, soter};
pub use words::{Command, WordFail, command_of};
