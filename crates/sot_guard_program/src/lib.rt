//! A decision module beside a robot, over any source and any sink.
//!
//! [`guard`] is the top call: it reads a mission up to a line `%observed`, says whether it is
//! accepted, and then answers line by line what a robot says behind that line. Its contract
//! (specs/Ends.antt) says which text belongs to each exit status. The rules stand in the crates
//! below.
#![tactic(auto)]

mod accepting;
mod describing;
mod halt;
mod line;
mod program;
mod speaker;
mod starts;
mod talking;
mod tell;
mod top;
mod unheld;

pub use program::run;
pub use sot_cli::Status;
pub use sot_ports::{Process, Sink, Source, StdSink, StdSource};
pub use top::guard;
