//! What the bytes of a mission spell, and what is said of it.
//!
//! [`load`] gives what the bytes spell and a command needs: the program's tables, the certificate,
//! the flight and the bytes of the trace; or their first fault: of the sections, else of syntax,
//! else of typing, else of the certificate, else of the flight. [`fault_text`], [`refusal_text`],
//! [`start_text`] and [`accepted_text`] are the texts of answers, each a line or two. [`put`],
//! [`put_module`] and [`put_point`] put pieces of such lines behind what stands there already.
#![tactic(auto)]

mod accepted;
mod facts;
mod fault;
mod fault_lines;
mod loading;
mod piece;
mod refusal_lines;

pub use accepted::accepted_text;
pub use facts::texts_are_as_stated;
pub use fault::{Fault, LoadFail};
pub use fault_lines::fault_text;
pub use loading::{Loaded, load};
pub use piece::{put, put_module, put_point};
pub use refusal_lines::{refusal_text, start_text};
