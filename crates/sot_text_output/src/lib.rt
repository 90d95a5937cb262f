//! Texts that are put piece by piece, where putting cannot fail.
//!
//! What takes pieces is an [`Out`]. A [`Spool`] hands them on to a sink through bytes that its
//! caller lends it; once the sink has failed it hands nothing on, and [`Spool::end`] says so. Where
//! a spool goes the sink is the caller's again, as the spool left it. [`room`] takes all memory of
//! a spool, before a sink is at hand. A [`Scratch`] puts pieces behind a text in memory, and
//! [`Scratch::end`] says whether there was enough.
#![tactic(auto)]

mod out;
mod scratch;
mod spool;
mod waiting;

pub use out::Out;
pub use scratch::Scratch;
pub use spool::Spool;
pub use waiting::room;
