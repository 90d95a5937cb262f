//! Certificates, read from JSON: for each module of a program the cells that cover its regions, and
//! the jitter of firings.
//!
//! [`read_cert`] answers with the certificate that the bytes say, or with their first fault in the
//! order of the format, as a path into the JSON and a kind.
#![tactic(auto)]

mod cells;
mod facts;
mod reading;

pub use facts::{certificates_are_as_stated, faults_are_as_stated};
pub use reading::{CertFail, read_cert};
