//! Certificates made for given regions.
//!
//! [`certify`] halves the boxes of each module's regions ([`halves_of`]) until each is a cell that
//! keeps, and gives the certificate of these cells, with firings on time. Where it cannot, it says
//! why: a condition without cells, a single point whose own tube leaves, or a list with more cells
//! than a certificate may have.
#![tactic(auto)]

mod facts;
mod fail;
mod good;
mod halves;
mod laws;
mod listing;
mod making;

pub use facts::{cuts_are_as_stated, findings_are_as_stated};
pub use fail::CertifyFail;
pub use halves::{BoxHalves, halves_of, low_corner};
pub use laws::{
    answers_are_one, failing_points_leave, lists_are_found_once, points_leave,
    refusals_are_the_verdicts, tubes_of_failing_points_leave,
};
pub use making::certify;
