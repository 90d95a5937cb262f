//! Worked missions as tables, for the tests of the layers that run and check programs.
//!
//! [`line`] is a vehicle on a line with an advanced and a safe node, [`pair`] the same beside a
//! battery that is drained faster where the vehicle is far away, [`double`] an arm with a place and
//! a speed that has to stop in time, and [`divide`] a node that divides by what it reads. Their
//! texts stand in `specs/`. What each makes is stated field by field, the places of traps included,
//! and meets the rules of tables, since it is a `Typed`.
#![tactic(auto)]

mod arm;
mod battery;
mod division;
mod facts;
mod parts;
mod vehicle;

pub use arm::double;
pub use battery::pair;
pub use division::{divide, divide_by_at_least_one};
pub use facts::{broken_tables_are_refused, the_first_module_counts};
pub use vehicle::{drifting_line, line};
