//! The rules of typing, and the first of them that a program breaks.
#![tactic(auto)]

mod declarations;
mod expressions;
mod facts;
mod fault;
mod laws;
mod names;
mod program;
mod statements;

pub use facts::{faultless_programs_are_as_stated, first_faults_are_as_stated};
pub use fault::{TypeFail, TypeFault, TypeKind};
pub use laws::faults_are_the_failing_rules;
pub use program::first_fault;

// what the tables of a program are made with
pub use declarations::range::scalar_sort;
pub use declarations::topic::{scalar_count, start_value};
pub use expressions::sort::{Sort, given, operator_sort};
pub use names::gather::NameList;
pub use names::index::{Index, state_sort};
pub use names::scope::PartTable;
