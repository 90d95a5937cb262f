//! Expressions: their sorts, and the faults inside them.
pub mod behind;
pub mod expression;
pub mod operands;
pub mod sort;
