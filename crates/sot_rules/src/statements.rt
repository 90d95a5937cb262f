//! Statements: their faults, and their count with loops unrolled.
pub mod behind;
pub mod body;
pub mod statement;
pub mod unrolled;
