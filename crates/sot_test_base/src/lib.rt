//! Tests of what no text can ask of the lowest crates: due times, sources and sinks, the lock,
//! tokens, JSON, and the parts of boxes and regions. They stand above, so that what they test is
//! proved once.
#![tactic(auto)]

#[cfg(test)]
mod tests;
