//! Tests of what stands beside the guard: lines of a slow source, texts that go to a failing sink,
//! what a robot says, whole talks, and bodies in flat form.
#![tactic(auto)]

#[cfg(test)]
mod tests;
