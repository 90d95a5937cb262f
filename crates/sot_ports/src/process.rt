//! Values whose memory nobody needs any more.

use std::mem::forget;

/// Whether the process goes on after a call.
#[derive(Clone, Copy, Debug, PartialEq, Eq)]
pub enum Process {
    GoesOn,
    /// It ends, and the system takes all its memory back at once.
    Ends,
}

/// Lets a value go. Where the process goes on, its memory is given back piece by piece; where it
/// ends, that would only take time.
pub fn let_go<T: Drop>(value: T, process: Process) {
    match process {
        Process::GoesOn => drop(value),
        Process::Ends => forget(value),
    }
}
