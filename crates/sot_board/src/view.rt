//! What a node sees at a moment, as an inline copy.

ghost use Rattle.std.specs.Prelude.{◌≡◌, ◌≤◌, length};

use sot_code::Locals;

mod readers;

/// What a node sees at a moment: the numbers in its read slots, its locals, and the versions of the
/// topics that it reads, with the time and the length of the history then. Numbers are mantissas at
/// their scales.
#[derive(Clone, Copy)]
pub struct View {
    pub(crate) node: u32,
    pub(crate) time: u32,
    // How many entries the history had.
    pub(crate) entries: u32,
    pub(crate) count: usize,
    pub(crate) numbers: [i64; 64],
    // For each read slot the version of its topic, and 0 for a state.
    pub(crate) versions: [u32; 64],
    pub(crate) locals: Locals,
    ghost few: { count ≤ 64 },
    ghost numbers_there: { length numbers ≡ 64 },
    ghost versions_there: { length versions ≡ 64 },
}
