//! Room for the numbers of a line.

ghost use Rattle.std.specs.Prelude.{◌≡◌, ◌≤◌, [], length, vec_capacity, IfOk};
ghost use Rattle.sot_guard_lines.specs.Room.{said_room};

use sot_lang::Typed;
use sot_trace_lines::keeps_rules;
use std::alloc::{AllocError, Global};

/// No numbers, with room for those of any line of a robot. The error is want of memory.
pub fn numbers_of_lines(alloc: Global, p: &Typed) -> Result<Vec<i64>, AllocError>
    ensures none { IfOk result (λ numbers. numbers.items ≡ []) }
    ensures room { IfOk result (λ numbers. said_room p.now ≤ vec_capacity numbers) }
{
    keeps_rules(p);
    Vec::with_capacity(alloc, 4 * p.plants.len() + p.scalars.len())
}
