//! Lists of zeros, to count in and to be written over.

ghost use Rattle.std.specs.Prelude.{◌≡◌, IfOk, replicate, pos};

use std::alloc::{AllocError, Global};

/// So many counts of 0.
pub fn no_counts(alloc: Global, len: usize) -> Result<Vec<u32>, AllocError>
    ensures { IfOk result (λ v. v.items ≡ replicate len 0) }
{
    vec![in alloc; 0; len]
}

/// Room for so many numbers.
pub fn no_numbers(alloc: Global, len: usize) -> Result<Vec<i64>, AllocError>
    ensures { IfOk result (λ v. v.items ≡ replicate len (pos 0)) }
{
    vec![in alloc; 0; len]
}
