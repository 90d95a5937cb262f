//! What a program reads.

ghost use Rattle.std.specs.Prelude.{◌≡◌, ◌+◌, ◌≤◌, vec_len, IfOk, IsErrOf};
ghost use Rattle.sot_ports.specs.Faults.{Rose};
ghost use Rattle.sot_ports.specs.Whole.{ReadsAll, ReadsCount, ReadsUpTo};
ghost use Rattle.sot_cli.specs.Texts.{input_limit, long_text};

use crate::answer::{Answer, fixed};
use sot_ports::{ReadFail, Source, read_all};
use std::alloc::{AllocError, Global};

/// The most bytes of an input: 16 MiB.
pub const INPUT_LIMIT: usize = 16_777_216;

/// All bytes that the source has left, at most 16 MiB. Where it has more, one byte more is read and
/// no other.
pub fn read_input<S: Source>(alloc: Global, source: &mut S) -> Result<Vec<u8>, ReadFail>
    ensures ok { IfOk result (λ all. ReadsAll (S.left source.old) (S.left source.new) all.items) }
    ensures within { IfOk result (λ all. vec_len all ≤ input_limit) }
    ensures fault { IsErrOf result ReadFail.Fault
        → Rose (S.faults source.old) (S.faults source.new) }
    ensures too_long { IsErrOf result ReadFail.TooLong →
        ReadsCount (S.left source.old) (S.left source.new) (input_limit + 1) }
    ensures no_more { ReadsUpTo (S.left source.old) (S.left source.new) (input_limit + 1) }
    ensures well { ¬ (IsErrOf result ReadFail.Fault) → S.faults source.new ≡ S.faults source.old }
{
    read_all(alloc, source, INPUT_LIMIT)
}

/// Status 7: the input is longer than that.
pub fn too_long(alloc: Global) -> Result<Answer, AllocError>
    ensures status { IfOk result (λ answer. answer.status ≡ 7) }
    ensures text { IfOk result (λ answer. answer.text.items ≡ long_text) }
{
    fixed(alloc, 7, "fault input above 16777216 bytes\n")
}
