//! What a command works on.

ghost use Rattle.std.specs.Prelude.{◌≡◌, ◌+◌, ◌≤◌, IfOk, IfErr, IsErrOf, ◌↔◌, IsTrue, vec_len};
ghost use Rattle.sot_ports.specs.Faults.{Rose};
ghost use Rattle.sot_ports.specs.Whole.{ReadsCount, ReadsUpTo};
ghost use Rattle.sot_commands.specs.Words.{Reads};
ghost use Rattle.sot_commands.specs.Ends.{Takes};

use crate::words::Command;
use sot_cli::{INPUT_LIMIT, read_input};
use sot_ports::{ReadFail, Source};
use std::alloc::Global;

fn reads(command: Command<'_>) -> bool
    ensures { IsTrue result ↔ Reads command.entry }
{
    !matches!(command, Command::Make { .. } | Command::Soak { .. })
}

/// All that the source has left, for a command that reads; and nothing for one that does not.
#[tactic(auto, using(sot_cli::proofs::Endings::reads_nothing, crate::proofs::Nothing::takes_all, crate::proofs::Nothing::takes_none))]
pub fn take<S: Source>(
    alloc: Global,
    command: Command<'_>,
    source: &mut S,
) -> Result<Vec<u8>, ReadFail>
    ensures ok { IfOk result (λ bytes.
        Takes command.entry (S.left source.old) (S.left source.new) bytes.items) }
    ensures within { IfOk result (λ bytes. vec_len bytes ≤ INPUT_LIMIT) }
    ensures fault { IsErrOf result ReadFail.Fault
        → Rose (S.faults source.old) (S.faults source.new) }
    ensures too_long { IsErrOf result ReadFail.TooLong →
        ReadsCount (S.left source.old) (S.left source.new) (INPUT_LIMIT + 1) }
    ensures well { ¬ (IsErrOf result ReadFail.Fault) → S.faults source.new ≡ S.faults source.old }
    ensures reader { IfErr result (λ _. Reads command.entry) }
    ensures untouched { ¬ (Reads command.entry) → source.new ≡ source.old }
    ensures no_more { ReadsUpTo (S.left source.old) (S.left source.new) (INPUT_LIMIT + 1) }
{
    if reads(command) {
        read_input(alloc, source)
    } else {
        Ok(Vec::new(alloc))
    }
}
