//! Bytes that wait, in room that is taken once.

ghost use Rattle.std.specs.Prelude.{◌≡◌, ◌++◌, ◌∷◌, [], true, false, IfOk};

use std::alloc::{AllocError, Global};

// How many bytes may wait.
const ROOM: usize = 65_536;

/// No bytes, with room for 64 KiB.
pub fn room(alloc: Global) -> Result<Vec<u8>, AllocError>
    ensures { IfOk result (λ waiting. waiting.items ≡ []) }
{
    Vec::with_capacity(alloc, ROOM)
}

/// Puts bytes behind those that wait, and says whether there was room for them.
#[inline(always)]
pub(crate) fn waits(waiting: &mut Vec<u8>, bytes: &[u8]) -> bool
    ensures put { result ≡ true → waiting.new.items ≡ waiting.old.items ++ bytes.now }
    ensures full { result ≡ false → waiting.new.items ≡ waiting.old.items }
{
    if bytes.len() > ROOM.saturating_sub(waiting.len()) {
        return false;
    }
    waiting.extend_from_slice(bytes).is_ok()
}

/// Puts a byte behind those that wait, and says whether there was room for it.
#[inline(always)]
pub(crate) fn waits_byte(waiting: &mut Vec<u8>, byte: u8) -> bool
    ensures put { result ≡ true → waiting.new.items ≡ waiting.old.items ++ byte ∷ [] }
    ensures full { result ≡ false → waiting.new.items ≡ waiting.old.items }
{
    if waiting.len() >= ROOM {
        return false;
    }
    waiting.push(byte).is_ok()
}
