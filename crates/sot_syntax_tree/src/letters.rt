//! The bytes of a name.
ghost use Rattle.std.specs.Prelude.{◌≡◌, ◌≤◌, IfOk, length};
ghost use Rattle.sot_syntax_tree.specs.Letters.{letters_of};

use crate::row::Row;
use std::alloc::{AllocError, Global};

/// At most 64 bytes. Up to 14 lie in the value, and more of them in memory of their own.
#[derive(Drop)]
pub(crate) enum Letters {
    Few(Row<14>),
    Many(Box<Row<64>>),
}

// Most names are short. What a copy puts into memory byte by byte must all be there before it is
// read again in one piece, so few bytes are put together without one.
#[inline(always)]
fn few(bytes: &[u8]) -> Row<14>
    requires { length bytes.now ≤ 14 }
    ensures { result ≡ bytes.now }
{
    match bytes {
        [a] => Row::of([*a, 0, 0, 0, 0, 0, 0, 0, 0, 0, 0, 0, 0, 0], 1),
        [a, b] => Row::of([*a, *b, 0, 0, 0, 0, 0, 0, 0, 0, 0, 0, 0, 0], 2),
        [a, b, c] => Row::of([*a, *b, *c, 0, 0, 0, 0, 0, 0, 0, 0, 0, 0, 0], 3),
        [a, b, c, d] => Row::of([*a, *b, *c, *d, 0, 0, 0, 0, 0, 0, 0, 0, 0, 0], 4),
        _ => Row::from_slice(bytes),
    }
}

impl Letters {
    pub(crate) fn from_slice(alloc: Global, bytes: &[u8]) -> Result<Letters, AllocError>
        requires { length bytes.now ≤ 64 }
        ensures { IfOk result (λ l. letters_of l ≡ bytes.now) }
    {
        if bytes.len() <= 14 {
            Ok(Letters::Few(few(bytes)))
        } else {
            Ok(Letters::Many(Box::new(alloc, Row::from_slice(bytes))?))
        }
    }

    pub(crate) fn as_slice(&self) -> &[u8]
        ensures { result.now ≡ letters_of self.now }
    {
        match self {
            Letters::Few(row) => row.as_slice(),
            Letters::Many(row) => row.as_slice(),
        }
    }
}
