//! A few bytes.
ghost use Rattle.std.specs.Prelude.{◌≡◌, ◌≤◌, ℕ, List, length, take};

use std::marker::Model;

/// At most `N` bytes, which lie in the value.
#[derive(Drop)]
pub(crate) struct Row<const N: usize> {
    bytes: [u8; N],
    len: u8,
}

impl<const N: usize> Model for Row<N> {
    ghost Value = { List ℕ };

    ghost view = { λ r. take r.len r.bytes };

    ghost invariant = { λ r. r.len ≤ N };
}

impl<const N: usize> Row<N> {
    /// The first so many of these bytes.
    #[inline(always)]
    pub(crate) fn of(bytes: [u8; N], len: u8) -> Row<N>
        requires { len ≤ N }
        ensures { result ≡ take len bytes.entry }
    {
        Row { bytes, len }
    }

    pub(crate) fn from_slice(bytes: &[u8]) -> Row<N>
        requires fits { length bytes.now ≤ N }
        requires counted { length bytes.now ≤ 255 }
        ensures { result ≡ bytes.now }
    {
        let mut room = [0u8; N];
        room[..bytes.len()].copy_from_slice(bytes);
        Row {
            bytes: room,
            len: bytes.len() as u8,
        }
    }

    pub(crate) fn as_slice(&self) -> &[u8]
        ensures { result.now ≡ self.now }
    {
        &self.bytes[..usize::from(self.len)]
    }
}
