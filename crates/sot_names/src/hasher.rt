//! How tables hash names: by whole words, behind a key that is made of the names that they take.
//!
//! With one hash for all texts, whoever knows it finds names that collide, and a text of those
//! makes tables slow. Here a text would have to hold the key that its own names give.
ghost use Rattle.std.specs.Prelude.{◌≡◌, map};
ghost use Rattle.std.specs.List.{fold};
ghost use Rattle.std.specs.Hash.DefaultHasher as sip;
ghost use Rattle.sot_names.specs.NameHashes.{with_hash_of, keyed_by, hash_from, with_byte};
ghost use Rattle.sot_names.specs.NameHashes.{with_bytes, finished};

use crate::named::Named;
use crate::set::FEW;
use indexmap::{IndexMap, IndexSet};
use sot_syntax_tree::Ident;
use std::hash::{BuildHasher, DefaultHasher, Hasher};

// Puts the length of a name above the seven bytes that its last word may have.
const LENGTHS: u64 = 0x0100_0000_0000_0000;

/// What names stand for, by their bytes.
pub type NameMap<'p, V> = IndexMap<&'p [u8], V, NameHasher>;

/// Names, by their bytes.
pub type NameKeys<'p> = IndexSet<&'p [u8], NameHasher>;

/// Hashes the names of one table, by SipHash behind a key.
#[derive(Clone, Copy)]
pub struct NameHasher {
    start: DefaultHasher,
}

impl BuildHasher for NameHasher {
    type Hasher = NameHash;

    ghost build_hasher = { λ h. hash_from h.start };

    fn build_hasher(&self) -> NameHash {
        NameHash {
            words: self.start,
            last: 0,
            length: 0,
        }
    }
}

/// The hash of one name, whose bytes are put together to words before SipHash takes them in. A list
/// is hashed with its length first and then byte by byte. The length is left out here: the last
/// word tells it.
#[derive(Clone, Copy)]
pub struct NameHash {
    words: DefaultHasher,
    // The bytes since the last whole word, the last of them lowest.
    last: u64,
    length: u64,
}

impl NameHash {
    fn take(&mut self, b: u8)
        ensures { self.new ≡ with_byte self.old b }
    {
        self.last = self.last.wrapping_mul(256).wrapping_add(b as u64);
        self.length = self.length.wrapping_add(1);
        if self.length % 8 == 0 {
            self.words.write_u64(self.last);
            self.last = 0;
        }
    }
}

impl Hasher for NameHash {
    ghost write = { with_bytes };

    ghost finish = { finished };

    fn write(&mut self, bytes: &[u8]) {
        if bytes.len() == 1 {
            self.take(bytes[0]);
        }
    }

    fn finish(&self) -> u64 {
        let mut words = self.words;
        words.write_u64(self.length.wrapping_mul(LENGTHS).wrapping_add(self.last));
        words.finish()
    }
}

/// The names that a table will take, as one SipHash of all of them.
#[derive(Drop)]
pub struct NameKey {
    names: DefaultHasher,
}

impl NameHasher {
    /// Of a table that is to take no name, and so is never asked for a hash.
    pub fn of_none() -> NameHasher {
        NameHasher {
            start: DefaultHasher::new(),
        }
    }
}

impl NameKey {
    /// Of no name.
    pub fn new() -> NameKey
        ensures { result.names ≡ sip.initial }
    {
        NameKey {
            names: DefaultHasher::new(),
        }
    }

    /// Takes a name in. No name holds the byte that ends it here.
    pub fn take(&mut self, name: &Ident)
        ensures { self.new.names ≡ with_hash_of self.old.names name.now }
    {
        self.names.write(name.name.as_bytes());
        self.names.write_u8(0xff);
    }

    /// Takes the names of a list in.
    pub fn take_all<T: Named>(&mut self, items: &[T])
        ensures { self.new.names ≡ fold with_hash_of self.old.names (map T.ident items.now) }
    {
        for item in items {
            self.take(item.ident());
        }
    }

    /// The hasher of a table that takes these names.
    pub fn hasher(&self) -> NameHasher
        ensures { result.start ≡ keyed_by self.now.names }
    {
        let mut start = DefaultHasher::new();
        start.write_u64(self.names.finish());
        NameHasher { start }
    }
}

/// The hasher of a table that takes the names of a list beyond the first few.
pub fn hasher_beyond_few<T: Named>(items: &[T]) -> NameHasher {
    if items.len() <= FEW {
        NameHasher::of_none()
    } else {
        hasher_of(items)
    }
}

/// The hasher of a table that takes the names of a list.
pub fn hasher_of<T: Named>(items: &[T]) -> NameHasher
    ensures { result.start ≡ keyed_by (fold with_hash_of sip.initial (map T.ident items.now)) }
{
    let mut key = NameKey::new();
    key.take_all(items);
    key.hasher()
}
