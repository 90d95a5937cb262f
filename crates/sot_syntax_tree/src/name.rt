//! Names.

ghost use Rattle.std.specs.Prelude.{◌≡◌, IfOk};
ghost use Rattle.sot_text.specs.declared.token.Kind.TheVariants.{Name as NameKind};
ghost use Rattle.sot_text.specs.Lexeme.{IsTokenText};

use crate::letters::Letters;
use std::alloc::{AllocError, Global};
use std::marker::Model;
use std::str;

/// A name: one word of the language. That is a letter or `_`, then letters, digits or `_`, in
/// ASCII, at most 64 in all, and it is no keyword. So no name holds a blank, a sign or a line end,
/// and what is printed around it keeps it apart. Names of at most 14 bytes take no memory of their
/// own.
pub struct Name {
    letters: Letters,
}

// Written by hand, so that letting a name go is one call: crates that hold names are proved without
// the variants of their bytes. The call stays one in the built program, where a name that is handed
// on moves in two pieces if nothing looks inside.
impl Drop for Name {
    #[inline(never)]
    fn drop(self) {
        let Name { letters: _ } = self;
    }
}

impl Model for Name {
    ghost use Rattle.std.specs.Prelude.{ℕ, List};
    ghost use Rattle.sot_text.specs.declared.token.Kind.TheVariants.{Name as NameKind};
    ghost use Rattle.sot_text.specs.Lexeme.{IsTokenText};
    ghost use Rattle.sot_syntax_tree.specs.Letters.{letters_of};

    ghost Value = { List ℕ };

    ghost view = { λ n. letters_of n.letters };

    ghost invariant = { λ n. IsTokenText NameKind (letters_of n.letters) };
}

impl Name {
    /// A copy of these bytes.
    pub fn from_bytes(alloc: Global, bytes: &[u8]) -> Result<Name, AllocError>
        requires { IsTokenText NameKind bytes.now }
        ensures { IfOk result (λ name. name ≡ bytes.now) }
    {
        Ok(Name {
            letters: Letters::from_slice(alloc, bytes)?,
        })
    }

    /// Another name of the same bytes.
    pub fn copy(&self, alloc: Global) -> Result<Name, AllocError>
        ensures { IfOk result (λ name. name ≡ self.now) }
    {
        Name::from_bytes(alloc, self.letters.as_slice())
    }

    pub fn as_bytes(&self) -> &[u8]
        ensures { result.now ≡ self.now }
    {
        self.letters.as_slice()
    }

    pub fn as_str(&self) -> &str
        ensures { result.now ≡ self.now }
    {
        // A name is one word of the language, whose bytes are ASCII, so there is nothing to look
        // for.
        unsafe { str::from_utf8_unchecked(self.letters.as_slice()) }
    }
}
