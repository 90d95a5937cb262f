//! A JSON pointer: where a value stands in a JSON text.
ghost use Rattle.std.specs.Prelude.{◌≡◌, ℕ, List, [], ◌∷◌, ◌++◌, IfOk, OnOk, encode_utf8};
ghost use Rattle.std.specs.Prelude.{string_bytes};
ghost use Rattle.sot_json.specs.Pointers.{escaped};

use std::alloc::{AllocError, Global};
use std::marker::Model;

/// A JSON pointer. Contracts see its bytes. The root is the empty one.
#[derive(Debug, Drop)]
pub struct Path {
    text: String,
}

impl Model for Path {
    ghost Value = { List ℕ };

    ghost view = { λ p. string_bytes p.text };
}

impl Path {
    /// The path of the whole text.
    pub fn root(alloc: Global) -> Path
        ensures { result ≡ [] }
    {
        Path {
            text: String::new(alloc),
        }
    }

    /// This path, seen from the value that holds it under that name.
    pub fn below(&self, alloc: Global, name: &str) -> Result<Path, AllocError>
        ensures { IfOk result (λ p. p ≡ 47 ∷ escaped name.now ++ self.now) }
    {
        let mut text = String::new(alloc);
        push_below(&mut text, name, self.text.as_str())?;
        Ok(Path { text })
    }

    pub fn as_str(&self) -> &str
        ensures { result.now ≡ self.now }
    {
        self.text.as_str()
    }
}

// A name, and the path below it.
fn push_below(text: &mut String, name: &str, rest: &str) -> Result<(), AllocError>
    requires { string_bytes text.old ≡ [] }
    ensures { OnOk result (string_bytes text.new ≡ 47 ∷ escaped name.now ++ rest.now) }
{
    text.push_str("/")?;
    push_name(text, name)?;
    text.push_str(rest)
}

// The name with `~0` for each `~` and `~1` for each `/`.
fn push_name(text: &mut String, name: &str) -> Result<(), AllocError>
    ensures { OnOk result (string_bytes text.new ≡ string_bytes text.old ++ escaped name.now) }
{
    for c in name.chars() {
        push_escaped(text, c)?;
    }
    Ok(())
}

fn push_escaped(text: &mut String, c: char) -> Result<(), AllocError>
    ensures { OnOk result
        (string_bytes text.new ≡ string_bytes text.old ++ escaped (encode_utf8 c)) }
{
    match c {
        '~' => text.push_str("~0"),
        '/' => text.push_str("~1"),
        _ => text.push(c),
    }
}
