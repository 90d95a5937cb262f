//! What stands between two words.
ghost use Rattle.std.specs.Prelude.{◌≡◌, ◌==◌, ◌++◌, [], ◌∷◌, if◌then◌else◌, codes, OnOk, IfOk};
ghost use Rattle.std.specs.Prelude.{IsAscii, replicate};
ghost use Rattle.std.specs.String.{string_bytes};
ghost use Rattle.sot_print.specs.Words.{blanks};

use std::alloc::AllocError;

/// What stands before a word: nothing, one space, or a line end and so many spaces.
#[derive(Clone, Copy, Debug, PartialEq, Eq)]
pub enum Gap {
    Touching,
    Space,
    Line { indent: usize },
}

/// ASCII characters, one by one. Few of them take less time so than by a copy of their bytes.
pub fn push_characters(out: &mut String, bytes: &[u8]) -> Result<(), AllocError>
    requires { IsAscii bytes.now }
    ensures { OnOk result (string_bytes out.new ≡ string_bytes out.old ++ bytes.now) }
{
    for byte in bytes {
        out.push(char::from(*byte))?;
    }
    Ok(())
}

fn push_spaces(out: &mut String, count: usize) -> Result<(), AllocError>
    ensures { OnOk result (string_bytes out.new ≡ string_bytes out.old ++ replicate count 32) }
{
    for _space in 0..count {
        out.push(' ')?;
    }
    Ok(())
}

// A line end and so many spaces. Those of most lines are one piece, whose length the compiler
// knows.
#[inline(never)]
fn push_line(out: &mut String, indent: usize) -> Result<(), AllocError>
    ensures { OnOk result
        (string_bytes out.new ≡ string_bytes out.old ++ 10 ∷ replicate indent 32) }
{
    match indent {
        0 => out.push('\n'),
        2 => out.push_str("\n  "),
        4 => out.push_str("\n    "),
        6 => out.push_str("\n      "),
        8 => out.push_str("\n        "),
        _ => {
            out.push('\n')?;
            push_spaces(out, indent)
        }
    }
}

/// The blanks of a gap.
#[inline(always)]
pub fn push_gap(out: &mut String, gap: Gap) -> Result<(), AllocError>
    ensures { OnOk result (string_bytes out.new ≡ string_bytes out.old ++ blanks gap) }
{
    match gap {
        Gap::Touching => Ok(()),
        Gap::Space => out.push(' '),
        Gap::Line { indent } => push_line(out, indent),
    }
}

// Signs of one or two characters are pushed one by one.
fn push_text(out: &mut String, text: &str) -> Result<(), AllocError>
    ensures { OnOk result (string_bytes out.new ≡ string_bytes out.old ++ text.now) }
{
    match text.as_bytes() {
        [sign] if *sign < 128 => out.push(char::from(*sign)),
        [first, second] if *first < 128 && *second < 128 => {
            out.push(char::from(*first))?;
            out.push(char::from(*second))
        }
        _ => out.push_str(text),
    }
}

/// A word, with what stands before it.
pub fn push_word(out: &mut String, gap: Gap, text: &str) -> Result<(), AllocError>
    ensures { OnOk result
        (string_bytes out.new ≡ string_bytes out.old ++ (blanks gap ++ text.now)) }
{
    push_gap(out, gap)?;
    push_text(out, text)
}

/// A comma, unless the item is the first of its list. Its own gap follows from that.
pub fn push_comma(out: &mut String, place: usize, gap: Gap) -> Result<Gap, AllocError>
    ensures comma { OnOk result (string_bytes out.new
        ≡ string_bytes out.old ++ (if place == 0 then [] else codes ",")) }
    ensures gap { IfOk result (λ after. after ≡ (if place == 0 then gap else Gap.Space)) }
{
    if place == 0 {
        return Ok(gap);
    }
    out.push(',')?;
    Ok(Gap::Space)
}
