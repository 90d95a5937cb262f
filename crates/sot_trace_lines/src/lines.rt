//! The lines of a text, lent one by one.

ghost use Rattle.std.specs.Prelude.{◌≡◌, ◌+◌, ◌<◌, ◌≤◌, ◌^◌, length};
ghost use Rattle.std.specs.Option.{option_map};
ghost use Rattle.sot_text.specs.LineEnds.{without_last};
ghost use Rattle.sot_text.specs.LineEnds.{line_len};
ghost use Rattle.sot_trace_lines.specs.LentLines.{without_end};

use sot_text::line_len;
use std::marker::Model;

/// Lends the lines of a text in order, each once, without its line end. That is an LF, together
/// with a CR directly before it; the last line may have none, and then a CR at its end is a byte
/// like any other.
#[derive(Drop)]
pub struct Lines<'t> {
    rest: &'t [u8],
    number: u32,
}

impl<'t> Model for Lines<'t> {
    ghost use Rattle.std.specs.Prelude.{◌+◌, ◌<◌, ◌^◌, length};
    ghost use Rattle.sot_trace_lines.specs.LentLines.{Lending, lent_lines};

    ghost Value = { Lending };

    ghost view = { λ l. record { to_come = lent_lines l.rest.now; number = l.number } };

    ghost invariant = { λ l. l.number + length l.rest.now < 2 ^ 32 };
}

impl<'t> Lines<'t> {
    ghost use Rattle.std.specs.Prelude.{◌≡◌, ◌+◌, ◌<◌, ◌^◌, length};
    ghost use Rattle.std.specs.Option.{option_map};
    ghost use Rattle.sot_trace_lines.specs.LentLines.{lent_lines, Lends};

    /// All lines of a text are to come.
    pub fn new(bytes: &'t [u8]) -> Lines<'t>
        requires { length bytes.now + 1 < 2 ^ 32 }
        ensures { result ≡ record { to_come = lent_lines bytes.now; number = 1 } }
    {
        Lines {
            rest: bytes,
            number: 1,
        }
    }

    /// The number that the next line has, or would have, counted from 1.
    pub fn number(&self) -> u32
        ensures { result ≡ self.now.number }
    {
        self.number
    }

    /// The next line with its number.
    pub fn next(&mut self) -> Option<(u32, &'t [u8])>
        ensures { Lends self.old (option_map (λ l. (l.0, l.1.now)) result) self.new }
    {
        if self.rest.is_empty() {
            return None;
        }
        let (line, rest) = self.rest.split_at(line_len(self.rest));
        let number = self.number;
        self.rest = rest;
        self.number += 1;
        Some((number, without_end(line)))
    }
}

fn without_return(text: &[u8]) -> &[u8]
    ensures { result.now ≡ without_last 13 text.now }
{
    match text {
        [front @ .., last] if *last == b'\r' => front,
        _ => text,
    }
}

fn without_end(line: &[u8]) -> &[u8]
    ensures { result.now ≡ without_end line.now }
{
    match line {
        [front @ .., last] if *last == b'\n' => without_return(front),
        _ => line,
    }
}
