//! What one line leaves to the next: lists and texts that need not be made anew.

ghost use Rattle.std.specs.Prelude.{IfOk};
ghost use Rattle.sot_trace.specs.Words.{AreWords};
ghost use Rattle.sot_trace_lines.specs.Shown.{AnswersFront, AnswersLine};

use sot_lang::Typed;
use sot_trace_lines::{Line, LineFront, read_front, read_line};
use std::alloc::{AllocError, Global};

/// Where lines are read, and printed to be compared.
#[derive(Drop)]
pub struct LineDesk {
    // Where the next line's name is looked for first.
    from: usize,
    /// The value of an input or the disturbances of a tick, of the line that was read last.
    pub numbers: Vec<i64>,
    /// The line that was printed last.
    pub printed: String,
}

impl LineDesk {
    /// An empty desk. Takes no memory.
    pub fn new(alloc: Global) -> LineDesk {
        LineDesk {
            from: 0,
            numbers: Vec::new(alloc),
            printed: String::new(alloc),
        }
    }

    /// Reads a line to its end, as `read_line` of `sot_trace_lines`.
    pub fn read(&mut self, p: &Typed, line: &[u8]) -> Result<Option<Line>, AllocError>
        requires { AreWords p.now }
        ensures { IfOk result (λ l. AnswersLine p.now line.now self.new.numbers.items l) }
    {
        read_line(p, line, &mut self.from, &mut self.numbers)
    }

    /// Reads what is looked at first of a line, as `read_front` of `sot_trace_lines`.
    pub fn read_front(&mut self, p: &Typed, line: &[u8]) -> Result<Option<LineFront>, AllocError>
        requires { AreWords p.now }
        ensures { IfOk result (λ f. AnswersFront p.now line.now self.new.numbers.items f) }
    {
        read_front(p, line, &mut self.from, &mut self.numbers)
    }
}
