//! The lines of a source, as long as there are any.

ghost use Rattle.std.specs.Prelude.{◌≡◌, ◌≤◌, true, false, [], length, drop, IfOk, IfErr, OnOk};
ghost use Rattle.sot_ports.specs.Faults.{Rose};
ghost use Rattle.sot_guard_input.specs.Waiting.{longest};
ghost use Rattle.sot_guard_input.specs.Reading.{Reads, IsNext, IsLast};

use crate::buffer::LineBuffer;
use crate::waited::Waited;
use sot_ports::{Failed, Source};
use std::alloc::{AllocError, Global};

/// What comes next of a source.
#[derive(Clone, Copy, Debug, PartialEq, Eq)]
pub enum Next {
    /// A line: so many of the first bytes that wait. The last line of a source may have no line
    /// end.
    Line(usize),
    /// Nothing more.
    End,
    /// 65,536 bytes wait without a line end: more than a line may have.
    TooLong,
}

/// The bytes of a source that were not passed yet, and whether the source was seen to end.
#[derive(Drop)]
pub struct Ear {
    buffer: LineBuffer,
    ended: bool,
}

impl Ear {
    /// Nothing waits. All memory is taken here.
    pub fn new(alloc: Global) -> Result<Ear, AllocError>
        ensures nothing { IfOk result (λ e. e.buffer ≡ []) }
        ensures open { IfOk result (λ e. e.ended ≡ false) }
    {
        let buffer = LineBuffer::new(alloc)?;
        Ok(Ear {
            buffer,
            ended: false,
        })
    }

    /// All bytes that wait.
    pub fn bytes(&self) -> &[u8]
        ensures value { result.now ≡ self.now.buffer }
        ensures few { length result.now ≤ longest }
    {
        self.buffer.bytes()
    }

    /// Whether the source was seen to end.
    pub fn has_ended(&self) -> bool
        ensures { result ≡ self.now.ended }
    {
        self.ended
    }

    /// The first bytes are passed, so many.
    pub fn pass(&mut self, count: usize)
        requires { count ≤ length self.old.buffer }
        ensures waiting { self.new.buffer ≡ drop count self.old.buffer }
        ensures ended { self.new.ended ≡ self.old.ended }
    {
        self.buffer.pass(count);
    }

    // The source is at its end: what waits is the last line, or nothing.
    fn last(&mut self) -> Next
        ensures last { IsLast result self.new }
        ensures same { self.new.buffer ≡ self.old.buffer }
    {
        self.ended = true;
        match self.buffer.bytes().len() {
            0 => Next::End,
            len => Next::Line(len),
        }
    }

    /// Waits for the next line, of a source that was not seen to end. The source is asked only
    /// where no whole line waits, and no more often than it takes. An error says that it has
    /// failed; what came before stays.
    pub fn next<S: Source>(&mut self, source: &mut S) -> Result<Next, Failed>
        requires open { self.old.ended ≡ false }
        ensures reads { Reads (S.left source.old) (S.left source.new) self.old.buffer
            self.new.buffer [] }
        ensures next { IfOk result (λ n. IsNext n (S.left source.new) self.new) }
        ensures fault { IfErr result (λ _. Rose (S.faults source.old) (S.faults source.new)) }
        ensures well { OnOk result (S.faults source.new ≡ S.faults source.old) }
    {
        match self.buffer.wait(source) {
            Ok(Waited::Line(len)) => Ok(Next::Line(len)),
            Ok(Waited::Last) => Ok(self.last()),
            Ok(Waited::TooLong) => Ok(Next::TooLong),
            Err(Failed) => Err(Failed),
        }
    }
}
