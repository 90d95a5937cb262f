//! Bytes that wait for the rest of their line.

ghost use Rattle.std.specs.Prelude.{◌≡◌, ◌≤◌, [], length, drop, IfOk, IfErr, OnOk};
ghost use Rattle.sot_ports.specs.Faults.{Rose};
ghost use Rattle.sot_guard_input.specs.Waiting.{longest, Waits, Comes};

use crate::first::first_line;
use crate::room::Room;
use crate::waited::Waited;
use sot_ports::{Failed, Source};
use std::alloc::{AllocError, Global};
use std::marker::Model;

/// Bytes of a source that were read and not passed yet.
#[derive(Drop)]
pub struct LineBuffer {
    room: Room,
    start: usize,
}

impl Model for LineBuffer {
    ghost use Rattle.std.specs.Prelude.{List, ℕ, ◌≤◌, drop, length};
    ghost use Rattle.sot_guard_input.specs.Waiting.{longest};

    ghost Value = { List ℕ };

    ghost view = { λ b. drop b.start b.room };

    ghost invariant = { λ b. (b.start ≤ length b.room) × (length b.room ≤ longest) };
}

impl LineBuffer {
    /// Nothing waits. All memory is taken here.
    pub fn new(alloc: Global) -> Result<LineBuffer, AllocError>
        ensures { IfOk result (λ b. b ≡ []) }
    {
        let room = Room::new(alloc)?;
        Ok(LineBuffer { room, start: 0 })
    }

    /// All that waits.
    pub fn bytes(&self) -> &[u8]
        ensures value { result.now ≡ self.now }
        ensures few { length result.now ≤ longest }
    {
        let (_, waiting) = self.room.bytes().split_at(self.start);
        waiting
    }

    /// The first bytes are passed, so many.
    pub fn pass(&mut self, count: usize)
        requires { count ≤ length self.old }
        ensures { self.new ≡ drop count self.old }
    {
        self.start += count;
    }

    /// Waits for a line. The source is asked only where no whole line waits, and no more often than
    /// it takes. An error says that it has failed; what came before stays.
    pub fn wait<S: Source>(&mut self, source: &mut S) -> Result<Waited, Failed>
        ensures comes { Comes (S.left source.old) (S.left source.new) self.old self.new }
        ensures waits { IfOk result (λ w. Waits w self.new (S.left source.new)) }
        ensures fault { IfErr result (λ _. Rose (S.faults source.old) (S.faults source.new)) }
        ensures well { OnOk result (S.faults source.new ≡ S.faults source.old) }
        ensures later { S.faults source.old ≤ S.faults source.new }
    {
        if let Some(len) = first_line(self.bytes()) {
            return Ok(Waited::Line(len));
        }
        self.room.leave_out(self.start);
        self.start = 0;
        self.room.fill(source)
    }
}
