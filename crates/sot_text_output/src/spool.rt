//! The buffer before a sink.

ghost use Rattle.std.specs.Prelude.{◌≡◌, []};
ghost use Rattle.sot_text_output.specs.Spools.{Sends, Gives, IsSpooled};
ghost use Rattle.sot_text_output.specs.SpoolViews.{spooling, Puts, EndsAs};
ghost use Rattle.sot_text_output.specs.SpoolLaws.{puts_nothing, puts_more};

use crate::out::Out;
use crate::waiting::{waits, waits_byte};
use sot_ports::{Failed, Sink, write_whole};

/// Texts that go to a sink, in the order in which they are put. Where the sink fails, no more is
/// handed on to it.
#[derive(Drop)]
pub struct Spool<'k, K: Sink> {
    sink: &'k mut K,
    waiting: &'k mut Vec<u8>,
    is_well: bool,
}

// Gives bytes to a sink, and says whether it took them all.
fn send<K: Sink>(sink: &mut K, bytes: &[u8]) -> bool
    ensures { Sends (K.held sink.old) (K.faults sink.old) (K.held sink.new) (K.faults sink.new)
        bytes.now result }
{
    match write_whole(sink, bytes) {
        Ok(()) => true,
        Err(_) => false,
    }
}

// Gives bytes to a sink that took all that came before, and says whether it took them all; any
// other is given nothing.
fn give<K: Sink>(is_well: bool, sink: &mut K, bytes: &[u8]) -> bool
    ensures { Gives is_well (K.held sink.old) (K.faults sink.old) (K.held sink.new)
        (K.faults sink.new) bytes.now result }
{
    if is_well { send(sink, bytes) } else { false }
}

impl<'k, K: Sink> Spool<'k, K> {
    /// Nothing is put yet: what is put goes to this sink through these bytes, of which none wait.
    /// The sink is given nothing here.
    pub fn new(waiting: &'k mut Vec<u8>, sink: &'k mut K) -> Spool<'k, K>
        requires { waiting.old.items ≡ [] }
        ensures sink { result.sink.ghost_name ≡ sink.entry.ghost_name }
        ensures same { result.sink.now ≡ sink.old }
        ensures new { IsSpooled (K.held sink.old) (K.faults sink.old)
            (spooling K.held K.faults result) [] }
    {
        Spool {
            sink,
            waiting,
            is_well: true,
        }
    }

    // Hands on all that waits.
    fn hand_on(&mut self)
        ensures puts { Puts K.held K.faults self.old self.new [] }
        ensures empty { self.new.waiting.now.items ≡ [] }
    {
        self.is_well = give(self.is_well, self.sink, self.waiting.as_slice());
        self.waiting.clear();
    }

    // Hands on bytes, before which nothing waits.
    fn hand_over(&mut self, bytes: &[u8])
        requires { self.old.waiting.now.items ≡ [] }
        ensures { Puts K.held K.faults self.old self.new bytes.now }
    {
        self.is_well = give(self.is_well, self.sink, bytes);
    }

    // Puts bytes for which there was no room.
    #[cold]
    #[inline(never)]
    fn put_far(&mut self, bytes: &[u8])
        ensures { Puts K.held K.faults self.old self.new bytes.now }
    {
        self.hand_on();
        if waits(self.waiting, bytes) {
            return;
        }
        self.hand_over(bytes);
    }

    #[inline(always)]
    fn put_bytes(&mut self, bytes: &[u8])
        ensures { Puts K.held K.faults self.old self.new bytes.now }
    {
        if waits(self.waiting, bytes) {
            return;
        }
        self.put_far(bytes);
    }

    /// Hands on what is left, and says whether the sink has taken all that was put.
    pub fn end(&mut self) -> Result<(), Failed>
        ensures sink { self.new.sink.ghost_name ≡ self.old.sink.ghost_name }
        ensures ends { EndsAs K.held K.faults self.old self.new result }
    {
        self.hand_on();
        if self.is_well { Ok(()) } else { Err(Failed) }
    }
}

impl<'k, K: Sink> Out for Spool<'k, K> {
    ghost puts = { Puts K.held K.faults };

    #[inline(always)]
    fn put(&mut self, text: &str) {
        self.put_bytes(text.as_bytes());
    }

    #[inline(always)]
    fn put_byte(&mut self, byte: u8) {
        if waits_byte(self.waiting, byte) {
            return;
        }
        self.put_far(&[byte]);
    }

    ghost nothing = { puts_nothing K.held K.faults };

    ghost more = { puts_more K.held K.faults };
}
