//! Why nothing more is heard of a robot, and what is said of it.

ghost use Rattle.std.specs.Prelude.{◌≡◌};
ghost use Rattle.sot_guard_program.specs.Lines.{at_line};
ghost use Rattle.sot_guard_protocol.specs.Answers.{misheard_word};
ghost use Rattle.sot_guard_program.specs.Moments.{mouth};
ghost use Rattle.sot_guard_program.specs.Tellings.{Tells, TellsStop};

use crate::tell::tell_put;
use sot_cli::Status;
use sot_guard::Misheard;
use sot_guard_protocol::misheard_word;
use sot_ports::Sink;
use sot_text_output::{Out, Spool};
use sot_trace::put_count;

/// Why nothing more is heard.
#[derive(Clone, Copy, Debug, PartialEq, Eq)]
pub(crate) enum Stop {
    /// A line says nothing, or may not be said now.
    Misheard(Misheard),
    /// The lines end before each plant was observed.
    Missing,
    /// The source has failed.
    Source,
    /// The sink has failed.
    Sink,
}

/// Why nothing more is heard, and the number of the line that was heard or waited for.
#[derive(Clone, Copy, Debug, PartialEq, Eq)]
pub(crate) struct Halt {
    pub line: usize,
    pub stop: Stop,
}

fn put_fault<O: Out>(out: &mut O, line: usize, word: &str)
    ensures { O.puts out.old out.new (at_line line word.now) }
{
    out.put("fault observed line ");
    put_count(out, line as u128);
    out.put_byte(b' ');
    out.put(word);
    out.put_byte(b'\n')
}

// The line of a fault is written, with status 3.
fn tell_fault<K: Sink>(waiting: &mut Vec<u8>, line: usize, word: &str, sink: &mut K) -> Status
    ensures { Tells 3 (at_line line word.now) (mouth (K.held sink.old) (K.faults sink.old))
        (mouth (K.held sink.new) (K.faults sink.new)) result.0 }
{
    waiting.clear();
    let mut spool = Spool::new(waiting, sink);
    put_fault(&mut spool, line, word);
    tell_put(&mut spool, 3)
}

/// Writes why nothing more is heard, through bytes whose room is lent. Where the sink has failed,
/// nothing more is given to it.
pub(crate) fn stopped<K: Sink>(waiting: &mut Vec<u8>, halt: Halt, sink: &mut K) -> Status
    ensures { TellsStop halt.stop halt.line (mouth (K.held sink.old) (K.faults sink.old))
        (mouth (K.held sink.new) (K.faults sink.new)) result.0 }
{
    match halt.stop {
        Stop::Misheard(why) => tell_fault(waiting, halt.line, misheard_word(why), sink),
        Stop::Missing => tell_fault(waiting, halt.line, "Missing", sink),
        Stop::Source => Status(4),
        Stop::Sink => Status(5),
    }
}
