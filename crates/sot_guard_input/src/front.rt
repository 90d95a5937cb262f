//! A text up to the line behind which a robot speaks.

ghost use Rattle.std.specs.Prelude.{◌≡◌, ◌≤◌, ℕ, List, false, [], length, take};
ghost use Rattle.std.specs.Prelude.{IfOk, IfErr, IsErrOf};
ghost use Rattle.sot_ports.specs.Faults.{Rose};
ghost use Rattle.sot_guard_input.specs.Reading.{Reads, IfFails};
ghost use Rattle.sot_guard_input.specs.Fronts.{Comes, IsTooLong, IsLastFront};

use crate::ear::Ear;
use crate::piece::{FrontFail, Piece, next_piece};
use crate::title::marked_time;
use sot_ports::Source;
use std::alloc::Global;

/// What came of a text.
#[derive(Drop)]
pub enum MissionFront {
    /// The text before its first line `%observed`, and the time at which a robot speaks behind that
    /// line, which was passed too.
    Observed { front: Vec<u8>, time: u64 },
    /// The whole text, which has no such line.
    Unobserved(Vec<u8>),
}

// The first bytes of a text, so many.
fn cut(mut text: Vec<u8>, start: usize) -> Vec<u8>
    requires { start ≤ length text.items }
    ensures { result.items ≡ take start text.items }
{
    text.truncate(start);
    text
}

// A text whose last line begins at this place.
fn last_front(text: Vec<u8>, start: usize) -> MissionFront
    requires { start ≤ length text.items }
    ensures { IsLastFront text.items start result }
{
    match marked_time(&text[start..]) {
        Some(time) => MissionFront::Observed {
            front: cut(text, start),
            time,
        },
        None => MissionFront::Unobserved(text),
    }
}

/// Reads a text line by line, up to its first line `%observed` or its end, where nothing waits yet.
/// With that line it has at most `limit` bytes. Where it has more, no more is read than it takes to
/// know.
pub fn read_front<S: Source>(
    alloc: Global,
    ear: &mut Ear,
    source: &mut S,
    limit: usize,
) -> Result<MissionFront, FrontFail>
    requires open { ear.old.ended ≡ false }
    requires nothing { ear.old.buffer ≡ [] }
    ensures front { IfOk result (λ f. Comes (S.left source.old) (S.left source.new) ear.new limit
        f) }
    ensures fails { IfErr result (λ why. (passed : List ℕ)
        × Reads (S.left source.old) (S.left source.new) [] ear.new.buffer passed × IfFails why
        (Rose (S.faults source.old) (S.faults source.new))
        (IsTooLong passed ear.new.buffer limit)) }
    ensures well { ¬ (IsErrOf result FrontFail.Fault) → S.faults source.new ≡ S.faults source.old }
{
    let mut text = Vec::new(alloc);
    let mut start = 0;
    'pieces: while text.len() <= limit {
        let piece = match next_piece(&mut text, ear, source, limit) {
            Ok(piece) => piece,
            Err(why) => return Err(why),
        };
        match piece {
            Piece::Part => continue 'pieces,
            Piece::Last => return Ok(last_front(text, start)),
            Piece::Line => {}
        }
        if let Some(time) = marked_time(&text[start..]) {
            let front = cut(text, start);
            return Ok(MissionFront::Observed { front, time });
        }
        start = text.len();
    }
    Err(FrontFail::TooLong)
}
