//! The front of a line, read as far as it shows what the line can spell.

ghost use Rattle.std.specs.Prelude.{◌≡◌, ◌++◌, ℕ, ◌<◌, ℤ, pos, [], List, Bool, IfOk, IfSome};
ghost use Rattle.std.specs.Prelude.{length};
ghost use Rattle.std.specs.Option.{option_map};
ghost use Rattle.sot_trace.specs.Lines.{firing_word};
ghost use Rattle.sot_trace.specs.Words.{AreWords};
ghost use Rattle.sot_trace_lines.specs.declared.line.LineFront.TheVariants.{Whole as WholeLine};
ghost use Rattle.sot_trace_lines.specs.Shown.{AnswersFront};
ghost use Rattle.sot_trace_lines.specs.Readers.{fire_at, event_at, spelled_at};
ghost use Rattle.sot_trace_lines.specs.Kept.{bounded, ShowsFront};

use crate::line::{Line, LineFront};
use crate::name::{keeps_rules, node_named, word_at};
use crate::piece::{behind, numeral_at};
use crate::read::{read_counts, read_event};
use sot_lang::Typed;
use std::alloc::AllocError;

// The text behind the word of a firing, enabled or not.
fn behind_firing(text: &[u8]) -> Option<&[u8]>
    ensures { IfSome result (λ rest. (enabled : Bool)
        × (text.now ≡ firing_word enabled ++ rest.now)) }
{
    if let Some(rest) = behind(text, b" fire ") {
        return Some(rest);
    }
    behind(text, b" idle ")
}

// The node of a firing, behind its word. What stands behind the node's name is not looked at.
fn firing_front(p: &Typed, time: Option<i64>, text: &[u8], from: &mut usize) -> Option<LineFront>
    ensures { (t : ℕ) (enabled : Bool) (list : List ℤ) → time ≡ bounded (pos t)
        → ShowsFront p.now list result (fire_at p.now enabled t text.now) }
{
    let word = word_at(text);
    let node = node_named(p, word.name, from)?;
    Some(LineFront::Firing { time, node })
}

fn whole(line: Option<Line>) -> Option<LineFront>
    ensures { result ≡ option_map (λ l. WholeLine l) line }
{
    match line {
        Some(line) => Some(LineFront::Whole(line)),
        None => None,
    }
}

// What stands behind the time.
fn event_front(
    p: &Typed,
    time: Option<i64>,
    text: &[u8],
    from: &mut usize,
    numbers: &mut Vec<i64>,
) -> Result<Option<LineFront>, AllocError>
    requires { numbers.old.items ≡ [] }
    ensures { IfOk result (λ f. (t : ℕ) → time ≡ bounded (pos t)
        → ShowsFront p.now numbers.new.items f (event_at p.now t text.now)) }
{
    if let Some(rest) = behind_firing(text) {
        return Ok(firing_front(p, time, rest, from));
    }
    if let Some(_moves) = behind(text, b" tick") {
        return Ok(Some(LineFront::Tick { time }));
    }
    Ok(whole(read_event(p, time, text, from, numbers)?))
}

fn front(
    p: &Typed,
    line: &[u8],
    from: &mut usize,
    numbers: &mut Vec<i64>,
) -> Result<Option<LineFront>, AllocError>
    requires { numbers.old.items ≡ [] }
    ensures { IfOk result (λ f. ShowsFront p.now numbers.new.items f (spelled_at p.now line.now)) }
{
    if let Some(rest) = behind(line, b"end ") {
        return Ok(whole(read_counts(rest)));
    }
    let Some(time) = numeral_at(line) else {
        return Ok(None);
    };
    event_front(p, time.value, time.rest, from, numbers)
}

/// What is looked at first of a line, none where it is spelled as no line that stands behind the
/// start lines. Of a line that begins as a firing or a tick does, this is its time, and a firing's
/// node, whether it is spelled so to its end or not, and of any other line what [`read_line`] tells
/// of it, with the same place and list, and the same error.
///
/// [`read_line`]: crate::read_line
pub fn read_front(
    p: &Typed,
    line: &[u8],
    from: &mut usize,
    numbers: &mut Vec<i64>,
) -> Result<Option<LineFront>, AllocError>
    requires words { AreWords p.now }
    ensures { IfOk result (λ f. AnswersFront p.now line.now numbers.new.items f) }
{
    numbers.clear();
    keeps_rules(p);
    front(p, line, from, numbers)
}
