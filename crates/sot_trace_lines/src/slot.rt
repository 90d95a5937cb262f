//! The slots in the line of a firing.

ghost use Rattle.std.specs.Prelude.{◌≡◌, ℕ, ◌<◌, ◌≤◌, true, None, length, replicate};
ghost use Rattle.std.specs.Option.{option_map};
ghost use Rattle.sot_lists.specs.Places.{At};
ghost use Rattle.sot_trace.specs.Names.{field_part, scalar_name};
ghost use Rattle.sot_trace_lines.specs.Pieces.{behind};
ghost use Rattle.sot_trace_lines.specs.Readers.{mark_at, slot_front, slot_number, slots_at};
ghost use Rattle.sot_trace_lines.specs.Kept.{behind_mark, draft_one, kept_slot, kept_slots};

use crate::piece::{behind, number_at};
use sot_lang::{Draft, Typed};
use sot_syntax_tree::Name;

/// A draft of the numbers of 64 bits, whether all of them are, and the text behind them.
#[derive(Clone, Copy)]
pub struct Slots<'a> {
    pub draft: Draft,
    pub whole: bool,
    pub rest: &'a [u8],
}

// The text behind a slot, and whether each number so far has 64 bits.
#[derive(Clone, Copy)]
struct Slot<'a> {
    whole: bool,
    rest: &'a [u8],
}

#[tactic(auto, using(crate::proofs::KeptSlots::behind_both))]
fn behind_field<'a>(field: &Option<Name>, text: &'a [u8]) -> Option<&'a [u8]>
    ensures { option_map (λ rest. rest.now) result ≡ behind (field_part field.now) text.now }
{
    match field {
        None => Some(text),
        Some(name) => behind(behind(text, b".")?, name.as_bytes()),
    }
}

/// The text behind a scalar's name.
#[tactic(auto, using(crate::proofs::KeptSlots::behind_both))]
pub fn behind_scalar<'a>(p: &Typed, scalar: usize, text: &'a [u8]) -> Option<&'a [u8]>
    requires { scalar < length p.now.scalars }
    ensures { option_map (λ rest. rest.now) result ≡ behind (scalar_name p.now scalar) text.now }
{
    let info = &p.scalars[scalar];
    let field = behind(text, p.topics[info.topic as usize].name.as_bytes())?;
    behind_field(&info.field, field)
}

fn behind_mark(text: &[u8]) -> Option<&[u8]>
    ensures { option_map (λ rest. rest.now) result ≡ behind_mark (mark_at text.now) }
{
    match text {
        [b'=', rest @ ..] => Some(rest),
        [b'!', rest @ ..] => Some(rest),
        _ => None,
    }
}

// The text behind a blank, the scalar's name and its mark.
fn behind_front<'a>(p: &Typed, scalar: usize, text: &'a [u8]) -> Option<&'a [u8]>
    requires { scalar < length p.now.scalars }
    ensures { option_map (λ rest. rest.now) result
        ≡ behind_mark (slot_front p.now scalar text.now) }
{
    let text = behind(text, b" ")?;
    let text = behind_scalar(p, scalar, text)?;
    behind_mark(text)
}

// Drafts a number of 64 bits, and tells whether each so far has as many.
fn put(draft: &mut Draft, i: usize, value: Option<i64>, whole: bool) -> bool
    requires { i < 8 }
    ensures { (draft.new, result) ≡ draft_one i (draft.old, whole) value }
{
    match value {
        Some(number) => {
            draft.set(i, number);
            whole
        }
        None => false,
    }
}

// The slot of a scalar, which may be left out.
fn slot_at<'a>(
    p: &Typed,
    scalar: usize,
    i: usize,
    text: &'a [u8],
    whole: bool,
    draft: &mut Draft,
) -> Option<Slot<'a>>
    requires there { scalar < length p.now.scalars }
    requires few { i < 8 }
    ensures { option_map (λ s. ((draft.new, s.whole), s.rest.now)) result
        ≡ kept_slot i (draft.old, whole) (slot_number text.now (slot_front p.now scalar text.now)) }
{
    let Some(front) = behind_front(p, scalar, text) else {
        return Some(Slot { whole, rest: text });
    };
    let number = number_at(front)?;
    let whole = put(draft, i, number.value, whole);
    Some(Slot {
        whole,
        rest: number.rest,
    })
}

/// The slots of these scalars in order, each of which may be left out.
pub fn slots_at<'a>(p: &Typed, writes: &[u32], text: &'a [u8]) -> Option<Slots<'a>>
    requires few { length writes.now ≤ 8 }
    requires written { (i k : ℕ) → At writes.now i k → k < length p.now.scalars }
    ensures { option_map (λ s. ((s.draft, s.whole), s.rest.now)) result
        ≡ kept_slots 0 (replicate 8 None, true) (slots_at p.now writes.now text.now) }
{
    let (_, mut rest) = text.split_at(0);
    let mut draft = Draft::blank();
    let mut whole = true;
    for i in 0..writes.len() {
        let slot = slot_at(p, writes[i] as usize, i, rest, whole, &mut draft)?;
        whole = slot.whole;
        rest = slot.rest;
    }
    Some(Slots { draft, whole, rest })
}
