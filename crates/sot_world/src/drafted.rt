//! Drafts as a history keeps them: their numbers in a list, and which slots these are of.

ghost use Rattle.std.specs.Prelude.{◌≡◌, ◌+◌, ◌*◌, ◌≤◌, ◌<◌, ◌++◌, ◌∷◌, ℤ, List, Some, None};
ghost use Rattle.std.specs.Prelude.{IfSome, if◌then◌else◌, length, drop, replicate, is_some};
ghost use Rattle.std.specs.Prelude.{slice_index_or, option_to_list, vec_len, vec_capacity};
ghost use Rattle.sot_world.specs.HistoryRecords.{slots_filled, count_there, flags_in};

use sot_lang::Draft;

// Appends a slot's number, if there is one, and tells whether there is.
fn append_slot(numbers: &mut Vec<i64>, slot: Option<i64>) -> bool
    requires { vec_len numbers.old < vec_capacity numbers.old }
    ensures there { result ≡ is_some slot }
    ensures items { numbers.new.items ≡ numbers.old.items ++ option_to_list slot }
    ensures len { vec_len numbers.new ≤ vec_len numbers.old + 1 }
    ensures capacity { vec_capacity numbers.old ≤ vec_capacity numbers.new }
{
    match slot {
        Some(number) => {
            let _ = numbers.push(number);
            true
        }
        None => false,
    }
}

// Appends the numbers of a draft, for which there is room, and tells which slots they are of.
fn append_slots(numbers: &mut Vec<i64>, draft: &Draft) -> [bool; 8]
    requires { vec_len numbers.old + 8 ≤ vec_capacity numbers.old }
    ensures kept { (more : List ℤ) × (numbers.new.items ≡ numbers.old.items ++ more)
        × (count_there result ≡ length more) × (slots_filled result more ≡ draft.now) }
    ensures len { vec_len numbers.new ≤ vec_len numbers.old + 8 }
    ensures capacity { vec_capacity numbers.old ≤ vec_capacity numbers.new }
{
    draft.has_eight_slots();
    let mut there = [false; 8];
    for i in 0..8 {
        there[i] = append_slot(numbers, draft.get(i));
    }
    there
}

// These bits behind a flag, which is the lowest bit.
fn behind(flag: bool, bits: u8) -> u8
    requires { bits < 128 }
    ensures { result ≡ (if flag then 2 * bits + 1 else 2 * bits) }
{
    if flag { 2 * bits + 1 } else { 2 * bits }
}

// Eight flags in the bits of a byte, the first one in the lowest.
fn bits_of(there: &[bool; 8]) -> u8
    ensures { flags_in 8 result ≡ there.now }
{
    let mut bits = 0;
    for i in 0..8 {
        bits = behind(there[7 - i], bits);
    }
    bits
}

/// Appends the numbers of a draft, for which there is room, and tells by a bit of each slot which
/// ones they are of.
pub(crate) fn append_draft(numbers: &mut Vec<i64>, draft: &Draft) -> u8
    requires { vec_len numbers.old + 8 ≤ vec_capacity numbers.old }
    ensures kept { (more : List ℤ) × (numbers.new.items ≡ numbers.old.items ++ more)
        × (count_there (flags_in 8 result) ≡ length more)
        × (slots_filled (flags_in 8 result) more ≡ draft.now) }
    ensures len { vec_len numbers.new ≤ vec_len numbers.old + 8 }
    ensures capacity { vec_capacity numbers.old ≤ vec_capacity numbers.new }
{
    bits_of(&append_slots(numbers, draft))
}

/// The draft of these slots, whose numbers stand in a list from a place on.
pub(crate) fn draft_at(numbers: &[i64], from: usize, there: u8) -> Draft
    requires { from + count_there (flags_in 8 there) ≤ length numbers.now }
    ensures { result ≡ slots_filled (flags_in 8 there) (drop from numbers.now) }
{
    let mut draft = Draft::blank();
    let mut at = from;
    let mut left = there;
    for i in 0..8 {
        if left % 2 == 1 {
            draft.set(i, numbers[at]);
            at += 1;
        }
        left /= 2;
    }
    draft
}

// Whether a slot has a number.
fn is_there(draft: &Draft, i: usize) -> bool
    requires { i < 8 }
    ensures { result ≡ is_some (slice_index_or draft.now i None) }
{
    draft.get(i).is_some()
}

// The number of the first slot, if the others have none.
fn first_alone(draft: &Draft) -> Option<i64>
    ensures { IfSome result (λ n. draft.now ≡ Some n ∷ replicate 7 None) }
{
    draft.has_eight_slots();
    let others = is_there(draft, 1)
        | is_there(draft, 2)
        | is_there(draft, 3)
        | is_there(draft, 4)
        | is_there(draft, 5)
        | is_there(draft, 6)
        | is_there(draft, 7);
    if others { None } else { draft.get(0) }
}

/// The number of the first slot, if it fits in 32 bits and the other slots have none.
pub(crate) fn short_alone(draft: &Draft) -> Option<i32>
    ensures { IfSome result (λ n. draft.now ≡ Some n ∷ replicate 7 None) }
{
    match i32::try_from(first_alone(draft)?) {
        Ok(number) => Some(number),
        Err(_) => None,
    }
}

/// The draft of a number in the first slot.
pub(crate) fn draft_of(number: i64) -> Draft
    ensures { result ≡ Some number ∷ replicate 7 None }
{
    let mut draft = Draft::blank();
    draft.set(0, number);
    draft
}
