//! Drafts in the line of a firing.

ghost use Rattle.std.specs.Prelude.{◌≡◌, ℕ, ◌+◌, ◌<◌, ◌≤◌, ◌++◌, length, codes};
ghost use Rattle.sot_lists.specs.Places.{At};
ghost use Rattle.sot_trace.specs.Names.{scalar_name};
ghost use Rattle.sot_trace.specs.Numbers.{signed_numeral};
ghost use Rattle.sot_trace.specs.Drafts.{is_in_range, mark, slot_text, draft_text, slot_refused};
ghost use Rattle.sot_trace.specs.Drafts.{draft_refused};

use crate::name::put_scalar_name;
use crate::number::put_number;
use sot_lang::{Draft, Typed};
use sot_text_output::Out;

/// Whether a number is in the range of a scalar.
pub fn is_in_range(p: &Typed, scalar: usize, number: i64) -> bool
    requires { scalar < length p.now.scalars }
    ensures { result ≡ is_in_range p.now scalar number }
{
    let info = &p.scalars[scalar];
    info.lo <= number && number <= info.hi
}

// Whether a number is in its range.
fn put_mark<O: Out>(out: &mut O, in_range: bool)
    ensures { O.puts out.old out.new (mark in_range) }
{
    if in_range {
        out.put_byte(b'=')
    } else {
        out.put_byte(b'!')
    }
}

fn put_drafted<O: Out>(out: &mut O, p: &Typed, scalar: usize, number: i64, in_range: bool)
    requires { scalar < length p.now.scalars }
    ensures { O.puts out.old out.new ((codes " "
        ++ (scalar_name p.now scalar ++ (mark in_range ++ signed_numeral number)))) }
{
    out.put_byte(b' ');
    put_scalar_name(out, p, scalar);
    put_mark(out, in_range);
    put_number(out, number)
}

// One slot of a draft, and 1 for a number outside its scalar's range.
fn put_slot<O: Out>(out: &mut O, p: &Typed, scalar: usize, slot: Option<i64>) -> u8
    requires { scalar < length p.now.scalars }
    ensures text { O.puts out.old out.new (slot_text p.now scalar slot) }
    ensures refused { result ≡ slot_refused p.now scalar slot }
    ensures few { result ≤ 1 }
{
    let Some(number) = slot else {
        return 0;
    };
    let in_range = is_in_range(p, scalar, number);
    put_drafted(out, p, scalar, number, in_range);
    if in_range { 0 } else { 1 }
}

/// The numbers of a draft, each behind its scalar's name, and how many of them are outside their
/// scalars' ranges.
pub fn put_draft<O: Out>(out: &mut O, p: &Typed, writes: &[u32], draft: &Draft) -> u8
    requires few { length writes.now ≤ 8 }
    requires written { (i k : ℕ) → At writes.now i k → k < length p.now.scalars }
    ensures text { O.puts out.old out.new (draft_text p.now writes.now draft.now) }
    ensures refused { result ≡ draft_refused p.now writes.now draft.now }
    ensures few { result ≤ 8 }
{
    let mut refused = 0;
    for i in 0..writes.len() {
        refused += put_slot(out, p, writes[i] as usize, draft.get(i));
    }
    refused
}

// 1 for a number outside its scalar's range.
fn refused_in_slot(p: &Typed, scalar: usize, slot: Option<i64>) -> u8
    requires { scalar < length p.now.scalars }
    ensures refused { result ≡ slot_refused p.now scalar slot }
    ensures few { result ≤ 1 }
{
    match slot {
        None => 0,
        Some(number) => { if is_in_range(p, scalar, number) { 0 } else { 1 } }
    }
}

/// How many numbers of a draft are outside their scalars' ranges.
pub fn refused_in_draft(p: &Typed, writes: &[u32], draft: &Draft) -> u8
    requires few { length writes.now ≤ 8 }
    requires written { (i k : ℕ) → At writes.now i k → k < length p.now.scalars }
    ensures refused { result ≡ draft_refused p.now writes.now draft.now }
    ensures few { result ≤ 8 }
{
    let mut refused = 0;
    for i in 0..writes.len() {
        let scalar = writes[i];
        refused += refused_in_slot(p, scalar as usize, draft.get(i));
    }
    refused
}
