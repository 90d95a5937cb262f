//! Which topics a firing writes, and how often each was written.

ghost use Rattle.std.specs.Prelude.{◌≡◌, ℕ, ◌+◌, ◌<◌, ◌≤◌, ◌^◌, ◌&&◌, ◌==◌, not, suc, length};
ghost use Rattle.std.specs.Prelude.{slice_index_or, slice_set, if◌then◌else◌, drop};
ghost use Rattle.sot_lists.specs.Places.{At};
ghost use Rattle.sot_lang.specs.declared.tables.ScalarInfo.{ScalarInfo as Scalar};
ghost use Rattle.sot_board.specs.Versions.{is_published, publishes_on, topic_of};

use sot_lang::{Draft, Typed};

// The topic of a scalar.
fn topic_of(p: &Typed, scalar: u32) -> u32
    requires { scalar < length p.now.scalars }
    ensures { result ≡ topic_of p.now scalar }
{
    p.scalars[scalar as usize].topic
}

// Whether a number is drafted for a scalar, and in its range.
fn is_published(p: &Typed, scalar: u32, slot: Option<i64>) -> bool
    requires { scalar < length p.now.scalars }
    ensures { result ≡ is_published p.now scalar slot }
{
    let info = &p.scalars[scalar as usize];
    match slot {
        Some(z) => info.lo <= z && z <= info.hi,
        None => false,
    }
}

// Whether a number is drafted for a scalar of this topic, and in its range.
fn is_published_on(p: &Typed, topic: u32, scalar: u32, slot: Option<i64>) -> bool
    requires { scalar < length p.now.scalars }
    ensures { result ≡ (topic_of p.now scalar == topic && is_published p.now scalar slot) }
{
    topic_of(p, scalar) == topic && is_published(p, scalar, slot)
}

/// Whether some number of a draft is published on a topic, of the scalars that a node writes from
/// this place on.
pub fn publishes(p: &Typed, topic: u32, writes: &[u32], from: usize, draft: &Draft) -> bool
    requires few { length writes.now ≤ 8 }
    requires there { from ≤ length writes.now }
    requires written { (i k : ℕ) → At writes.now i k → k < length p.now.scalars }
    ensures { result ≡ publishes_on p.now topic (drop from writes.now) (drop from draft.now) }
{
    for i in from..writes.len() {
        if is_published_on(p, topic, writes[i], draft.get(i)) {
            return true;
        }
    }
    false
}

// Whether this number of a scalar is published, and none of the topic from this place on.
fn is_last(
    p: &Typed,
    topic: u32,
    scalar: u32,
    slot: Option<i64>,
    writes: &[u32],
    next: usize,
    draft: &Draft,
) -> bool
    requires scalar { scalar < length p.now.scalars }
    requires few { length writes.now ≤ 8 }
    requires there { next ≤ length writes.now }
    requires written { (i k : ℕ) → At writes.now i k → k < length p.now.scalars }
    ensures { result ≡ (is_published p.now scalar slot && not
        (publishes_on p.now topic (drop next writes.now) (drop next draft.now))) }
{
    is_published(p, scalar, slot) && !publishes(p, topic, writes, next, draft)
}

/// One more in place `k`.
pub fn count_one(k: u32, counts: &mut [u32])
    requires there { k < length counts.old }
    requires room { slice_index_or counts.old k 0 < 2 ^ 31 }
    ensures { counts.new ≡ slice_set counts.old k (suc (slice_index_or counts.old k 0)) }
{
    counts[k as usize] += 1;
}

// One more in place `k`, if so.
fn count_if(yes: bool, k: u32, counts: &mut [u32])
    requires there { k < length counts.old }
    requires room { slice_index_or counts.old k 0 < 2 ^ 31 }
    ensures { counts.new ≡ (if yes then slice_set counts.old k (suc (slice_index_or counts.old k 0))
        else counts.old) }
{
    if yes {
        count_one(k, counts);
    }
}

/// One more for each topic on which a number of a draft is published, of a node that writes these
/// scalars.
pub fn count_firing(p: &Typed, writes: &[u32], draft: &Draft, versions: &mut [u32])
    requires few { length writes.now ≤ 8 }
    requires written { (i k : ℕ) → At writes.now i k → k < length p.now.scalars }
    requires topics { (k : ℕ) (info : Scalar) → At p.now.scalars k info
        → info.topic < length versions.old }
    requires room { (k : ℕ) → slice_index_or versions.old k 0 < 2 ^ 30 }
    ensures size { length versions.new ≡ length versions.old }
    ensures counted { (k : ℕ) → k < length versions.old → slice_index_or versions.new k 0 ≡
        (if publishes_on p.now k writes.now draft.now then suc (slice_index_or versions.old k 0)
        else slice_index_or versions.old k 0) }
{
    for i in 0..writes.len() {
        let scalar = writes[i];
        let slot = draft.get(i);
        let topic = topic_of(p, scalar);
        let last = is_last(p, topic, scalar, slot, writes, i + 1, draft);
        count_if(last, topic, versions);
    }
}
