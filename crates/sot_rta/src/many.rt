//! The first refusal among the answers for many numbers, which several threads look for.

ghost use Rattle.std.specs.Prelude.{◌≡◌, ◌<◌, ◌+◌, ◌*◌, ℕ, min};
ghost use Rattle.std.specs.Result.{is_err};
ghost use Rattle.sot_rta.specs.Many.{AnswersAll};

use crate::refusal::Refusal;
use rayon::prelude::*;
use std::thread::Threads;

// Where all calls together cost less than this, the calling thread makes them: threads would take
// processor time to start.
const LITTLE: u64 = 16384;

// Many numbers are gone through in so many chunks: each thread beyond these costs more than it
// brings.
const CHUNKS: u32 = 4;

// Goes through the numbers from `from` up to `to` in order, and stops at the first that is refused.
fn in_order<F: Fn(u32) -> Result<(), Refusal>>(from: u32, to: u32, check: &F) -> Result<(), Refusal>
    requires each { (i : ℕ) → i < to → F.pre check.now i }
    ensures { AnswersAll (F.post check.now) from to result }
{
    for i in from..to {
        if let Err(refusal) = check(i) {
            return Err(refusal);
        }
    }
    Ok(())
}

// Goes through the numbers of chunk k.
fn in_chunk<F: Fn(u32) -> Result<(), Refusal>>(
    k: u32,
    size: u32,
    count: u32,
    check: &F,
) -> Result<(), Refusal>
    requires begins { k * size < count }
    requires each { (i : ℕ) → i < count → F.pre check.now i }
    ensures { AnswersAll (F.post check.now) (min (k * size) count) (min ((k + 1) * size) count)
        result }
{
    let from = k * size;
    in_order(from, from + size.min(count - from), check)
}

// Goes through chunks of this size side by side: the first chunk that has a refusal has the first
// one of all. Nothing is kept but one answer a thread, so no memory is taken.
fn in_chunks<R: Threads + Sync, F: Fn(u32) -> Result<(), Refusal> + Sync>(
    rt: &R,
    size: u32,
    count: u32,
    check: &F,
) -> Result<(), Refusal>
    requires size { 0 < size }
    requires each { (i : ℕ) → i < count → F.pre check.now i }
    ensures { AnswersAll (F.post check.now) 0 count result }
{
    (0..count.div_ceil(size))
        .into_par_iter()
        .with_min_len(1)
        .map(
            move |k: u32| -> Result<(), Refusal>
                requires { (k * size < count) × ((i : ℕ) → i < count → F.pre check.now i) }
                ensures { AnswersAll (F.post check.entry.now) (min (k * size) count)
                    (min ((k + 1) * size) count) result }
            { in_chunk(k, size, count, check) },
        )
        .find_first(
            rt,
            |answer: &Result<(), Refusal>| -> bool
                ensures { result ≡ is_err answer.now }
            { answer.is_err() },
        )
        .unwrap_or(Ok(()))
}

/// Calls `check` for the numbers below `count`, and answers the refusal of the first number that
/// has one. `cost` says what a call costs, in steps of one state variable of a tube. Calls that
/// cost little together are made one after another, and others in chunks, side by side, in threads
/// of `rt`. Takes no memory.
pub fn first_refused<R: Threads + Sync, F: Fn(u32) -> Result<(), Refusal> + Sync>(
    rt: &R,
    count: u32,
    cost: u64,
    check: &F,
) -> Result<(), Refusal>
    requires each { (i : ℕ) → i < count → F.pre check.now i }
    ensures { AnswersAll (F.post check.now) 0 count result }
{
    if u64::from(count).saturating_mul(cost) < LITTLE {
        in_order(0, count, check)
    } else {
        in_chunks(rt, count.div_ceil(CHUNKS), count, check)
    }
}
