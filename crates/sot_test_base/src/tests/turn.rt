//! Tests of the lock with threads.

ghost use Rattle.std.specs.Prelude.{◌≡◌};
ghost use Rattle.sot_turn.specs.Passes.{lock_of, pass_lock, pass_ground};

use super::same;
use super::tally::Tally;
use crossbeam_queue::ArrayQueue;
use sot_turn::{Pass, Turn};
use std::alloc::{AllocError, Global};
use std::process::Abort;
use std::sync::Wait;
use std::test::Fail;
use std::thread::join;

/// Adds a number in a turn of its own, and says whether there was room.
fn add<R: Wait>(
    rt: &R,
    turn: &Turn<Tally>,
    pass: Pass<Tally>,
    number: u64,
) -> (Pass<Tally>, Result<(), AllocError>)
    requires { pass_lock pass ≡ lock_of turn.now }
    ensures lock { pass_lock result.0 ≡ pass_lock pass }
    ensures ground { pass_ground result.0 ≡ pass_ground pass }
{
    let mut held = turn.take(rt, pass);
    let added = held.lend().add(number);
    (turn.give(held), added)
}

#[test]
fn two_passes_take_turns(rt: HostRuntime) -> Result<(), Fail> {
    let (turn, pass) = Turn::new(rt.alloc(), Tally::with_room(rt.alloc(), 7, 2)?)?;
    let (a, b) = turn.split(pass);
    let (a, added) = add(&rt, &turn, a, 1);
    added?;
    let mut held = turn.take(&rt, b);
    let tally = held.lend();
    same(&rt, "first", tally.numbers.as_slice(), [1].as_slice());
    let added = tally.add(2);
    let b = turn.give(held);
    added?;
    let both = turn.join(a, b);
    let tally = turn.close(&rt, both);
    same(&rt, "base", tally.base, 7);
    same(&rt, "both", tally.numbers.as_slice(), [1, 2].as_slice());
    Ok(())
}

/// Adds the numbers below `count`, each in a turn of its own, and tells the list's length at each.
fn add_many<R: Wait>(
    rt: &R,
    turn: &Turn<Tally>,
    pass: Pass<Tally>,
    lengths: &ArrayQueue<u64>,
    count: u64,
) -> Pass<Tally>
    requires { pass_lock pass ≡ lock_of turn.now }
    ensures { pass_lock result ≡ pass_lock pass }
{
    let mut pass = pass;
    for number in 0..count {
        let mut held = turn.take(rt, pass);
        let tally = held.lend();
        let _ = tally.add(number);
        let _ = lengths.push(rt, tally.numbers.len() as u64);
        pass = turn.give(held);
    }
    pass
}

/// How many of the lengths from 1 to 2,000 were told, where each may be told once.
fn told_once(
    rt: &(impl Abort + Wait),
    alloc: Global,
    lengths: &ArrayQueue<u64>,
) -> Result<usize, AllocError> {
    let mut told = Vec::from_elem(alloc, false, 2001)?;
    let mut count = 0usize;
    for _ in 0..2000 {
        if let Some(length) = lengths.pop(rt) {
            let place = length as usize;
            let is_new = length >= 1 && place < told.len() && !told[place];
            same(rt, length, is_new, true);
            if place < told.len() {
                told[place] = true;
            }
            count = count.saturating_add(1);
        }
    }
    Ok(count)
}

#[test]
fn two_threads_add_each_number_once(rt: HostRuntime) -> Result<(), Fail> {
    let lengths = ArrayQueue::new(rt.alloc(), 2000)?;
    let (turn, pass) = Turn::new(rt.alloc(), Tally::with_room(rt.alloc(), 0, 2000)?)?;
    let lock = &turn;
    let (a, b) = lock.split(pass);
    let (a, b) = join(
        &rt,
        || -> Pass<Tally>
            requires { pass_lock a ≡ lock_of lock.now }
            ensures { pass_lock result ≡ lock_of lock.entry.now }
        { add_many(&rt, lock, a, &lengths, 1000) },
        || -> Pass<Tally>
            requires { pass_lock b ≡ lock_of lock.now }
            ensures { pass_lock result ≡ lock_of lock.entry.now }
        { add_many(&rt, lock, b, &lengths, 1000) },
    );
    let both = turn.join(a, b);
    let tally = turn.close(&rt, both);
    same(&rt, "numbers", tally.numbers.len(), 2000);

    let told = told_once(&rt, rt.alloc(), &lengths)?;
    same(&rt, "lengths that were told", told, 2000);
    Ok(())
}
