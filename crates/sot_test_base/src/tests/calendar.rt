//! Tests of due times against plain walks.

ghost use Rattle.std.specs.Prelude.{◌<◌};

use super::same;
use sot_calendar::{due, firings, next_due};

/// Walks from the offset by whole periods until `t` is reached.
fn plain_next(period: u32, offset: u32, t: u32) -> u32
    requires period { period < 100 }
    requires time { t < 1000 }
{
    let mut at = offset;
    for _ in 0..t {
        if at < t {
            at += period;
        }
    }
    at
}

// By how many of the first thirty times the three calls answer otherwise than a walk.
fn differing(period: u32, offset: u32) -> u32
    requires offset { offset < period }
    requires period { period < 100 }
{
    let mut count = 0u32;
    let mut differing = 0u32;
    for t in 0..30 {
        let next = plain_next(period, offset, t);
        if next == t {
            count = count.saturating_add(1);
        }
        let is_same = due(period, offset, t) == (next == t)
            && next_due(period, offset, t) == next
            && firings(period, offset, t) == count;
        if !is_same {
            differing = differing.saturating_add(1);
        }
    }
    differing
}

#[test]
fn due_times_are_those_of_a_walk_and_of_the_worked_rows(rt: HostRuntime) {
    same(&rt, "firings", firings(4, 3, 1000), 250);
    same(&rt, "firings", firings(1, 0, 100000), 100001);
    same(&rt, "next", next_due(4, 3, 4), 7);
    same(&rt, "next", next_due(1000, 999, 100000), 100999);
    same(&rt, "due", due(1000, 999, 99999), true);
    for period in 1..7 {
        for offset in 0..period {
            same(&rt, (period, offset), differing(period, offset), 0);
        }
    }
}
