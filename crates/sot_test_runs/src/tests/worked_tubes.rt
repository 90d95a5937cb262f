//! Tubes of the vehicle on a line. All numbers were worked out by hand, and again by a program that
//! was written from the rules alone.
ghost use Rattle.std.specs.Prelude.{◌≡◌, ◌∷◌, [], IfSome, length};

use super::worlds::at;
use super::{cut, same};
use sot_box::{BoxN, Interval};
use sot_iv::iv_plant;
use sot_text::Span;
use sot_tube::{Leave, any_inside, held_inside, keeps};
use sot_worked_missions::{drifting_line, line};
use std::alloc::{AllocError, Global};
use std::process::Abort;

type Ends = (i64, i64);

// Whether a tube is inside, and how it leaves; `None` where the ends of an interval are exchanged.
type Answer = Option<Result<(), Leave>>;

fn between(ends: Ends) -> Option<BoxN>
    ensures { IfSome result (λ b. length b ≡ 1) }
{
    let side = Interval::new(ends.0, ends.1)?;
    BoxN::of(&[side])
}

// The tube of the vehicle from these places, with any commands.
fn any_tube(alloc: Global, from: Ends, ticks: u32) -> Result<Answer, AllocError> {
    let p = line(alloc)?;
    let Some(area) = between(from) else {
        return Ok(None);
    };
    Ok(Some(any_inside(&p, 0, &area, ticks)))
}

// The tube with commands in an interval.
fn held_tube(alloc: Global, from: Ends, cmd: Ends, ticks: u32) -> Result<Answer, AllocError> {
    let p = line(alloc)?;
    let Some(area) = between(from) else {
        return Ok(None);
    };
    let Some(side) = Interval::new(cmd.0, cmd.1) else {
        return Ok(None);
    };
    Ok(Some(held_inside(&p, 0, &area, &[side], ticks)))
}

// The vehicle's box after a tick from these places with commands in an interval.
fn ticked(alloc: Global, from: Ends, cmd: Ends) -> Result<Option<BoxN>, AllocError> {
    let p = line(alloc)?;
    let Some(area) = between(from) else {
        return Ok(None);
    };
    let Some(side) = Interval::new(cmd.0, cmd.1) else {
        return Ok(None);
    };
    Ok(iv_plant(&p, 0, &area, &[side], &[]).ok())
}

// The first of these of the vehicle that drifts.
fn drifting_tube(alloc: Global, from: Ends, ticks: u32) -> Result<Answer, AllocError> {
    let p = drifting_line(alloc)?;
    let Some(area) = between(from) else {
        return Ok(None);
    };
    Ok(Some(any_inside(&p, 0, &area, ticks)))
}

fn line_keeps(alloc: Global, x: i64) -> Result<bool, AllocError> {
    let p = line(alloc)?;
    Ok(keeps(&p, 0, &at(x), 0))
}

fn drifting_line_keeps(alloc: Global, x: i64) -> Result<bool, AllocError> {
    let p = drifting_line(alloc)?;
    Ok(keeps(&p, 0, &at(x), 0))
}

// The least place of the box is outside.
fn out(tick: u32, ends: Ends) -> Option<Leave> {
    Some(Leave::Out {
        tick,
        area: between(ends)?,
        point: at(ends.0),
    })
}

fn answer(leave: Option<Leave>) -> Answer {
    match leave {
        Some(leave) => Some(Err(leave)),
        None => None,
    }
}

const INSIDE: Answer = Some(Ok(()));

// Tubes with any commands: the places, how many ticks, and where the tube leaves.
const ANY: &str = "-10..10 for 8: inside
-10..10 for 10: inside
-10..10 for 11: 11 at -43..43
-16..16 for 8: inside
-16..16 for 9: 9 at -43..43
-17..17 for 7: inside
-17..17 for 8: 8 at -41..41
-40..40 for 0: inside
-41..40 for 0: 0 at -41..40";

// Tubes with held commands: the places with the commands, how many ticks, and where the tube
// leaves.
const HELD: &str = "-40..40 by -2..2 for 0: inside
-40..40 by -2..2 for 2: 1 at -43..43
-40..-11 by 2..2 for 2: inside
-39..39 by 0..0 for 1: inside
-39..39 by 0..0 for 2: 2 at -41..41";

// Ticks: the places with the commands, and the places afterwards.
const TICKS: &str = "-40..40 by -2..2: -43..43
-39..39 by 0..0: -40..40
-40..-11 by 2..2: -39..-8";

fn number(rt: &impl Abort, text: &str) -> i64 {
    text.parse().ok().expect(rt, "a number")
}

fn ticks_of(rt: &impl Abort, text: &str) -> u32 {
    text.parse().ok().expect(rt, "a count of ticks")
}

fn ends(rt: &impl Abort, text: &str) -> Ends {
    let (low, high) = cut(rt, text, "..");
    (number(rt, low), number(rt, high))
}

// What a row says that the answer is.
fn wanted(rt: &impl Abort, text: &str) -> Answer {
    if text == "inside" {
        return INSIDE;
    }
    let (tick, area) = cut(rt, text, " at ");
    answer(out(ticks_of(rt, tick), ends(rt, area)))
}

fn any_row(rt: &impl Abort, alloc: Global, row: &str) {
    let (asked, answer) = cut(rt, row, ": ");
    let (from, ticks) = cut(rt, asked, " for ");
    let tube = any_tube(alloc, ends(rt, from), ticks_of(rt, ticks)).expect(rt, "memory");
    same(rt, row, tube, wanted(rt, answer));
}

fn held_row(rt: &impl Abort, alloc: Global, row: &str) {
    let (asked, answer) = cut(rt, row, ": ");
    let (places, ticks) = cut(rt, asked, " for ");
    let (from, cmd) = cut(rt, places, " by ");
    let (from, cmd) = (ends(rt, from), ends(rt, cmd));
    let tube = held_tube(alloc, from, cmd, ticks_of(rt, ticks)).expect(rt, "memory");
    same(rt, row, tube, wanted(rt, answer));
}

fn tick_row(rt: &impl Abort, alloc: Global, row: &str) {
    let (asked, answer) = cut(rt, row, ": ");
    let (from, cmd) = cut(rt, asked, " by ");
    let next = ticked(alloc, ends(rt, from), ends(rt, cmd)).expect(rt, "memory");
    same(rt, row, next, between(ends(rt, answer)));
}

#[test]
fn a_tick_widens_by_the_commands_and_the_disturbance(rt: HostRuntime) {
    for row in TICKS.lines() {
        tick_row(&rt, rt.alloc(), row);
    }
    same(&rt, "rows", TICKS.lines().count(), 3);
}

#[test]
fn tubes_with_any_command_grow_by_three(rt: HostRuntime) {
    for row in ANY.lines() {
        any_row(&rt, rt.alloc(), row);
    }
    same(&rt, "rows", ANY.lines().count(), 9);
}

#[test]
fn tubes_with_held_commands_leave_or_stay(rt: HostRuntime) {
    for row in HELD.lines() {
        held_row(&rt, rt.alloc(), row);
    }
    same(&rt, "rows", HELD.lines().count(), 5);
}

// The tick traps where the vehicle is at 5.
fn trap(tick: u32) -> Answer {
    let at = Span {
        line: 6,
        column: 27,
    };
    answer(Some(Leave::Trap { tick, at }))
}

// The greatest place is outside from the first.
fn outside(ends: Ends) -> Option<Leave> {
    Some(Leave::Out {
        tick: 0,
        area: between(ends)?,
        point: at(ends.1),
    })
}

fn drifts(rt: &impl Abort, alloc: Global, from: Ends, ticks: u32, wanted: Answer) {
    let tube = drifting_tube(alloc, from, ticks).expect(rt, "memory");
    same(rt, (from, ticks), tube, wanted);
}

#[test]
fn a_tick_that_may_trap_ends_the_tube(rt: HostRuntime) {
    let alloc = rt.alloc();
    drifts(&rt, alloc, (0, 0), 3, INSIDE);
    drifts(&rt, alloc, (0, 0), 8, trap(3));
    drifts(&rt, alloc, (5, 5), 1, trap(0));
    drifts(&rt, alloc, (5, 41), 1, answer(outside((5, 41))));
}

fn keeps_at(rt: &impl Abort, alloc: Global, x: i64, wanted: bool) {
    same(rt, x, line_keeps(alloc, x).expect(rt, "memory"), wanted);
}

fn drifting_keeps_at(rt: &impl Abort, alloc: Global, x: i64, wanted: bool) {
    let found = drifting_line_keeps(alloc, x).expect(rt, "memory");
    same(rt, x, found, wanted);
}

#[test]
fn a_module_keeps_where_two_periods_stay_inside(rt: HostRuntime) {
    let alloc = rt.alloc();
    keeps_at(&rt, alloc, 10, true);
    keeps_at(&rt, alloc, 16, true);
    keeps_at(&rt, alloc, 17, false);
    keeps_at(&rt, alloc, -16, true);
    keeps_at(&rt, alloc, -17, false);
}

#[test]
fn a_module_that_drifts_keeps_elsewhere(rt: HostRuntime) {
    let alloc = rt.alloc();
    drifting_keeps_at(&rt, alloc, 0, false);
    drifting_keeps_at(&rt, alloc, -10, true);
    drifting_keeps_at(&rt, alloc, -16, true);
    drifting_keeps_at(&rt, alloc, -17, false);
}
