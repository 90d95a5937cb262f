//! Long flights against a guest that drafts two numbers by turns.
use super::*;

// The states that a trace has behind its ticks: how many, whether all are from -40 to 40, and their
// sum.
#[derive(Debug, Drop, PartialEq, Eq)]
struct Printed {
    count: u32,
    safe: bool,
    sum: i64,
}

fn states(trace: &str) -> Printed {
    let mut found = Printed {
        count: 0,
        safe: true,
        sum: 0,
    };
    for line in trace.lines() {
        if let Some((_, state)) = line.split_once(")=") {
            let state = state.parse::<i64>().unwrap_or(i64::MAX);
            found = Printed {
                count: found.count.wrapping_add(1),
                safe: found.safe && -40 <= state && state <= 40,
                sum: found.sum.wrapping_add(state),
            };
        }
    }
    found
}

// The last line of a trace with so many refused drafts.
fn end_of(rt: &impl Abort, alloc: Global, refused: u32) -> String {
    format!(in alloc; "\nend 1000 events 1751 refused {refused}\n").expect(rt, "memory")
}

fn with_trace(rt: &impl Abort, alloc: Global, mission: &str, trace: &str) -> String {
    format!(in alloc; "{mission}%trace\n{trace}").expect(rt, "memory")
}

// A flight of a thousand ticks whose guest drafts these two by turns: so many drafts are refused,
// the states have this sum, and what is written is legal.
fn stays_inside<R: Abort + Threads + Wait + Sync>(
    rt: &R,
    alloc: Global,
    numbers: (i64, i64),
    start: i64,
    sway: &str,
    sum: i64,
    refused: u32,
) {
    let mission = mission(rt, alloc, start, 1_000, sway);
    let mut guests = keeper(rt, alloc, Some(numbers.0), Some(numbers.1));
    let trace = answered(rt, alloc, "fly", mission.as_str(), &mut guests);
    let wanted = Printed {
        count: 1_000,
        safe: true,
        sum,
    };
    same(rt, numbers, states(trace.as_str()), wanted);
    let end = end_of(rt, alloc, refused);
    let ends = trace.as_str().ends_with(end.as_str());
    same(rt, end.as_str(), ends, true);

    let flown = with_trace(rt, alloc, mission.as_str(), trace.as_str());
    let text = answered(rt, alloc, "replay", flown.as_str(), &mut guests);
    same(rt, numbers, text.as_str(), "legal events 1751\n");
    same(rt, numbers, guests[0].kept.len(), 250);
}

#[test]
fn a_thousand_ticks_stay_inside(rt: HostRuntime) {
    for (number, other, start, sway, sum, refused) in [
        (-2, 2, 10, HIGH, 13_974, 0),
        (-2, 2, 0, SEED, -2_453, 0),
        (-3, 3, 0, HIGH, 5_240, 250),
        (-3, 3, 10, SEED, -2_575, 250),
    ] {
        stays_inside(&rt, rt.alloc(), (number, other), start, sway, sum, refused);
    }
}
