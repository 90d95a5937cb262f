//! What a history hands out.

ghost use Rattle.std.specs.Prelude.{◌<◌, length};

use super::same;
use sot_lang::Draft;
use sot_world::{Entry, History, Mode};
use std::alloc::Global;
use std::process::Abort;

fn ends_with_a_tick(rt: &impl Abort, history: &History)
    requires { 3 < length history.now.entries }
{
    if let Entry::Tick {
        time,
        noise,
        states,
    } = history.entry(3)
    {
        same(rt, "time", time, 0);
        same(rt, "noise", noise == [1, -1].as_slice(), true);
        same(rt, "states", states == [3, 4, 5].as_slice(), true);
    } else {
        panic!(rt; "the last entry is a tick");
    }
}

fn begins_with_an_input(rt: &impl Abort, history: &History)
    requires { 0 < length history.now.entries }
{
    if let Entry::Input {
        time: _,
        topic,
        value,
    } = history.entry(0)
    {
        same(rt, "topic", topic, 3);
        same(rt, "value", value == [5, 6].as_slice(), true);
    } else {
        panic!(rt; "the first entry is an input");
    }
}

#[test]
fn a_history_hands_out_what_was_pushed(rt: HostRuntime) {
    let mut draft = Draft::blank();
    draft.set(0, 2);
    let mut history = History::none(rt.alloc(), 4, 7).expect(&rt, "room for four entries");
    history.push(&Entry::Input {
        time: 0,
        topic: 3,
        value: &[5, 6],
    });
    history.push(&Entry::Decide {
        time: 0,
        module: 1,
        mode: Mode::Ac,
    });
    history.push(&Entry::Fire {
        time: 0,
        node: 2,
        draft,
        enabled: false,
    });
    history.push(&Entry::Tick {
        time: 0,
        noise: &[1, -1],
        states: &[3, 4, 5],
    });
    same(&rt, "entries", history.len(), 4);
    ends_with_a_tick(&rt, &history);
    begins_with_an_input(&rt, &history);
}

#[derive(Clone, Copy)]
struct Firing {
    time: u32,
    node: u32,
    draft: Draft,
    enabled: bool,
}

// The first entry is this firing.
fn begins_with_a_firing(rt: &impl Abort, history: &History, firing: Firing)
    requires { 0 < length history.now.entries }
{
    match history.entry(0) {
        Entry::Fire {
            time,
            node,
            draft,
            enabled,
        } => {
            same(rt, "time", time, firing.time);
            same(rt, "node", node, firing.node);
            same(rt, "draft", draft, firing.draft);
            same(rt, "enabled", enabled, firing.enabled);
        }
        _ => panic!(rt; "a firing is none"),
    }
}

// A firing is read back as it was pushed, by both calls that push one.
fn keeps(rt: &impl Abort, alloc: Global, firing: Firing) {
    let mut history = History::none(alloc, 1, 0).expect(rt, "room for an entry");
    history.push(&Entry::Fire {
        time: firing.time,
        node: firing.node,
        draft: firing.draft,
        enabled: firing.enabled,
    });
    begins_with_a_firing(rt, &history, firing);
    let mut other = History::none(alloc, 1, 0).expect(rt, "room for an entry");
    other.push_firing(firing.time, firing.node, &firing.draft, firing.enabled);
    begins_with_a_firing(rt, &other, firing);
}

fn keeps_draft(rt: &impl Abort, alloc: Global, draft: Draft, enabled: bool) {
    keeps(
        rt,
        alloc,
        Firing {
            time: 7,
            node: 3,
            draft,
            enabled,
        },
    );
}

// A decision is read back as it was pushed.
fn keeps_decision(rt: &impl Abort, alloc: Global, time: u32, module: u32, mode: Mode) {
    let mut history = History::none(alloc, 1, 0).expect(rt, "room for an entry");
    history.push(&Entry::Decide { time, module, mode });
    match history.entry(0) {
        Entry::Decide {
            time: at,
            module: of,
            mode: read,
        } => {
            same(rt, "time", at, time);
            same(rt, "module", of, module);
            same(rt, "mode", read, mode);
        }
        _ => panic!(rt; "a decision is none"),
    }
}

// Times and places on both sides of what fits beside a number.
#[test]
fn a_history_keeps_any_time_and_place(rt: HostRuntime) {
    let mut one = Draft::blank();
    one.set(0, -5);
    let mut two = Draft::blank();
    two.set(0, -5);
    two.set(1, 6);
    for time in [0, 1, 262_143, 262_144, u32::MAX] {
        for place in [0, 1, 1023, 1024, u32::MAX] {
            for draft in [one, two] {
                for enabled in [true, false] {
                    keeps(
                        &rt,
                        rt.alloc(),
                        Firing {
                            time,
                            node: place,
                            draft,
                            enabled,
                        },
                    );
                }
            }
            keeps_decision(&rt, rt.alloc(), time, place, Mode::Ac);
            keeps_decision(&rt, rt.alloc(), time, place, Mode::Sc);
        }
    }
}

fn drafted(slots: &[Option<i64>; 8]) -> Draft {
    let mut draft = Draft::blank();
    for i in 0..8 {
        if let Some(number) = slots[i] {
            draft.set(i, number);
        }
    }
    draft
}

// Numbers on both sides of 32 bits, alone in the first slot or in another one.
#[test]
fn a_history_keeps_drafts_of_one_number(rt: HostRuntime) {
    for number in [
        0,
        -1,
        2_147_483_647,
        2_147_483_648,
        -2_147_483_648,
        -2_147_483_649,
        i64::MAX,
        i64::MIN,
    ] {
        let mut first = Draft::blank();
        first.set(0, number);
        keeps_draft(&rt, rt.alloc(), first, true);
        let mut third = Draft::blank();
        third.set(2, number);
        keeps_draft(&rt, rt.alloc(), third, false);
    }
}

#[test]
fn a_history_keeps_drafts_of_several_numbers(rt: HostRuntime) {
    let all = [
        Some(1),
        Some(-2),
        Some(3),
        Some(-4),
        Some(5),
        Some(-6),
        Some(7),
        Some(-8),
    ];
    let few = [
        None,
        Some(9),
        None,
        None,
        Some(i64::MIN),
        None,
        None,
        Some(0),
    ];
    let ends = [Some(0), None, None, None, None, None, None, Some(1)];
    for slots in [[None; 8], all, few, ends] {
        keeps_draft(&rt, rt.alloc(), drafted(&slots), true);
        keeps_draft(&rt, rt.alloc(), drafted(&slots), false);
    }
}

#[test]
fn a_history_has_room_for_the_longest_flight(rt: HostRuntime) {
    for (entries, numbers) in [(0, 0), (1, 1), (7, 0), (200000, 1000000)] {
        match History::none(rt.alloc(), entries, numbers) {
            Ok(history) => same(&rt, entries, history.len(), 0),
            Err(_) => panic!(rt; "room for {entries} entries and {numbers} numbers"),
        }
    }
}
