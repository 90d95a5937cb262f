//! What is written of short flights, and what their guest was asked.
use super::*;
use sot_commands::Draft;

// A number that is outside what may be published.
const SEVEN: &str = "soter trace 1
start pos 0
0 decide nav ac
0 tick pos(0)=0
1 idle slow cmd=0
1 tick pos(0)=0
2 fire fast cmd!7
2 tick pos(0)=0
end 3 events 6 refused 1
";

// The greatest number that there is.
const FAR: &str = "soter trace 1
start pos 0
0 decide nav ac
0 tick pos(0)=0
1 idle slow cmd=0
1 tick pos(0)=0
2 fire fast cmd!9223372036854775807
2 tick pos(0)=0
end 3 events 6 refused 1
";

// Nothing is drafted.
const BLANK: &str = "soter trace 1
start pos 0
0 decide nav ac
0 tick pos(0)=0
1 idle slow cmd=0
1 tick pos(0)=0
2 fire fast
2 tick pos(0)=0
end 3 events 6 refused 0
";

// The module switches to the safe node at 22 and back at 6, with wind.
const WINDY: &str = "soter trace 1
start pos 10
0 decide nav ac
0 tick pos(-1)=9
1 idle slow cmd=0
1 tick pos(-1)=8
2 fire fast cmd=2
2 tick pos(1)=11
3 tick pos(0)=13
4 decide nav ac
4 tick pos(0)=15
5 idle slow cmd=-2
5 tick pos(0)=17
6 fire fast cmd=2
6 tick pos(1)=20
7 tick pos(-1)=21
8 decide nav sc
8 tick pos(-1)=22
9 fire slow cmd=-2
9 tick pos(1)=21
10 idle fast cmd=2
10 tick pos(-1)=18
11 tick pos(0)=16
12 decide nav sc
12 tick pos(0)=14
13 fire slow cmd=-2
13 tick pos(0)=12
14 idle fast cmd=2
14 tick pos(-1)=9
15 tick pos(-1)=6
16 decide nav ac
16 tick pos(-1)=3
17 idle slow cmd=0
17 tick pos(-1)=0
18 fire fast cmd=2
18 tick pos(1)=3
19 tick pos(-1)=4
20 decide nav ac
end 20 events 36 refused 0
";

// The draft that has this number in its first slot.
fn drafted(number: Option<i64>) -> Draft {
    let mut draft = Draft::blank();
    if let Some(number) = number {
        draft.set(0, number);
    }
    draft
}

// Whether a guest that always drafts one number keeps as many askings as were seen, each at its
// time, with what was seen and drafted.
fn keeps(guest: &Keeper, number: Option<i64>, seen: &[i64]) -> bool {
    let kept = guest.kept.as_slice();
    let mut same = !guest.lost && kept.len() == seen.len();
    for i in 0..kept.len().min(seen.len()) {
        let view = &kept[i].view;
        let shown = view.node() == 0
            && view.time() as usize == 4 * i + 2
            && view.len() == 1
            && view.value(0) == seen[i];
        if !shown || kept[i].draft != drafted(number) {
            same = false;
        }
    }
    same
}

// Flies a vehicle whose guest always drafts one number. This is written, and the guest saw these
// states.
fn flies<R: Abort + Threads + Wait + Sync>(
    rt: &R,
    alloc: Global,
    number: Option<i64>,
    mission: &str,
    seen: &[i64],
    said: &str,
) {
    let mut guests = keeper(rt, alloc, number, number);
    let text = answered(rt, alloc, "fly", mission, &mut guests);
    same(rt, number, text.as_str(), said);
    same(rt, number, keeps(&guests[0], number, seen), true);
}

#[test]
fn what_guests_draft_is_written_and_kept(rt: HostRuntime) {
    let alloc = rt.alloc();
    let short = mission(&rt, alloc, 0, 3, CALM);
    let short = short.as_str();
    flies(&rt, alloc, Some(7), short, &[0], SEVEN);
    flies(
        &rt,
        alloc,
        Some(9_223_372_036_854_775_807),
        short,
        &[0],
        FAR,
    );
    flies(&rt, alloc, None, short, &[0], BLANK);
    let long = mission(&rt, alloc, 10, 20, SEED);
    flies(
        &rt,
        alloc,
        Some(2),
        long.as_str(),
        &[8, 17, 21, 12, 0],
        WINDY,
    );
}
