//! The steps of a body, one after another.

ghost use Rattle.std.specs.Prelude.{◌≡◌, false, length};
ghost use Rattle.sot_eval_flat.specs.Flows.{FlowAll, Flows, Rounds, state};

use crate::compute::run_line;
use crate::step::Step;
use sot_lang::Draft;

/// The steps, one after another, unless one traps: then the flag is set.
#[cycle(walk)]
pub fn walk(steps: &[Step], room: &mut [i64], draft: &mut Draft, trapped: &mut bool)
    requires { length room.old ≡ 256 }
    ensures first { trapped.new ≡ false → trapped.old ≡ false }
    ensures goes { trapped.new ≡ false
        → FlowAll steps.now (state room.old draft.old) (state room.new draft.new) }
    ensures size { length room.new ≡ 256 }
{
    for one in steps {
        go(one, room, draft, trapped);
    }
}

// The steps, so many times.
#[cycle(walk)]
fn turns(count: u32, steps: &[Step], room: &mut [i64], draft: &mut Draft, trapped: &mut bool)
    requires { length room.old ≡ 256 }
    ensures first { trapped.new ≡ false → trapped.old ≡ false }
    ensures goes { trapped.new ≡ false
        → Rounds count (FlowAll steps.now) (state room.old draft.old)
        (state room.new draft.new) }
    ensures size { length room.new ≡ 256 }
{
    for _turn in 0..count {
        walk(steps, room, draft, trapped);
    }
}

// One step.
#[cycle(walk)]
fn go(one: &Step, room: &mut [i64], draft: &mut Draft, trapped: &mut bool)
    requires { length room.old ≡ 256 }
    ensures first { trapped.new ≡ false → trapped.old ≡ false }
    ensures goes { trapped.new ≡ false
        → Flows one.now (state room.old draft.old) (state room.new draft.new) }
    ensures size { length room.new ≡ 256 }
{
    match one {
        Step::Line(line) => run_line(line, room, trapped),
        Step::Publish { slot, place } => {
            if *slot < 8 {
                draft.set(*slot as usize, room[*place as usize]);
            } else {
                *trapped = true;
            }
        }
        Step::Choice { place, yes, no } => {
            if room[*place as usize] != 0 {
                walk(yes, room, draft, trapped);
            } else {
                walk(no, room, draft, trapped);
            }
        }
        Step::Turns { times, body } => turns(*times, body, room, draft, trapped),
    }
}
