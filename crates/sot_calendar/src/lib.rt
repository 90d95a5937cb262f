//! When nodes and decisions are due.
//!
//! Time is a count of ticks from 0. What has a period and an offset is due at the offset, and then
//! once in each period: [`due`] tells whether it is at a time, [`next_due`] when it is next, and
//! [`firings`] how often up to a horizon. These are closed formulas, and none takes memory.
//!
//! Nothing here knows nodes, modules or jitter. `docs/SEMANTICS.md` states the calendar in words.
#![tactic(auto)]

ghost use Rattle.std.specs.Prelude.{◌<◌, ◌≤◌, IsTrue, ◌↔◌};
ghost use Rattle.sot_calendar.specs.Due.{IsDue, IsNextDue, IsDueCount};

/// Whether it is due at `t`.
pub fn due(period: u32, offset: u32, t: u32) -> bool
    requires offset { offset < period }
    requires period { period ≤ 1000 }
    requires time { t ≤ 100000 }
    ensures { IsTrue result ↔ IsDue period offset t }
{
    t >= offset && (t - offset) % period == 0
}

/// The least due time that is at least `t`.
pub fn next_due(period: u32, offset: u32, t: u32) -> u32
    requires offset { offset < period }
    requires period { period ≤ 1000 }
    requires time { t ≤ 100000 }
    ensures { IsNextDue period offset t result }
{
    if t <= offset {
        return offset;
    }
    let past = (t - offset) % period;
    if past == 0 { t } else { t + (period - past) }
}

/// The number of due times from 0 up to and including the horizon.
pub fn firings(period: u32, offset: u32, horizon: u32) -> u32
    requires offset { offset < period }
    requires period { period ≤ 1000 }
    requires time { horizon ≤ 100000 }
    ensures { IsDueCount period offset horizon result }
{
    if horizon < offset {
        0
    } else {
        (horizon - offset) / period + 1
    }
}
