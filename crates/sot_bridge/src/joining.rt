//! Whether two missions join.

ghost use Rattle.std.specs.Prelude.{◌≡◌, ℕ, ◌<◌, ◌≤◌, List, length, MatchResult};
ghost use Rattle.sot_lists.specs.Places.{At};
ghost use Rattle.sot_lang.specs.declared.tables.TopicInfo.{TopicInfo as Topic};
ghost use Rattle.sot_bridge.specs.Answers.{AreNamed, Joins, DoNotJoin, most};
ghost use Rattle.sot_bridge.specs.Sides.{side_of};
ghost use Rattle.sot_bridge.specs.Steps.{HasRoom, LacksRoom};

use crate::counting::most_sends;
use crate::side::Side;
use crate::topics::{topic_named, topics_match};
use sot_flight::Flight;
use sot_lang::Typed;

/// Why two missions do not join; the first of these that is so is told.
#[derive(Clone, Copy, Debug, PartialEq, Eq)]
pub enum JoinFault {
    /// The first name is no topic of the first mission, or only that of an environment topic; or the
    /// second is no environment topic of the second mission.
    Unknown,
    /// The topics differ in the count of their scalars, or a scalar of the one in its scale or
    /// truth from that of the other, or its range is not inside the other's.
    Type,
    /// The second mission flies less than the first and the delay.
    Horizon,
    /// With all that may be sent the second mission has more than 200,000 events.
    TooManyEvents,
    /// With all that may be sent the second mission has more than 1,000,000 numbers.
    TooManyNumbers,
}

/// The topics of two missions that join.
#[derive(Clone, Copy, Debug, PartialEq, Eq)]
pub struct Joint {
    pub from: u32,
    pub to: u32,
}

const EVENT_LIMIT: u64 = 200_000;

const NUMBER_LIMIT: u64 = 1_000_000;

// How many scalars a topic has.
fn count_of(p: &Typed, topic: u32) -> u32
    requires { topic < length p.now.topics }
    ensures is { (info : Topic) → At p.now.topics topic info → result ≡ info.count }
    ensures few { result ≤ 8 }
{
    p.topics[topic as usize].count
}

// Whether the second flight is long enough, and has room for so many sends of so many numbers.
fn room(f: &Flight, g: &Flight, delay: u32, most: u64, count: u32) -> Result<(), JoinFault>
    requires horizon { f.now.horizon ≤ 100000 }
    requires delay { delay ≤ 100000 }
    requires most { most ≤ 30000300 }
    requires count { count ≤ 8 }
    ensures { MatchResult result (λ _. HasRoom f.now g.now delay most count)
        (λ fault. LacksRoom f.now g.now delay most count fault) }
{
    if f.horizon() + delay > g.horizon() {
        return Err(JoinFault::Horizon);
    }
    if u64::from(g.events()) + most > EVENT_LIMIT {
        return Err(JoinFault::TooManyEvents);
    }
    if u64::from(g.numbers()) + most * u64::from(count) > NUMBER_LIMIT {
        return Err(JoinFault::TooManyNumbers);
    }
    Ok(())
}

// Whether there is room for what the topic of the first mission sends on that of the second.
fn has_room(a: &Side<'_>, b: &Side<'_>, joint: Joint, delay: u32) -> Result<(), JoinFault>
    requires horizon { a.now.flight.now.horizon ≤ 100000 }
    requires to { joint.to < length b.now.program.now.topics }
    requires delay { delay ≤ 100000 }
    ensures { (info : Topic) → At b.now.program.now.topics joint.to info → MatchResult result
        (λ _. HasRoom a.now.flight.now b.now.flight.now delay
        (most (side_of a.now) joint.from) info.count)
        (λ fault. LacksRoom a.now.flight.now b.now.flight.now delay
        (most (side_of a.now) joint.from) info.count fault) }
{
    let most = most_sends(a.program, joint.from, a.flight.horizon());
    let count = count_of(b.program, joint.to);
    room(a.flight, b.flight, delay, most, count)
}

// Whether topics that are named join the two missions.
fn join_by(a: &Side<'_>, b: &Side<'_>, joint: Joint, delay: u32) -> Result<Joint, JoinFault>
    requires horizon { a.now.flight.now.horizon ≤ 100000 }
    requires delay { delay ≤ 100000 }
    requires from { joint.from < length a.now.program.now.topics }
    requires to { joint.to < length b.now.program.now.topics }
    ensures { (from to : List ℕ) (named : AreNamed (side_of a.now) (side_of b.now) from to
        joint.from joint.to) → MatchResult result
        (λ j. Joins (side_of a.now) (side_of b.now) from to delay j.from j.to)
        (λ fault. DoNotJoin (side_of a.now) (side_of b.now) from to delay fault) }
{
    if !topics_match(a.program, joint.from, b.program, joint.to) {
        return Err(JoinFault::Type);
    }
    match has_room(a, b, joint, delay) {
        Ok(()) => Ok(joint),
        Err(fault) => Err(fault),
    }
}

/// The topics of these names, where the two missions join by them.
pub fn join(
    a: &Side<'_>,
    b: &Side<'_>,
    from: &str,
    to: &str,
    delay: u32,
) -> Result<Joint, JoinFault>
    requires horizon { a.now.flight.now.horizon ≤ 100000 }
    requires delay { delay ≤ 100000 }
    ensures { MatchResult result
        (λ j. Joins (side_of a.now) (side_of b.now) from.entry.now to.entry.now delay j.from j.to)
        (λ fault. DoNotJoin (side_of a.now) (side_of b.now) from.entry.now to.entry.now delay
        fault) }
{
    match topic_named(a.program, from, false) {
        Some(from) => match topic_named(b.program, to, true) {
            Some(to) => join_by(a, b, Joint { from, to }, delay),
            None => Err(JoinFault::Unknown),
        },
        None => Err(JoinFault::Unknown),
    }
}
