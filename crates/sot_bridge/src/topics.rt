//! The topics of a bridge.

ghost use Rattle.std.specs.Prelude.{◌≡◌, ℕ, ◌↔◌, ◌<◌, length, IsTrue, MatchOption, MatchBool};
ghost use Rattle.sot_lists.specs.Places.{At};
ghost use Rattle.sot_lang.specs.declared.tables.TopicInfo.{TopicInfo as Topic};
ghost use Rattle.sot_bridge.specs.Topics.{HasName, IsNamed, Suits, Match};

use sot_lang::{ScalarInfo, TopicInfo, Typed};

fn has_name(info: &TopicInfo, name: &str, outside: bool) -> bool
    ensures { IsTrue result ↔ HasName name.now outside info.now }
{
    info.outside == outside && info.name.as_str() == name
}

/// The place of the topic of that name that is an environment topic, or that is none.
pub fn topic_named(p: &Typed, name: &str, outside: bool) -> Option<u32>
    ensures { MatchOption result ((k : ℕ) → ¬ (IsNamed p.now name.now outside k))
        (λ k. IsNamed p.now name.now outside k) }
{
    for k in 0..p.topics.len() {
        if has_name(&p.topics[k], name, outside) {
            return Some(k as u32);
        }
    }
    None
}

// Whether each number that the one may hold the other may hold too.
fn suits(from: &ScalarInfo, to: &ScalarInfo) -> bool
    ensures { IsTrue result ↔ Suits from.now to.now }
{
    from.scale == to.scale && from.truth == to.truth && to.lo <= from.lo && from.hi <= to.hi
}

/// Whether each value of a topic of the one program is a value of a topic of the other, in scales,
/// sorts and ranges.
pub fn topics_match(p: &Typed, from: u32, q: &Typed, to: u32) -> bool
    requires from { from < length p.now.topics }
    requires to { to < length q.now.topics }
    ensures { (a b : Topic) → At p.now.topics from a → At q.now.topics to b
        → MatchBool result (Match p.now q.now a b) (¬ (Match p.now q.now a b)) }
{
    let (a, b) = (&p.topics[from as usize], &q.topics[to as usize]);
    if a.count != b.count {
        return false;
    }
    for i in 0..a.count as usize {
        let x = &p.scalars[a.first as usize + i];
        let y = &q.scalars[b.first as usize + i];
        if !suits(x, y) {
            return false;
        }
    }
    true
}
