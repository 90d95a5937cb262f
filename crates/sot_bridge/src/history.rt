//! What a history sends.

ghost use Rattle.std.specs.Prelude.{◌≡◌, ◌<◌, ◌++◌, length, map, IfOk};
ghost use Rattle.sot_world.specs.Opens.{AreStarts};
ghost use Rattle.sot_world.specs.Histories.{entry_of};
ghost use Rattle.sot_flight.specs.Relayed.{drafted, send_of};
ghost use Rattle.sot_trace.specs.Fitting.{FitsEntry, FitsHistory};
ghost use Rattle.sot_history_state.specs.Scenes.{IsSceneOf};
ghost use Rattle.sot_bridge.specs.SendLaws.{time_of, value_of, sent_by, sends_of};

use crate::publishing::sends_on;
use sot_box::Point;
use sot_flight::Sent;
use sot_history_state::Scene;
use sot_lang::{Draft, Typed};
use sot_world::{Entry, History};
use std::alloc::{AllocError, Global};

fn time_of(entry: &Entry<'_>) -> u32
    ensures { result ≡ time_of (entry_of entry.now) }
{
    match entry {
        Entry::Input { time, .. } => *time,
        Entry::Fire { time, .. } => *time,
        Entry::Decide { time, .. } => *time,
        Entry::Tick { time, .. } => *time,
    }
}

// The value of a topic, in the first slots.
fn value_in(p: &Typed, topic: u32, scene: &Scene) -> Draft
    requires topic { topic < length p.now.topics }
    requires scene { IsSceneOf p.now scene.now }
    ensures { drafted result ≡ value_of p.now topic scene.now.scalars }
{
    let info = &p.topics[topic as usize];
    let mut value = Draft::blank();
    for i in 0..info.count {
        value.set(i as usize, scene.scalar(info.first + i));
    }
    value
}

// Adds what an entry sends, where the scene is the one after it.
fn add_sent(
    p: &Typed,
    topic: u32,
    entry: &Entry<'_>,
    scene: &Scene,
    found: &mut Vec<Sent>,
) -> Result<(), AllocError>
    requires topic { topic < length p.now.topics }
    requires scene { IsSceneOf p.now scene.now }
    requires entry { FitsEntry p.now (entry_of entry.now) }
    ensures { IfOk result (λ _. map send_of found.new.items ≡ map send_of found.old.items
        ++ sent_by p.now topic (entry_of entry.now) scene.now.scalars) }
{
    if sends_on(p, topic, entry) {
        let at = time_of(entry);
        let value = value_in(p, topic, scene);
        found.push(Sent { at, value })?;
    }
    Ok(())
}

/// What a history from these starting points sends on a topic, in order: of each firing that
/// published some number of the topic its time, in ticks, and the topic's whole value after it, a
/// mantissa a scalar. [`AllocError`] where there is no memory for it.
pub fn sends(
    alloc: Global,
    p: &Typed,
    topic: u32,
    start: &[Point],
    history: &History,
) -> Result<Vec<Sent>, AllocError>
    requires topic { topic < length p.now.topics }
    requires starts { AreStarts p.now start.now }
    requires fits { FitsHistory p.now history.now.entries }
    ensures { IfOk result (λ v.
        map send_of v.items ≡ sends_of p.now topic history.now.entries) }
{
    let mut found = Vec::new(alloc);
    let mut scene = Scene::open(alloc, p, start)?;
    for i in 0..history.len() {
        let entry = history.entry(i);
        scene.follow(p, &entry);
        add_sent(p, topic, &entry, &scene, &mut found)?;
    }
    Ok(found)
}
