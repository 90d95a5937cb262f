//! How a test hands an event to a world: only where the event names things that are there.

// Events as tests hand them to a world.
ghost use Rattle.std.specs.Prelude.{◌≡◌, List, None, length, IsTrue};
ghost use Rattle.sot_lists.specs.Places.{At};
ghost use Rattle.sot_lang.specs.declared.act.Act.{Act};
ghost use Rattle.sot_lang.specs.declared.tables.NodeInfo.{NodeInfo};
ghost use Rattle.sot_lang.specs.TableRules.{IsCoded};
ghost use Rattle.sot_world.specs.Events.{Names, noise_count};

use sot_lang::{PlantInfo, Typed};
use sot_rta::node_at;
use sot_world::{Event, Outcome, Why, World};
use std::process::Abort;

// Whether there is one disturbance for each of the plants'.
fn has_noise(plants: &[PlantInfo], noise: &[i64]) -> bool
    ensures { IsTrue result → length noise.now ≡ noise_count plants.now }
{
    let (_, mut rest) = noise.split_at(0);
    for plant in plants {
        if rest.len() < plant.noise.len() {
            return false;
        }
        let (_, more) = rest.split_at(plant.noise.len());
        rest = more;
    }
    rest.len() == 0
}

fn has_code(p: &Typed, node: u32) -> bool
    ensures { IsTrue result → (info : NodeInfo) × (acts : List Act) × At p.now.nodes node info
        × IsCoded info acts }
{
    if node as usize >= p.nodes.len() {
        return false;
    }
    let info = node_at(p, node);
    match &info.body {
        Some(_) => true,
        None => false,
    }
}

fn is_external(p: &Typed, node: u32) -> bool
    ensures { IsTrue result → (info : NodeInfo) × At p.now.nodes node info × (info.body ≡ None) }
{
    if node as usize >= p.nodes.len() {
        return false;
    }
    let info = node_at(p, node);
    match &info.body {
        Some(_) => false,
        None => true,
    }
}

// Whether an event names what is there. The tests hand in no inputs.
fn names(p: &Typed, e: &Event<'_>) -> bool
    ensures { IsTrue result → Names p.now e.now }
{
    match *e {
        Event::Input { .. } => false,
        Event::Code { node } => has_code(p, node),
        Event::Guest { node, .. } => is_external(p, node),
        Event::Decide { module } => (module as usize) < p.modules.len(),
        Event::Tick { noise } => has_noise(&p.plants, noise),
    }
}

// Steps by an event that can happen now, and else tells why not. `None` where the event names
// nothing.
pub(super) fn happen(p: &Typed, w: &mut World<'_>, e: &Event<'_>) -> Option<Result<Outcome, Why>>
    requires { w.old.accepted.program ≡ p.now }
    ensures { w.new.accepted.program ≡ p.now }
{
    if !names(p, e) {
        return None;
    }
    if w.time() >= 100000 {
        return None;
    }
    match w.can(e) {
        Ok(()) => Some(Ok(w.step(e))),
        Err(why) => Some(Err(why)),
    }
}

// Steps by an event, and ends the test where it cannot happen.
pub(super) fn step(rt: &impl Abort, p: &Typed, w: &mut World<'_>, e: &Event<'_>)
    requires { w.old.accepted.program ≡ p.now }
    ensures { w.new.accepted.program ≡ p.now }
{
    let Some(Ok(_)) = happen(p, w, e) else {
        panic!(rt; "an event is refused");
    };
}
