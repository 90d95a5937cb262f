//! A formula over a history.

ghost use Rattle.std.specs.Prelude.{◌≡◌, List, [], ◌∷◌, ◌++◌, ◌+◌, ◌≤◌, length, sum_by, IfOk};
ghost use Rattle.std.specs.Prelude.{MatchOption, MatchBool};
ghost use Rattle.sot_world.specs.Opens.{AreStarts};
ghost use Rattle.sot_world.specs.Histories.{entry_of};
ghost use Rattle.sot_trace.specs.Fitting.{FitsHistory};
ghost use Rattle.sot_trace.specs.Lines.{ticks_in};
ghost use Rattle.sot_formula.specs.Formulas.{Formula};
ghost use Rattle.sot_formula.specs.Parts.{AreThere};
ghost use Rattle.sot_history_state.specs.Scenes.{IsSceneOf};
ghost use Rattle.sot_monitor.specs.Holding.{Moment, AlwaysHolds, FirstFails};
ghost use Rattle.sot_monitor.specs.Tracking.{StandsFor};
ghost use Rattle.sot_monitor.specs.Moments.{number_in, moments_told};
ghost use Rattle.sot_monitor.specs.Seen.{seen_before};

use crate::monitor::Monitor;
use crate::seen::AtScene;
use sot_box::Point;
use sot_history_state::Scene;
use sot_lang::Typed;
use sot_tube::Accepted;
use sot_world::{Entry, History};
use std::alloc::{AllocError, Global};

// Adds a scene as the next moment, and says whether the formula holds then.
fn holds_now(p: &Typed, scene: &Scene, monitor: &mut Monitor) -> bool
    requires scene { IsSceneOf p.now scene.now }
    requires there { AreThere p.now monitor.old.whats }
    requires few { monitor.old.added ≤ 100000 }
    ensures kept { monitor.new.whats ≡ monitor.old.whats }
    ensures added { monitor.new.added ≡ monitor.old.added + 1 }
    ensures stands { (x : Formula) (Ms : List Moment) → StandsFor monitor.old x Ms
        → StandsFor monitor.new x (Ms ++ number_in scene.now ∷ []) }
    ensures verdict { (x : Formula) (Ms rest : List Moment) → StandsFor monitor.old x Ms
        → AlwaysHolds Ms x → MatchBool result (AlwaysHolds (Ms ++ number_in scene.now ∷ []) x)
        (FirstFails (Ms ++ number_in scene.now ∷ rest) x (length Ms)) }
{
    monitor.step(&AtScene { p, scene })
}

// Adds a scene as the next moment before a tick, and says whether the formula holds then. Before
// another entry there is no moment.
fn holds_before(p: &Typed, scene: &Scene, entry: &Entry<'_>, monitor: &mut Monitor) -> bool
    requires scene { IsSceneOf p.now scene.now }
    requires there { AreThere p.now monitor.old.whats }
    requires few { monitor.old.added ≤ 100000 }
    ensures kept { monitor.new.whats ≡ monitor.old.whats }
    ensures added { monitor.new.added ≡ monitor.old.added + ticks_in (entry_of entry.now) }
    ensures stands { (x : Formula) (Ms : List Moment) → StandsFor monitor.old x Ms
        → StandsFor monitor.new x (Ms ++ seen_before scene.now (entry_of entry.now)) }
    ensures verdict { (x : Formula) (Ms rest : List Moment) → StandsFor monitor.old x Ms
        → AlwaysHolds Ms x
        → MatchBool result (AlwaysHolds (Ms ++ seen_before scene.now (entry_of entry.now)) x)
        (FirstFails (Ms ++ (seen_before scene.now (entry_of entry.now) ++ rest)) x (length Ms)) }
{
    match entry {
        Entry::Tick { .. } => holds_now(p, scene, monitor),
        Entry::Input { .. } | Entry::Fire { .. } | Entry::Decide { .. } => true,
    }
}

/// The first moment of a history at which a new monitor's formula is false: a moment is the state
/// just before a tick, the last one the state at the end. `None` where it is always true.
///
/// # Errors
///
/// [`AllocError`] where there is no memory for the scene.
pub fn watch(
    alloc: Global,
    acc: &Accepted<'_>,
    start: &[Point],
    history: &History,
    mut monitor: Monitor,
) -> Result<Option<u32>, AllocError>
    requires starts { AreStarts acc.now.program start.now }
    requires fits { FitsHistory acc.now.program history.now.entries }
    requires few { sum_by ticks_in history.now.entries ≤ 100000 }
    requires there { AreThere acc.now.program monitor.whats }
    requires new { monitor.added ≡ 0 }
    ensures verdict { (x : Formula) → StandsFor monitor x [] → IfOk result (λ t. MatchOption t
        (AlwaysHolds (moments_told acc.now.program start.now history.now.entries) x)
        (FirstFails (moments_told acc.now.program start.now history.now.entries) x)) }
{
    let p = acc.typed();
    let mut scene = Scene::open(alloc, p, start)?;
    for i in 0..history.len() {
        let entry = history.entry(i);
        let moment = monitor.added();
        if !holds_before(p, &scene, &entry, &mut monitor) {
            return Ok(Some(moment));
        }
        scene.follow(p, &entry);
    }
    let moment = monitor.added();
    if holds_now(p, &scene, &mut monitor) {
        Ok(None)
    } else {
        Ok(Some(moment))
    }
}
