//! Scenes along a history.

ghost use Rattle.std.specs.Prelude.{◌≡◌, ◌<◌, length, [], pos, slice_index_or, IfOk};
ghost use Rattle.sot_world.specs.declared.mode.Mode.TheVariants.{Sc};
ghost use Rattle.sot_world.specs.Histories.{entry_of};
ghost use Rattle.sot_trace.specs.Fitting.{FitsEntry};
ghost use Rattle.sot_history_state.specs.Scenes.{opening, after, IsSceneOf};

use crate::points::put_points;
use sot_box::Point;
use sot_lang::Typed;
use sot_trace::writes_of;
use sot_world::{Entry, Mode, initial_scalars, publish_if, safe_modes, write};
use std::alloc::{AllocError, Global};
use std::marker::Model;

/// Where a history leads: a mode per module, a number per scalar and a point per plant.
#[derive(Drop)]
pub struct Scene {
    modes: Vec<Mode>,
    scalars: Vec<i64>,
    points: Vec<Point>,
}

impl Model for Scene {
    ghost use Rattle.sot_history_state.specs.Scenes.{Scene as Told};
    ghost use Rattle.sot_history_state.specs.SceneView.{scene_in};

    ghost Value = { Told };

    ghost view = { scene_in };
}

impl Scene {
    /// The scene at the start of a flight from these points.
    pub fn open(alloc: Global, p: &Typed, start: &[Point]) -> Result<Scene, AllocError>
        ensures { IfOk result (λ s. s ≡ opening p.now start.now) }
    {
        Ok(Scene {
            modes: safe_modes(alloc, &p.modules)?,
            scalars: initial_scalars(alloc, &p.scalars)?,
            points: Vec::from_slice(alloc, start)?,
        })
    }

    /// Goes on by an entry. It takes no memory, and a few stores.
    pub fn follow(&mut self, p: &Typed, entry: &Entry<'_>)
        requires scene { IsSceneOf p.now self.old }
        requires entry { FitsEntry p.now (entry_of entry.now) }
        ensures { self.new ≡ after p.now (entry_of entry.now) self.old }
    {
        match entry {
            Entry::Input { topic, value, .. } => {
                let first = p.topics[*topic as usize].first as usize;
                write(first, value, &mut self.scalars);
            }
            Entry::Fire {
                node,
                draft,
                enabled,
                ..
            } => publish_if(*enabled, p, writes_of(p, *node), draft, &mut self.scalars),
            Entry::Decide { module, mode, .. } => self.modes[*module as usize] = *mode,
            Entry::Tick { states, .. } => put_points(&p.plants, states, &mut self.points),
        }
    }

    /// Which of a module's nodes is enabled.
    pub fn mode(&self, module: u32) -> Mode
        requires { «module» < length self.now.modes }
        ensures { result ≡ slice_index_or self.now.modes «module» Sc }
    {
        self.modes[module as usize]
    }

    /// The number of a scalar, a mantissa at its scale.
    pub fn scalar(&self, scalar: u32) -> i64
        requires { scalar < length self.now.scalars }
        ensures { result ≡ slice_index_or self.now.scalars scalar (pos 0) }
    {
        self.scalars[scalar as usize]
    }

    /// The number of a plant's state variable, a mantissa at its scale.
    pub fn state(&self, plant: u32, var: u32) -> i64
        requires plant { plant < length self.now.points }
        requires var { var < length (slice_index_or self.now.points plant []) }
        ensures { result
            ≡ slice_index_or (slice_index_or self.now.points plant []) var (pos 0) }
    {
        self.points[plant as usize].at(var as usize)
    }
}
