//! A flight, and its readers.

ghost use Rattle.std.specs.Prelude.{◌≡◌, ℕ, ◌<◌, ◌^◌, [], length, slice_get, slice_index_or, Some};
ghost use Rattle.std.specs.Prelude.{option_map, MatchOption};
ghost use Rattle.sot_lists.specs.Places.{At};
ghost use Rattle.sot_lang.specs.declared.tables.PlantInfo.{PlantInfo};
ghost use Rattle.sot_lang.specs.declared.tables.NodeInfo.{NodeInfo};
ghost use Rattle.sot_lang.specs.Ticks.{joined};
ghost use Rattle.sot_code.specs.Recorded.{in_slots};
ghost use Rattle.sot_flight.specs.Plans as plans;
ghost use Rattle.sot_flight.specs.Stated.{stated_noise, draft_of};
ghost use Rattle.sot_flight.specs.Fits.{FitsFlight};
ghost use Rattle.sot_flight.specs.FlightView.{given_of};

use crate::crew::Crew;
use crate::drafts::stated_draft;
use crate::input::{Given, Input};
use crate::noise::{noise_at, put_all};
use crate::sway::Sway;
use sot_box::Point;
use sot_lang::{Draft, Typed};
use std::marker::Model;

/// A flight of a program: its horizon in ticks, where its plants start, its inputs in order, what
/// drives the disturbances of each plant, and who drafts for each node.
#[derive(Drop)]
pub struct Flight {
    pub(crate) horizon: u32,
    pub(crate) start: Vec<Point>,
    pub(crate) inputs: Vec<Input>,
    pub(crate) sways: Vec<Sway>,
    pub(crate) crews: Vec<Crew>,
    pub(crate) events: u32,
    pub(crate) numbers: u32,
}

impl Model for Flight {
    ghost use Rattle.sot_flight.specs.Plans.{Plan};

    ghost Value = { Plan };

    ghost use Rattle.sot_flight.specs.FlightView.{plan};

    ghost view = { plan };
}

impl Flight {
    /// The number of its ticks, at most 100,000.
    pub fn horizon(&self) -> u32
        ensures { result ≡ self.now.horizon }
    {
        self.horizon
    }

    /// The point at which each plant starts, in declared order.
    pub fn start(&self) -> &[Point]
        ensures { result.now ≡ self.now.start }
    {
        &self.start
    }

    /// The number of its firings, decisions, inputs and ticks, up to and including the horizon.
    pub fn events(&self) -> u32
        ensures { result ≡ self.now.events }
    {
        self.events
    }

    /// The number of its disturbances, states, drafted scalars and input scalars.
    pub fn numbers(&self) -> u32
        ensures { result ≡ self.now.numbers }
    {
        self.numbers
    }

    /// The number of its inputs.
    pub fn inputs(&self) -> u32
        requires { length self.now.inputs < 2 ^ 32 }
        ensures { result ≡ length self.now.inputs }
    {
        self.inputs.len() as u32
    }

    /// Input `i`, from 0 on.
    pub fn input(&self, i: u32) -> Given<'_>
        requires { i < length self.now.inputs }
        ensures { slice_get self.now.inputs i ≡ Some (given_of result) }
    {
        let input = &self.inputs[i as usize];
        Given {
            at: input.at,
            topic: input.topic,
            value: &input.value,
        }
    }

    /// The stated disturbance `i` of a plant for a tick.
    pub fn noise(&self, p: &Typed, plant: u32, tick: u32, i: u32) -> i64
        requires fits { (guests : ℕ) × FitsFlight p.now guests self.now }
        requires plant { plant < length p.now.plants }
        requires there { (info : PlantInfo) → At p.now.plants plant info
            → i < length info.noise.items }
        ensures { At (slice_index_or (stated_noise p.now self.now tick) plant []) i result }
    {
        noise_at(
            &p.plants[plant as usize],
            &self.sways[plant as usize],
            tick,
            i as usize,
        )
    }

    /// The stated disturbances of all plants for a tick, one plant after another in declared order.
    pub fn disturb(&self, p: &Typed, tick: u32, noise: &mut [i64])
        requires fits { (guests : ℕ) × FitsFlight p.now guests self.now }
        requires size { length noise.old ≡ length (joined (stated_noise p.now self.now tick)) }
        ensures { noise.new ≡ joined (stated_noise p.now self.now tick) }
    {
        put_all(p, &self.sways, tick, noise)
    }

    /// The stated draft of a node's firing, from 0 on; none exactly where its own code or a guest
    /// drafts.
    pub fn stated(&self, p: &Typed, node: u32, firing: u32) -> Option<Draft>
        requires fits { (guests : ℕ) × FitsFlight p.now guests self.now }
        requires node { node < length p.now.nodes }
        ensures { (info : NodeInfo) (crew : plans.Crew) → At p.now.nodes node info
            → At self.now.crews node crew → result
            ≡ option_map in_slots (draft_of p.now info crew firing) }
    {
        stated_draft(p, node, &self.crews[node as usize], firing)
    }

    /// The number of the guest that drafts for a node; none exactly where no guest does.
    pub fn guest(&self, node: u32) -> Option<u32>
        requires { node < length self.now.crews }
        ensures { MatchOption result ((index : ℕ) → At self.now.crews node (plans.Guest index) → ⊥)
            (λ index. At self.now.crews node (plans.Guest index)) }
    {
        match &self.crews[node as usize] {
            Crew::Coded | Crew::Script(_) | Crew::Wild { .. } => None,
            Crew::Guest(index) => Some(*index),
        }
    }
}
