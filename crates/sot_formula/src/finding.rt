//! What references name.

ghost use Rattle.std.specs.Prelude.{◌≡◌, ◌+◌, ◌≤◌, ◌<◌, length, slice_get, IfSome};
ghost use Rattle.std.specs.List.{position};
ghost use Rattle.std.specs.Option.{option_and_then};
ghost use Rattle.std.specs.Str.{bytes_eq};
ghost use Rattle.sot_lang.specs.declared.tables.TopicInfo.{TopicInfo as Topic};
ghost use Rattle.sot_lang.specs.declared.tables.PlantInfo.{PlantInfo as Plant};
ghost use Rattle.sot_lang.specs.declared.tables.StateInfo.{StateInfo as Variable};
ghost use Rattle.sot_lang.specs.declared.tables.ModuleInfo.{ModuleInfo as Module};
ghost use Rattle.sot_formula.specs.Meanings.{scale_of};
ghost use Rattle.sot_formula.specs.Finding.{place_of, is_field, plain_of, plain_named, field_in};
ghost use Rattle.sot_formula.specs.Finding.{field_named, variable_in, variable_named, part_named};
ghost use Rattle.sot_formula.specs.Finding.{module_named};

use crate::quantity::Quantity;
use sot_lang::{ModuleInfo, PlantInfo, ScalarInfo, StateInfo, TopicInfo, Typed};

/// What a reference names, and its scale. Modes and truth values have scale 0.
#[derive(Clone, Copy)]
pub struct FoundQuantity {
    pub of: Quantity,
    pub scale: u8,
}

fn is_named(name: &[u8], word: &[u8]) -> bool
    ensures { result ≡ bytes_eq name.now word.now }
{
    name == word
}

fn topic_place(topics: &[TopicInfo], word: &[u8]) -> Option<usize>
    ensures { result ≡ place_of (λ (x : Topic). x.name) topics.now word.now }
{
    topics
        .iter()
        .position(|x| is_named(x.name.as_bytes(), word))
}

fn plant_place(plants: &[PlantInfo], word: &[u8]) -> Option<usize>
    ensures { result ≡ place_of (λ (x : Plant). x.name) plants.now word.now }
{
    plants
        .iter()
        .position(|x| is_named(x.name.as_bytes(), word))
}

fn variable_place(states: &[StateInfo], word: &[u8]) -> Option<usize>
    ensures { result ≡ place_of (λ (x : Variable). x.name) states.now word.now }
{
    states
        .iter()
        .position(|x| is_named(x.name.as_bytes(), word))
}

fn module_place(modules: &[ModuleInfo], word: &[u8]) -> Option<usize>
    ensures { result ≡ place_of (λ (x : Module). x.name) modules.now word.now }
{
    modules
        .iter()
        .position(|x| is_named(x.name.as_bytes(), word))
}

fn is_field(info: &ScalarInfo, word: &[u8]) -> bool
    ensures { result ≡ is_field word.now info.now }
{
    match &info.field {
        Some(name) => is_named(name.as_bytes(), word),
        None => false,
    }
}

fn field_place(infos: &[ScalarInfo], word: &[u8]) -> Option<usize>
    ensures { result ≡ position (is_field word.now) infos.now }
{
    infos.iter().position(|x| is_field(x, word))
}

fn scale_of(info: &ScalarInfo) -> u8
    ensures { result ≡ scale_of info.now }
{
    if info.truth { 0 } else { info.scale }
}

// A scalar that is no field.
fn plain_of(k: u32, info: &ScalarInfo) -> Option<FoundQuantity>
    ensures { result ≡ plain_of k info.now }
{
    match &info.field {
        Some(_) => None,
        None => Some(FoundQuantity {
            of: Quantity::Scalar(k),
            scale: scale_of(info),
        }),
    }
}

// The scalar at a place, if it is no field.
fn plain_at(infos: &[ScalarInfo], k: u32) -> Option<FoundQuantity>
    ensures { result ≡ option_and_then (plain_of k) (slice_get infos.now k) }
{
    plain_of(k, infos.get(k as usize)?)
}

/// The topic of this name, where it is one number.
#[tactic(auto, unfolding(crate::specs::Finding::plain_named))]
pub fn plain_named(p: &Typed, word: &[u8]) -> Option<FoundQuantity>
    ensures { result ≡ plain_named p.now word.now }
{
    let t = topic_place(&p.topics, word)?;
    plain_at(&p.scalars, p.topics.get(t)?.first)
}

// The field of this name among so many scalars from a place on.
#[tactic(auto, unfolding(crate::specs::Finding::field_in))]
fn field_in(infos: &[ScalarInfo], first: u32, count: u32, word: &[u8]) -> Option<FoundQuantity>
    requires there { first + count ≤ length infos.now }
    requires few { length infos.now ≤ 4096 }
    ensures { result ≡ field_in infos.now first count word.now }
{
    let own = &infos[first as usize..(first + count) as usize];
    let i = field_place(own, word)?;
    let info = own.get(i)?;
    Some(FoundQuantity {
        of: Quantity::Scalar(first + i as u32),
        scale: scale_of(info),
    })
}

#[tactic(auto, unfolding(crate::specs::Finding::field_named))]
fn field_named(p: &Typed, word: &[u8], field: &[u8]) -> Option<FoundQuantity>
    ensures { result ≡ field_named p.now word.now field.now }
{
    let t = topic_place(&p.topics, word)?;
    let topic = p.topics.get(t)?;
    field_in(&p.scalars, topic.first, topic.count, field)
}

// The state variable of this name among those of a plant.
#[tactic(auto, unfolding(crate::specs::Finding::variable_in))]
fn variable_in(states: &[StateInfo], k: u32, word: &[u8]) -> Option<FoundQuantity>
    requires few { length states.now ≤ 4 }
    ensures { result ≡ variable_in states.now k word.now }
{
    let v = variable_place(states, word)?;
    let info = states.get(v)?;
    Some(FoundQuantity {
        of: Quantity::State {
            plant: k,
            var: v as u32,
        },
        scale: info.scale,
    })
}

#[tactic(auto, unfolding(crate::specs::Finding::variable_named))]
fn variable_named(p: &Typed, word: &[u8], var: &[u8]) -> Option<FoundQuantity>
    ensures { result ≡ variable_named p.now word.now var.now }
{
    let k = plant_place(&p.plants, word)?;
    let plant = p.plants.get(k)?;
    variable_in(&plant.states, k as u32, var)
}

/// The field of a topic, or the state variable of a plant, by both names.
#[tactic(auto, unfolding(crate::specs::Finding::part_named))]
pub fn part_named(p: &Typed, word: &[u8], part: &[u8]) -> Option<FoundQuantity>
    ensures { result ≡ part_named p.now word.now part.now }
{
    match field_named(p, word, part) {
        Some(found) => Some(found),
        None => variable_named(p, word, part),
    }
}

/// The mode of the module of this name.
#[tactic(auto, unfolding(crate::specs::Finding::module_named))]
pub fn module_named(p: &Typed, word: &[u8]) -> Option<FoundQuantity>
    ensures { result ≡ module_named p.now word.now }
{
    let count = p.modules.len();
    match module_place(&p.modules, word) {
        Some(m) if m < count => Some(FoundQuantity {
            of: Quantity::Mode(m as u32),
            scale: 0,
        }),
        Some(_) => unreachable!(),
        None => None,
    }
}
