//! The rows of a program's tables.

use crate::act::Act;
use crate::term::Term;
use sot_box::Region;
use sot_syntax_tree::Name;

/// A topic, whose scalars are `first` and the next `count - 1`. `outside` marks an environment
/// topic, which only inputs write.
pub struct TopicInfo {
    pub name: Name,
    pub outside: bool,
    pub first: u32,
    pub count: u32,
}

impl Drop for TopicInfo {
    fn drop(self) {
        let TopicInfo {
            name: _,
            outside: _,
            first: _,
            count: _,
        } = self;
    }
}

/// A scalar of a topic. Numbers are mantissas at its scale, from `lo` to `hi`; a truth value is 0
/// or 1.
pub struct ScalarInfo {
    pub topic: u32,
    pub field: Option<Name>,
    pub scale: u8,
    pub truth: bool,
    pub lo: i64,
    pub hi: i64,
    pub init: i64,
}

impl Drop for ScalarInfo {
    fn drop(self) {
        let ScalarInfo {
            topic: _,
            field: _,
            scale: _,
            truth: _,
            lo: _,
            hi: _,
            init: _,
        } = self;
    }
}

/// A state variable of a plant.
pub struct StateInfo {
    pub name: Name,
    pub scale: u8,
}

impl Drop for StateInfo {
    fn drop(self) {
        let StateInfo { name: _, scale: _ } = self;
    }
}

/// A disturbance of a plant, anywhere from `lo` to `hi` at each tick.
pub struct NoiseInfo {
    pub name: Name,
    pub scale: u8,
    pub lo: i64,
    pub hi: i64,
}

impl Drop for NoiseInfo {
    fn drop(self) {
        let NoiseInfo {
            name: _,
            scale: _,
            lo: _,
            hi: _,
        } = self;
    }
}

/// A plant: its state variables, the scalars that are its inputs, the plants that it sees, its
/// disturbances, and one expression a state variable for the state after a tick.
pub struct PlantInfo {
    pub name: Name,
    pub states: Vec<StateInfo>,
    pub inputs: Vec<u32>,
    pub sees: Vec<u32>,
    pub noise: Vec<NoiseInfo>,
    pub next: Vec<Term>,
}

impl Drop for PlantInfo {
    fn drop(self) {
        let PlantInfo {
            name: _,
            states: _,
            inputs: _,
            sees: _,
            noise: _,
            next: _,
        } = self;
    }
}

/// A number that a node reads: a scalar, or a state variable of a plant.
#[derive(Clone, Copy, Debug, PartialEq, Eq)]
pub enum Slot {
    Scalar(u32),
    State { plant: u32, var: u32 },
}

/// A local of a node, kept from firing to firing.
pub struct LocalInfo {
    pub name: Name,
    pub scale: u8,
    pub truth: bool,
    pub lo: i64,
    pub hi: i64,
    pub init: i64,
}

impl Drop for LocalInfo {
    fn drop(self) {
        let LocalInfo {
            name: _,
            scale: _,
            truth: _,
            lo: _,
            hi: _,
            init: _,
        } = self;
    }
}

/// A node, due at each time `t` from its offset on for which `t - offset` is a multiple of its
/// period, in ticks. A coded node has a body; an external one has none, and its drafts come from
/// outside.
pub struct NodeInfo {
    pub name: Name,
    pub period: u32,
    pub offset: u32,
    pub reads: Vec<Slot>,
    pub writes: Vec<u32>,
    pub locals: Vec<LocalInfo>,
    pub body: Option<Vec<Act>>,
}

impl Drop for NodeInfo {
    fn drop(self) {
        let NodeInfo {
            name: _,
            period: _,
            offset: _,
            reads: _,
            writes: _,
            locals: _,
            body: _,
        } = self;
    }
}

/// A runtime assurance module: its advanced node, its safe node, the period and offset of its
/// decision node, its plant, the region to be kept, and the region from which the advanced node may
/// be trusted.
pub struct ModuleInfo {
    pub name: Name,
    pub ac: u32,
    pub sc: u32,
    pub period: u32,
    pub offset: u32,
    pub plant: u32,
    pub safe: Region,
    pub safer: Region,
}

impl Drop for ModuleInfo {
    fn drop(self) {
        let ModuleInfo {
            name: _,
            ac: _,
            sc: _,
            period: _,
            offset: _,
            plant: _,
            safe: _,
            safer: _,
        } = self;
    }
}
