//! Things of a program by their places.

ghost use Rattle.std.specs.Prelude.{◌<◌, length};
ghost use Rattle.sot_lists.specs.Places.{At, Has};
ghost use Rattle.sot_lang.specs.TableRules.{MeetsTableRules};

use sot_lang::{ModuleInfo, NodeInfo, PlantInfo, Typed};

#[tactic(auto, using(sot_lists::proofs::Places::read_at))]
pub fn node_at(p: &Typed, node: u32) -> &NodeInfo
    requires { node < length p.now.nodes }
    ensures is { At p.now.nodes node result.now }
{
    &p.nodes[node as usize]
}

pub fn plant_at(p: &Typed, plant: u32) -> &PlantInfo
    requires { plant < length p.now.plants }
    ensures is { At p.now.plants plant result.now }
{
    &p.plants[plant as usize]
}

pub fn module_at(p: &Typed, module: u32) -> &ModuleInfo
    requires { «module» < length p.now.modules }
    ensures is { At p.now.modules «module» result.now }
    ensures rules { MeetsTableRules p.now }
{
    &p.modules[module as usize]
}
