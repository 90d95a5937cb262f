//! How the modules of a program are put together.

ghost use Rattle.std.specs.Prelude.{◌≡◌, ◌<◌, length};
ghost use Rattle.sot_lists.specs.Places.{At};
ghost use Rattle.sot_lang.specs.TableRules.{MeetsTableRules};
ghost use Rattle.sot_tube.specs.Checks.{for_each};
ghost use Rattle.sot_tube.specs.Verdict.{shared_node, shared_output, shared_plant, foreign_input};
ghost use Rattle.sot_tube.specs.Verdict.{composition};
ghost use Rattle.sot_rta.specs.Refused.{Answers};

use crate::outputs::first_shared_output;
use crate::parts::{Part, first_shared};
use sot_lang::{ModuleInfo, Typed};
use sot_rta::{Refusal, first_missing, module_at, node_at, plant_at};

fn own_nodes(p: &Typed) -> Result<(), Refusal>
    requires { MeetsTableRules p.now }
    ensures { Answers (shared_node p.now) result }
{
    match first_shared(Part::Node, &p.modules, p.nodes.len() as u32) {
        Some(clash) => Err(Refusal::SharedNode {
            node: clash.what,
            a: clash.a,
            b: clash.b,
        }),
        None => Ok(()),
    }
}

fn own_outputs(p: &Typed) -> Result<(), Refusal>
    requires { MeetsTableRules p.now }
    ensures { Answers (shared_output p.now) result }
{
    match first_shared_output(p) {
        Some(clash) => Err(Refusal::SharedOutput {
            topic: clash.what,
            a: clash.a,
            b: clash.b,
        }),
        None => Ok(()),
    }
}

fn own_plants(p: &Typed) -> Result<(), Refusal>
    requires { MeetsTableRules p.now }
    ensures { Answers (shared_plant p.now) result }
{
    match first_shared(Part::Plant, &p.modules, p.plants.len() as u32) {
        Some(clash) => Err(Refusal::SharedPlant {
            plant: clash.what,
            a: clash.a,
            b: clash.b,
        }),
        None => Ok(()),
    }
}

fn own_inputs_of(p: &Typed, module: u32, info: &ModuleInfo) -> Result<(), Refusal>
    requires is { At p.now.modules «module» info.now }
    requires rules { MeetsTableRules p.now }
    ensures { Answers (foreign_input p.now «module» info.now) result }
{
    let inputs = &plant_at(p, info.plant).inputs;
    let writes = &node_at(p, info.sc).writes;
    match first_missing(&p.scalars, p.topics.len() as u32, inputs, writes) {
        Some(topic) => Err(Refusal::ForeignInput { module, topic }),
        None => Ok(()),
    }
}

fn own_inputs(p: &Typed) -> Result<(), Refusal>
    requires { MeetsTableRules p.now }
    ensures { Answers (for_each p.now.modules (foreign_input p.now)) result }
{
    for module in 0..p.modules.len() as u32 {
        if let Err(refusal) = own_inputs_of(p, module, module_at(p, module)) {
            return Err(refusal);
        }
    }
    Ok(())
}

/// Whether modules share no node, no output and no plant, and each commands its plant alone, in
/// this order.
pub fn check_composition(p: &Typed) -> Result<(), Refusal>
    requires { MeetsTableRules p.now }
    ensures { Answers (composition p.now) result }
{
    if let Err(refusal) = own_nodes(p) {
        return Err(refusal);
    }
    if let Err(refusal) = own_outputs(p) {
        return Err(refusal);
    }
    if let Err(refusal) = own_plants(p) {
        return Err(refusal);
    }
    own_inputs(p)
}
