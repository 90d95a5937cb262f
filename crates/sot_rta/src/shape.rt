//! The shape of a module: its entry in the certificate, its periods, its outputs and its regions.

ghost use Rattle.std.specs.Prelude.{◌≡◌, ◌<◌, length};
ghost use Rattle.sot_lang.specs.CertRules.{FitsTables};
ghost use Rattle.sot_lang.specs.TableRules.{MeetsTableRules};
ghost use Rattle.sot_lists.specs.Places.{At};
ghost use Rattle.sot_lang.specs.declared.tables.ModuleInfo.{ModuleInfo as Info};
ghost use Rattle.sot_tube.specs.Verdict.{entry, periods, outputs, boxes, shape};
ghost use Rattle.sot_tube.specs.Checks.{and_then};
ghost use Rattle.sot_rta.specs.Refused.{Answers};

use crate::places::{module_at, node_at};
use crate::refusal::Refusal;
use crate::topics::first_of_one_alone;
use sot_lang::{Cert, ModuleInfo, Typed};

fn entry(c: &Cert, module: u32) -> Result<(), Refusal>
    requires { «module» < length c.now.modules.items }
    ensures { Answers (entry c.now «module») result }
{
    if c.modules[module as usize].is_some() {
        Ok(())
    } else {
        Err(Refusal::NoCells { module })
    }
}

fn periods(p: &Typed, module: u32, info: &ModuleInfo) -> Result<(), Refusal>
    requires is { At p.now.modules «module» info.now }
    requires rules { MeetsTableRules p.now }
    ensures { Answers (periods p.now «module» info.now) result }
{
    if node_at(p, info.ac).period > info.period {
        return Err(Refusal::Periods {
            module,
            node: info.ac,
        });
    }
    if node_at(p, info.sc).period > info.period {
        return Err(Refusal::Periods {
            module,
            node: info.sc,
        });
    }
    Ok(())
}

fn outputs(p: &Typed, module: u32, info: &ModuleInfo) -> Result<(), Refusal>
    requires is { At p.now.modules «module» info.now }
    requires rules { MeetsTableRules p.now }
    ensures { Answers (outputs p.now «module» info.now) result }
{
    let topics = p.topics.len() as u32;
    let ac = node_at(p, info.ac);
    let sc = node_at(p, info.sc);
    match first_of_one_alone(&p.scalars, topics, &ac.writes, &sc.writes) {
        Some(topic) => Err(Refusal::Outputs { module, topic }),
        None => Ok(()),
    }
}

/// Whether neither region of a module is empty, the safe one first. Takes no memory.
pub fn check_regions(module: u32, info: &ModuleInfo) -> Result<(), Refusal>
    ensures { Answers (boxes «module» info.now) result }
{
    if info.safe.len() == 0 {
        return Err(Refusal::EmptyRegion {
            module,
            safer: false,
        });
    }
    if info.safer.len() == 0 {
        return Err(Refusal::EmptyRegion {
            module,
            safer: true,
        });
    }
    Ok(())
}

// The shape of a module that was found: its entry in the certificate, its periods, its outputs and
// its regions, in this order. Takes no memory.
fn shape_of(p: &Typed, module: u32, info: &ModuleInfo, c: &Cert) -> Result<(), Refusal>
    requires is { At p.now.modules «module» info.now }
    requires rules { MeetsTableRules p.now }
    requires entries { «module» < length c.now.modules.items }
    ensures { Answers (shape p.now c.now «module» info.now) result }
{
    entry(c, module)?;
    periods(p, module, info)?;
    outputs(p, module, info)?;
    check_regions(module, info)
}

// The periods and the outputs of a module that was found.
fn nodes_of(p: &Typed, module: u32, info: &ModuleInfo) -> Result<(), Refusal>
    requires is { At p.now.modules «module» info.now }
    requires rules { MeetsTableRules p.now }
    ensures { Answers (and_then (periods p.now «module» info.now) (outputs p.now «module» info.now))
        result }
{
    periods(p, module, info)?;
    outputs(p, module, info)
}

/// Whether a module's two nodes have short periods and outputs in common, in this order. It asks
/// for no certificate, and takes no memory.
pub fn check_nodes(p: &Typed, module: u32) -> Result<(), Refusal>
    requires module_is { «module» < length p.now.modules }
    ensures { (a : Info) → At p.now.modules «module» a
        → Answers (and_then (periods p.now «module» a) (outputs p.now «module» a)) result }
{
    nodes_of(p, module, module_at(p, module))
}

/// Whether a module has an entry in the certificate, short periods, outputs in common and regions
/// that are not empty, in this order. Takes no memory.
pub fn check_shape(p: &Typed, module: u32, c: &Cert) -> Result<(), Refusal>
    requires module_is { «module» < length p.now.modules }
    requires fits { FitsTables p.now c.now }
    ensures { (a : Info) → At p.now.modules «module» a
        → Answers (shape p.now c.now «module» a) result }
{
    shape_of(p, module, module_at(p, module), c)
}
