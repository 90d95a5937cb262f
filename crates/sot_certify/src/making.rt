//! The lists of all modules, and the certificate.

ghost use Rattle.std.specs.Prelude.{◌≡◌, length, IfOk, IfErr, MatchResult};
ghost use Rattle.sot_lists.specs.Places.{At};
ghost use Rattle.sot_lang.specs.TableRules.{MeetsTableRules};
ghost use Rattle.sot_lang.specs.CertRules.{FitsTables};
ghost use Rattle.sot_tube.specs.Certified.{IsWellCertified};
ghost use Rattle.sot_world.specs.Headline.{EveryRunIsSafe};
ghost use Rattle.sot_rta.specs.Cells.{MayHaveCells};
ghost use Rattle.sot_certify.specs.Certifying.{Certifies};
ghost use Rattle.sot_certify.specs.Points.{IfPointLeaves};
ghost use Rattle.sot_certify.specs.Steps.{AreListsOf, HasNoCells, named, AreEntriesTo};
ghost use Rattle.sot_certify.specs.Steps.{HasNoEntries};

use crate::fail::CertifyFail;
use crate::listing::{ListFail, list_of};
use sot_compose::{LookedAt, check_without_cells};
use sot_lang::{Cells, Cert, ModuleInfo, Typed};
use sot_rta::module_at;
use std::alloc::Global;

// The failure of a list, with the module and the sort of the list.
fn named(module: u32, reach: bool, fail: ListFail) -> CertifyFail
    ensures { result ≡ named «module» reach fail }
{
    match fail {
        ListFail::Point(point) => CertifyFail::Point {
            module,
            reach,
            point,
        },
        ListFail::TooMany => CertifyFail::TooMany { module, reach },
        ListFail::Memory => CertifyFail::Memory,
    }
}

// Both lists of a module, the closed cells first.
fn cells_of(alloc: Global, p: &Typed, module: u32, info: &ModuleInfo) -> Result<Cells, CertifyFail>
    requires is { At p.now.modules «module» info.now }
    requires rules { MeetsTableRules p.now }
    requires may { MayHaveCells p.now }
    ensures { MatchResult result (AreListsOf p.now info.now) (HasNoCells p.now «module» info.now) }
{
    let closed = match list_of(alloc, p, module, info, false) {
        Ok(list) => list,
        Err(fail) => return Err(named(module, false, fail)),
    };
    let reach = match list_of(alloc, p, module, info, true) {
        Ok(list) => list,
        Err(fail) => return Err(named(module, true, fail)),
    };
    Ok(Cells { closed, reach })
}

// The entry of each module, in order.
fn entries(alloc: Global, p: &Typed) -> Result<Vec<Option<Cells>>, CertifyFail>
    requires rules { MeetsTableRules p.now }
    requires may { MayHaveCells p.now }
    ensures { MatchResult result (λ v. AreEntriesTo p.now v.items (length p.now.modules))
        (HasNoEntries p.now) }
{
    let mut found = Vec::new(alloc);
    for module in 0..p.modules.len() as u32 {
        match cells_of(alloc, p, module, module_at(p, module)) {
            Ok(cells) => found.push(Some(cells))?,
            Err(fail) => return Err(fail),
        }
    }
    Ok(found)
}

/// The certificate of a program whose regions are given: for each module the boxes of its safe
/// region, in order, are halved until each is a closed cell, and those of its safer region until
/// each is a reach cell, with firings on time. A cut goes through the widest side, of equal ones
/// the first, behind the middle, and the low half comes first. The program is well certified with
/// it, so every run from plants in their safer regions is safe.
///
/// There is none where a condition that speaks of no cells fails; else where the first list that
/// cannot be made, in the order of the modules and closed cells before reach cells, meets a single
/// point that is not good, or a 4,097th cell, whichever comes first. From that point the tube
/// leaves the safe region, or a step of it may trap: of closed cells under what the safe node
/// surely drafts there, for its period; of reach cells under any commands, for two periods of the
/// module.
pub fn certify(alloc: Global, p: &Typed) -> Result<Cert, CertifyFail>
    ensures answer { Certifies p.now result }
    ensures point { IfErr result (λ fail. IfPointLeaves p.now fail) }
    ensures fits { IfOk result (λ cert. FitsTables p.now cert) }
    ensures certified { IfOk result (λ cert. IsWellCertified p.now 0 cert) }
    ensures safe { IfOk result (λ _. EveryRunIsSafe p.now 0) }
{
    // A look at the tables brings their rules, which their type keeps.
    let _modules = p.modules.len();
    if let Err(refusal) = check_without_cells(p, LookedAt::BothRegions) {
        return Err(CertifyFail::Refused(refusal));
    }
    let modules = entries(alloc, p)?;
    Ok(Cert { jitter: 0, modules })
}
