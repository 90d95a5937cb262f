//! Within how many holds a module recovers.

ghost use Rattle.std.specs.Prelude.{ℕ, ℤ, Bool, List, ◌≡◌, ◌<◌, ◌≤◌, length, IfOk, IfErr, OnOk};
ghost use Rattle.sot_lists.specs.Places.{At};
ghost use Rattle.sot_tube.specs.Certified.{IsWellCertified};
ghost use Rattle.sot_lang.specs.TableRules.{MeetsTableRules};
ghost use Rattle.sot_lang.specs.OwnerNames.{width_of};
ghost use Rattle.sot_lang.specs.CertRules.{FitsTables};
ghost use Rattle.sot_law_runs.specs.Holds.{Guarded, IsRecovered};
ghost use Rattle.sot_law_runs.specs.Ranks.{IsRank, HasNoRank};
ghost use Rattle.sot_law_runs.specs.RunHolds.{FiringsAreHolds, TrustsAfter};
ghost use Rattle.sot_recover.specs.Answers.{IfNever};
ghost use Rattle.sot_recover.specs.Grounds.{IsGround};
ghost use Rattle.sot_recover.specs.Surveys.{IsSurveyed};
ghost use Rattle.sot_recover.specs.Found.{AreRanksOf};

use crate::fail::RecoverFail;
use crate::ground::Ground;
use crate::growing::grow;
use crate::index::BoxIndex;
use crate::least::least_rank;
use crate::shrinking::shrink;
use crate::survey::survey;
use sot_box::{BoxN, Region};
use sot_lang::{Cert, ModuleInfo, Typed};
use sot_rta::{module_at, plant_at};
use sot_tube::Accepted;
use std::alloc::{AllocError, Global};

// The closed cells that the certificate gives for a module.
fn closed_cells<'a>(p: &Typed, cert: &'a Cert, module: u32) -> &'a Region
    requires module_is { «module» < length p.now.modules }
    requires rules { MeetsTableRules p.now }
    requires certified { IsWellCertified p.now cert.now.jitter cert.now }
    requires fits { FitsTables p.now cert.now }
    ensures { (g : Guarded p.now cert.now «module») → result.now ≡ g.cells.closed }
{
    match &cert.modules[module as usize] {
        Some(cells) => &cells.closed,
        None => unreachable!(),
    }
}

// The boxes of a region.
fn boxes_of(alloc: Global, region: &Region) -> Result<Vec<BoxN>, AllocError>
    ensures { IfOk result (λ v. v.items ≡ region.now.boxes) }
{
    let mut boxes = Vec::with_capacity(alloc, region.len())?;
    for i in 0..region.len() {
        boxes.push(region.at(i))?;
    }
    Ok(boxes)
}

// So many numbers, each of them 0.
fn zeros(alloc: Global, size: usize) -> Result<Vec<u32>, AllocError>
    ensures { IfOk result (λ v. length v.items ≡ size) }
{
    let mut ranks = Vec::with_capacity(alloc, size)?;
    for _i in 0..size {
        ranks.push(0)?;
    }
    Ok(ranks)
}

// The ranks of all cells, of which those are flagged whose tubes are inside the safer region.
fn rank_cells(
    alloc: Global,
    ground: &Ground<'_>,
    set: &mut [bool],
    leaving: Vec<usize>,
    ranks: &mut [u32],
) -> Result<(), AllocError>
    requires ground { IsGround ground.now.p.now ground.now.cert.now ground.now.«module»
        ground.now.cells ground.now.hulls }
    requires surveyed { IsSurveyed ground.now.p.now ground.now.cert.now ground.now.«module»
        (length ground.now.cells) ground.now.cells ground.now.hulls set.old leaving.items }
    requires few { length ground.now.cells ≤ 4096 }
    requires count { length ranks.old ≡ length ground.now.cells }
    ensures { OnOk result ((g : Guarded ground.now.p.now ground.now.cert.now ground.now.«module»)
        → AreRanksOf g ranks.new) }
{
    shrink(alloc, ground, set, leaving)?;
    grow(alloc, ground, set, ranks)?;
    Ok(())
}

// The closed cells of a module with their ranks.
struct RankedCells {
    cells: BoxIndex,
    ranks: Vec<u32>,
}

impl Drop for RankedCells {
    fn drop(self) {
        let RankedCells { cells: _, ranks: _ } = self;
    }
}

// The closed cells of a module with their ranks.
fn ranked_cells(
    alloc: Global,
    p: &Typed,
    cert: &Cert,
    module: u32,
) -> Result<RankedCells, AllocError>
    requires module_is { «module» < length p.now.modules }
    requires rules { MeetsTableRules p.now }
    requires certified { IsWellCertified p.now cert.now.jitter cert.now }
    requires fits { FitsTables p.now cert.now }
    ensures cells { IfOk result (λ r. (g : Guarded p.now cert.now «module»)
        → r.cells ≡ g.cells.closed.boxes) }
    ensures ranks { IfOk result (λ r. (g : Guarded p.now cert.now «module»)
        → AreRanksOf g r.ranks.items) }
{
    let closed = closed_cells(p, cert, module);
    let cells = BoxIndex::of(alloc, boxes_of(alloc, closed)?)?;
    let mut hulls = Vec::new(alloc);
    let mut set = Vec::new(alloc);
    let mut leaving = Vec::new(alloc);
    survey(
        alloc,
        p,
        cert,
        module,
        closed,
        &mut hulls,
        &mut set,
        &mut leaving,
    )?;
    let mut ranks = zeros(alloc, closed.len())?;
    let hulls = BoxIndex::of(alloc, hulls)?;
    let ground = Ground {
        alloc,
        p,
        cert,
        module,
        cells,
        hulls,
    };
    rank_cells(alloc, &ground, &mut set, leaving, &mut ranks)?;
    let cells = ground.into_cells();
    Ok(RankedCells { cells, ranks })
}

// How many state variables the module's plant has.
#[tactic(auto, using(sot_lang::proofs::Owners::width_at))]
fn width_of(p: &Typed, info: &ModuleInfo) -> usize
    requires { info.now.plant < length p.now.plants }
    ensures { result ≡ width_of p.now.plants info.now.plant }
{
    plant_at(p, info.plant).states.len()
}

// Within how many holds a module of a certified program recovers.
fn within(alloc: Global, p: &Typed, cert: &Cert, module: u32) -> Result<u32, RecoverFail>
    requires module_is { «module» < length p.now.modules }
    requires certified { IsWellCertified p.now cert.now.jitter cert.now }
    requires fits { FitsTables p.now cert.now }
    ensures rank { IfOk result (λ n. (g : Guarded p.now cert.now «module») → IsRank g n) }
    ensures recovered { IfOk result (λ n. (g : Guarded p.now cert.now «module») → IsRecovered g n) }
    ensures holds { (g : Guarded p.now cert.now «module») → FiringsAreHolds g }
    ensures trusts { IfOk result (λ n. (g : Guarded p.now cert.now «module») → TrustsAfter g n) }
    ensures few { IfOk result (λ n. n ≤ 4096) }
    ensures never { IfErr result (λ f.
        IfNever f (λ s. (g : Guarded p.now cert.now «module») → HasNoRank g s)) }
{
    let info = module_at(p, module);
    let found = ranked_cells(alloc, p, cert, module)?;
    let width = width_of(p, info);
    let top = found.ranks.len() as u32;
    least_rank(alloc, &info.safe, width, &found.cells, &found.ranks, top)
}

/// Within how many holds of its safe node a module recovers: the least rank whose closed cells
/// cover its safe region. `Never` comes exactly where there is no rank, with the first point of the
/// safe region that the cells of all ranks leave out.
pub fn recover_within(alloc: Global, acc: &Accepted<'_>, module: u32) -> Result<u32, RecoverFail>
    requires module_is { «module» < length acc.now.program.modules }
    requires fits { FitsTables acc.now.program acc.now.cert }
    ensures rank { (g : Guarded acc.now.program acc.now.cert «module»)
        → IfOk result (λ n. IsRank g n) }
    ensures recovered { (g : Guarded acc.now.program acc.now.cert «module»)
        → IfOk result (λ n. IsRecovered g n) }
    ensures holds { (g : Guarded acc.now.program acc.now.cert «module») → FiringsAreHolds g }
    ensures trusts { (g : Guarded acc.now.program acc.now.cert «module»)
        → IfOk result (λ n. TrustsAfter g n) }
    ensures few { IfOk result (λ n. n ≤ 4096) }
    ensures never { (g : Guarded acc.now.program acc.now.cert «module»)
        → IfErr result (λ f. IfNever f (λ s. HasNoRank g s)) }
{
    within(alloc, acc.typed(), acc.cert(), module)
}
