//! What the closed cells of a module land in.

ghost use Rattle.std.specs.Prelude.{ℕ, Bool, List, ◌≡◌, ◌<◌, ◌↔◌, length, IsTrue, IfOk, OnOk};
ghost use Rattle.sot_lists.specs.Places.{At, Has};
ghost use Rattle.sot_box.specs.Sides.{Side as Interval_};
ghost use Rattle.sot_tube.specs.Certified.{IsWellCertified};
ghost use Rattle.sot_lang.specs.TableRules.{MeetsTableRules};
ghost use Rattle.sot_lang.specs.CertRules.{FitsTables};
ghost use Rattle.sot_law_runs.specs.Holds.{Guarded};
ghost use Rattle.sot_recover.specs.Grounds.{LandsInSet, MayHang, IsGround, AreLandingsCovered};

use crate::index::BoxIndex;
use crate::landing::Landing;
use crate::near::{covers_each, near_cells};
use crate::tube::{boxes_from, first_landing, put_tube};
use sot_box::{BoxN, Region};
use sot_lang::{Cert, Typed};
use std::alloc::{AllocError, Global};

/// The closed cells of a module, with a hull of the landings of each.
pub(crate) struct Ground<'a> {
    pub(crate) alloc: Global,
    pub(crate) p: &'a Typed,
    pub(crate) cert: &'a Cert,
    pub(crate) module: u32,
    pub(crate) cells: BoxIndex,
    pub(crate) hulls: BoxIndex,
}

impl Drop for Ground<'_> {
    fn drop(self) {
        let Ground {
            alloc: _,
            p: _,
            cert: _,
            module: _,
            cells: _,
            hulls: _,
        } = self;
    }
}

impl Ground<'_> {
    /// The cells alone.
    pub(crate) fn into_cells(self) -> BoxIndex
        ensures { result ≡ self.entry.cells }
    {
        let Ground {
            alloc: _,
            p: _,
            cert: _,
            module: _,
            cells,
            hulls: _,
        } = self;
        cells
    }
}

impl Landing for Ground<'_> {
    ghost lands = { λ x set i. LandsInSet x.p.now x.cert.now x.«module» set i };

    ghost hangs = { λ x j i. MayHang x.cells x.hulls j i };

    ghost is_sound = { λ x. IsGround x.p.now x.cert.now x.«module» x.cells x.hulls };

    fn lands(&self, set: &[bool], i: usize) -> Result<bool, AllocError> {
        lands_in_set(
            self.alloc,
            self.p,
            self.cert,
            self.module,
            &self.cells,
            &self.hulls,
            set,
            i,
        )
    }

    fn put_hanging(&self, j: usize, found: &mut Vec<usize>) -> Result<(), AllocError> {
        put_meeting_hulls(&self.cells, &self.hulls, j, found)
    }
}

// The places of the cells whose hulls meet a cell.
fn put_meeting_hulls(
    cells: &BoxIndex,
    hulls: &BoxIndex,
    j: usize,
    found: &mut Vec<usize>,
) -> Result<(), AllocError>
    ensures { OnOk result ((i : ℕ) → MayHang cells.now hulls.now j i → Has found.new.items i) }
{
    if j >= cells.len() {
        return Ok(());
    }
    hulls.put_meeting(&cells.at(j), found)?;
    Ok(())
}

// Whether a cell lands in the flagged ones. Where they cover the hull of its landings, they do so
// with each landing.
fn lands_in_set(
    alloc: Global,
    p: &Typed,
    cert: &Cert,
    module: u32,
    cells: &BoxIndex,
    hulls: &BoxIndex,
    set: &[bool],
    i: usize,
) -> Result<bool, AllocError>
    requires { IsGround p.now cert.now «module» cells.now hulls.now }
    ensures { IfOk result (λ b. IsTrue b ↔ LandsInSet p.now cert.now «module» set.now i) }
{
    if i >= hulls.len() {
        return Ok(false);
    }
    let hull = hulls.at(i);
    let near = near_cells(alloc, cells, set, &hull)?;
    if near.covers(&hull) {
        return Ok(true);
    }
    if cert.jitter == 0 {
        return Ok(false);
    }
    let lands = each_lands(alloc, p, cert, module, &cells.at(i), &near)?;
    Ok(lands)
}

// Whether each landing of a cell is covered.
fn each_lands(
    alloc: Global,
    p: &Typed,
    cert: &Cert,
    module: u32,
    cell: &BoxN,
    near: &Region,
) -> Result<bool, AllocError>
    requires module_is { «module» < length p.now.modules }
    requires rules { MeetsTableRules p.now }
    requires certified { IsWellCertified p.now cert.now.jitter cert.now }
    requires fits { FitsTables p.now cert.now }
    requires closed { (g : Guarded p.now cert.now «module») → Has g.cells.closed.boxes cell.now }
    requires width { near.now.width ≡ length cell.now }
    ensures { IfOk result (λ b. (g : Guarded p.now cert.now «module»)
        → IsTrue b ↔ AreLandingsCovered g cell.now near.now.boxes) }
{
    let mut boxes = Vec::new(alloc);
    put_tube(p, cert, module, cell, &mut boxes)?;
    let first = first_landing(p, cert, module);
    Ok(covers_each(near, boxes_from(&boxes, first)))
}
