//! What is found of the closed cells of a module, one after another.

ghost use Rattle.std.specs.Prelude.{ℕ, Bool, true, false, List, ◌∷◌, [], ◌++◌, ◌≡◌, ◌<◌, ◌⊎◌, ◌↔◌};
ghost use Rattle.std.specs.Prelude.{length, OnOk, IfOk};
ghost use Rattle.sot_lists.specs.Places.{At, Has};
ghost use Rattle.sot_tube.specs.Certified.{IsWellCertified};
ghost use Rattle.sot_lang.specs.TableRules.{MeetsTableRules};
ghost use Rattle.sot_lang.specs.CertRules.{FitsTables};
ghost use Rattle.sot_law_runs.specs.Holds.{Guarded};
ghost use Rattle.sot_law_runs.specs.Ranks.{StaysSafer};
ghost use Rattle.sot_recover.specs.Grounds.{IsHullOf};
ghost use Rattle.sot_recover.specs.Surveys.{IsSurveyed};

use crate::hull::hull_of;
use crate::near::covers_each;
use crate::tube::{boxes_from, first_landing, put_tube};
use sot_box::{BoxN, Region};
use sot_lang::{Cert, Typed};
use sot_rta::module_at;
use std::alloc::{AllocError, Global};

/// What is found of one cell.
#[derive(Clone, Copy)]
pub(crate) struct Finding {
    /// A box around its landings.
    pub(crate) hull: BoxN,
    /// Whether its tube is inside the safer region.
    pub(crate) stays: bool,
}

// What is found of a closed cell.
fn find(
    p: &Typed,
    cert: &Cert,
    module: u32,
    cell: &BoxN,
    boxes: &mut Vec<BoxN>,
) -> Result<Finding, AllocError>
    requires module_is { «module» < length p.now.modules }
    requires rules { MeetsTableRules p.now }
    requires certified { IsWellCertified p.now cert.now.jitter cert.now }
    requires fits { FitsTables p.now cert.now }
    requires closed { (g : Guarded p.now cert.now «module») → Has g.cells.closed.boxes cell.now }
    ensures hull { IfOk result (λ f. (g : Guarded p.now cert.now «module»)
        → IsHullOf g cell.now f.hull) }
    ensures stays { IfOk result (λ f. (g : Guarded p.now cert.now «module»)
        → (f.stays ≡ true) ↔ StaysSafer g cell.now) }
{
    put_tube(p, cert, module, cell, boxes)?;
    let first = first_landing(p, cert, module);
    let info = module_at(p, module);
    Ok(Finding {
        hull: hull_of(boxes_from(boxes, first)),
        stays: covers_each(&info.safer, boxes),
    })
}

// Puts a place behind the others, unless it is not to be there.
fn push_unless(places: &mut Vec<usize>, unwanted: bool, i: usize) -> Result<(), AllocError>
    ensures { OnOk result ((k : ℕ) → Has places.new.items k
        ↔ (Has places.old.items k ⊎ ((k ≡ i) × (unwanted ≡ false)))) }
{
    if unwanted {
        return Ok(());
    }
    places.push(i)?;
    Ok(())
}

// Notes what was found of the next cell.
fn note(
    found: Finding,
    i: usize,
    hulls: &mut Vec<BoxN>,
    set: &mut Vec<bool>,
    leaving: &mut Vec<usize>,
) -> Result<(), AllocError>
    ensures hulls { OnOk result (hulls.new.items ≡ hulls.old.items ++ found.hull ∷ []) }
    ensures set { OnOk result (set.new.items ≡ set.old.items ++ found.stays ∷ []) }
    ensures leaving { OnOk result ((k : ℕ) → Has leaving.new.items k
        ↔ (Has leaving.old.items k ⊎ ((k ≡ i) × (found.stays ≡ false)))) }
{
    hulls.push(found.hull)?;
    set.push(found.stays)?;
    push_unless(leaving, found.stays, i)?;
    Ok(())
}

/// Finds of each closed cell a hull of its landings and whether its tube is inside the safer
/// region; the places of those of which it is not go behind `leaving`. All three lists are empty
/// before.
pub(crate) fn survey(
    alloc: Global,
    p: &Typed,
    cert: &Cert,
    module: u32,
    cells: &Region,
    hulls: &mut Vec<BoxN>,
    set: &mut Vec<bool>,
    leaving: &mut Vec<usize>,
) -> Result<(), AllocError>
    requires module_is { «module» < length p.now.modules }
    requires rules { MeetsTableRules p.now }
    requires certified { IsWellCertified p.now cert.now.jitter cert.now }
    requires fits { FitsTables p.now cert.now }
    requires cells_are { (g : Guarded p.now cert.now «module»)
        → cells.now.boxes ≡ g.cells.closed.boxes }
    requires no_hulls { hulls.old.items ≡ [] }
    requires no_set { set.old.items ≡ [] }
    ensures { OnOk result (IsSurveyed p.now cert.now «module» (length cells.now.boxes)
        cells.now.boxes hulls.new.items set.new.items leaving.new.items) }
{
    let mut boxes = Vec::new(alloc);
    for i in 0..cells.len() {
        let found = find(p, cert, module, &cells.at(i), &mut boxes)?;
        note(found, i, hulls, set, leaving)?;
    }
    Ok(())
}
