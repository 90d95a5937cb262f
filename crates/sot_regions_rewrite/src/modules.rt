//! Modules with other regions.

ghost use Rattle.std.specs.Prelude.{◌≡◌, IfOk};
ghost use Rattle.sot_syntax_tree.specs.TreeViews.{module_view};
ghost use Rattle.sot_regions_rewrite.specs.OtherRegions.{module_with};

use crate::boxes::boxes_like;
use sot_box::Region;
use sot_syntax_tree::{Ident, ModuleDecl};
use std::alloc::{AllocError, Global};

/// The regions of a module, whose boxes have one side for each state variable of its plant.
#[derive(Drop)]
pub struct ModuleRegions {
    pub safe: Region,
    pub safer: Region,
}

fn copy_name(alloc: Global, given: &Ident) -> Result<Ident, AllocError>
    ensures { IfOk result (λ i. i ≡ given.now) }
{
    Ok(Ident {
        name: given.name.copy(alloc)?,
        at: given.at,
    })
}

/// A module with these regions, written as the first box of its `safe` is.
pub(crate) fn module_with(
    alloc: Global,
    module: &ModuleDecl,
    regions: &ModuleRegions,
) -> Result<ModuleDecl, AllocError>
    ensures { IfOk result (λ m. module_view m
        ≡ module_with regions.now (module_view «module».now)) }
{
    Ok(ModuleDecl {
        name: copy_name(alloc, &module.name)?,
        ac: copy_name(alloc, &module.ac)?,
        sc: copy_name(alloc, &module.sc)?,
        period: module.period,
        offset: module.offset,
        plant: copy_name(alloc, &module.plant)?,
        safe: boxes_like(alloc, &module.safe, &regions.safe)?,
        safer: boxes_like(alloc, &module.safe, &regions.safer)?,
    })
}
