//! Programs with other regions.

ghost use Rattle.std.specs.Prelude.{◌≡◌, ◌≤◌, length, map, drop, IfOk, OnOk};
ghost use Rattle.sot_syntax_tree.specs.TreeViews.{declaration_view, program_view};
ghost use Rattle.sot_regions_rewrite.specs.OtherRegions.{declaration_with, left_behind};
ghost use Rattle.sot_regions_rewrite.specs.OtherRegions.{declarations_with, with_regions};

use crate::modules::{ModuleRegions, module_with};
use sot_syntax_tree::{Apart, Decl, Program};
use std::alloc::{AllocError, Global};

// Gives a module the regions at place `next`, where there are some, and says which come after.
fn put_next(
    alloc: Global,
    decl: &mut Decl,
    regions: &[ModuleRegions],
    next: usize,
) -> Result<usize, AllocError>
    requires { next ≤ length regions.now }
    ensures changed { OnOk result (declaration_view decl.new
        ≡ declaration_with (drop next regions.now) (declaration_view decl.old)) }
    ensures left { IfOk result (λ after. drop after regions.now
        ≡ left_behind (declaration_view decl.old) (drop next regions.now)) }
    ensures within { IfOk result (λ after. after ≤ length regions.now) }
{
    if next >= regions.len() {
        return Ok(next);
    }
    if let Decl::Module(module) = decl {
        let changed = module_with(alloc, module.content(), &regions[next])?;
        *decl = Decl::Module(Apart::new(alloc, changed)?);
        return Ok(next + 1);
    }
    Ok(next)
}

fn put_regions(
    alloc: Global,
    decls: &mut Vec<Decl>,
    regions: &[ModuleRegions],
) -> Result<(), AllocError>
    ensures { OnOk result (map declaration_view decls.new.items
        ≡ declarations_with regions.now (map declaration_view decls.old.items)) }
{
    let mut next = 0;
    for k in 0..decls.len() {
        next = put_next(alloc, &mut decls[k], regions, next)?;
    }
    Ok(())
}

/// The program with these regions, one pair a module in declared order; modules past their end keep
/// their own. The boxes are written with as many decimals as the first box of the module's `safe`,
/// in whose scales they are, and at its place; where `safe` has no box, there are none. Nothing
/// else of the program changes. Where there is no memory, the program is let go.
pub fn with_regions(
    alloc: Global,
    program: Program,
    regions: &[ModuleRegions],
) -> Result<Program, AllocError>
    ensures { IfOk result (λ changed. program_view changed
        ≡ with_regions regions.now (program_view program)) }
{
    let mut decls = program.decls;
    put_regions(alloc, &mut decls, regions)?;
    Ok(Program { decls })
}
