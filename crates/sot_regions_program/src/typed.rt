//! A program that is read again, with other regions.

ghost use Rattle.std.specs.Prelude.{◌≡◌, ◌≤◌, length, IfOk};
ghost use Rattle.sot_syntax_tree.specs.Trees.{Program as Tree};
ghost use Rattle.sot_syntax_tree.specs.TreeViews.{program_view};
ghost use Rattle.sot_syntax_tree.specs.Formed.{IsFormed};
ghost use Rattle.sot_parser.specs.Programs.{Spells};
ghost use Rattle.sot_rules.specs.First.{IsFaultless};
ghost use Rattle.sot_report.specs.Missions.{Resolves};
ghost use Rattle.sot_regions_rewrite.specs.OtherRegions.{with_regions};
ghost use Rattle.sot_cli.specs.Texts.{input_limit};
ghost use Rattle.sot_regions_program.specs.Steps.{MayTake};

use sot_lang::Typed;
use sot_parser::{ParseFail, parse};
use sot_regions_rewrite::{ModuleRegions, with_regions};
use sot_rules::TypeFail;
use sot_syntax_tree::Program;
use sot_text::Lexer;
use sot_typing::resolve;
use std::alloc::{AllocError, Global};

/// A program, with its tables.
#[derive(Drop)]
pub struct TypedProgram {
    pub program: Program,
    pub tables: Typed,
}

/// The program that a text spells.
pub fn spelled(alloc: Global, text: &[u8]) -> Result<Program, AllocError>
    requires short { length text.now ≤ input_limit }
    requires spelled { (p : Tree) × Spells text.now 0 p }
    ensures { IfOk result (λ program. Spells text.now 0 (program_view program)) }
{
    match parse(alloc, &Lexer::new(text)) {
        Ok(program) => Ok(program),
        Err(ParseFail::Syntax(_)) => unreachable!(),
        Err(ParseFail::Memory) => Err(AllocError),
    }
}

// The tables of a program that breaks no rule of typing.
fn tables_of(alloc: Global, program: &Program) -> Result<Typed, AllocError>
    requires formed { IsFormed (program_view program.now) }
    requires faultless { IsFaultless (program_view program.now) }
    ensures { IfOk result (λ tables. Resolves (program_view program.now) tables) }
{
    match resolve(alloc, program) {
        Ok(tables) => Ok(tables),
        Err(TypeFail::Fault(_)) => unreachable!(),
        Err(TypeFail::Memory) => Err(AllocError),
    }
}

/// The program that a text spells, with these regions, one pair a module in declared order, and its
/// tables. It is read again, since its tree is changed in place.
pub fn typed_with(
    alloc: Global,
    text: &[u8],
    regions: &[ModuleRegions],
) -> Result<TypedProgram, AllocError>
    requires short { length text.now ≤ input_limit }
    requires may { MayTake text.now regions.now }
    ensures { IfOk result (λ typed. (p : Tree) → Spells text.now 0 p
        → (program_view typed.program ≡ with_regions regions.now p)
        × Resolves (with_regions regions.now p) typed.tables) }
{
    let given = spelled(alloc, text)?;
    let program = with_regions(alloc, given, regions)?;
    let tables = tables_of(alloc, &program)?;
    Ok(TypedProgram { program, tables })
}
