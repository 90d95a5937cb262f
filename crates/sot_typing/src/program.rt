//! A program's tables, or the first rule of typing that it breaks.
ghost use Rattle.std.specs.Prelude.{◌≡◌, IfOk, IfErr};
ghost use Rattle.sot_syntax_tree.specs.TreeViews.{program_view};
ghost use Rattle.sot_rules.specs.First.{IsFirstFault, IsFaultless};
ghost use Rattle.sot_syntax_tree.specs.Formed.{IsFormed};
ghost use Rattle.sot_rules.specs.declared.fault.TypeFault.{TypeFault as AFault};
ghost use Rattle.sot_rules.specs.declared.fault.TypeFail.TheVariants.{Fault};
ghost use Rattle.sot_rules.specs.Indexes.{program_in, IsIndex};
ghost use Rattle.sot_typing.specs.Resolved.{AreTables};

use crate::names::numbers::numbers;
use crate::tables::lists::all_tables;
use sot_lang::Typed;
use sot_rules::{Index, TypeFail, first_fault};
use sot_syntax_tree::Program;
use std::alloc::{AllocError, Global};

// The tables of the program of an index, in which no rule of typing fails.
fn indexed_tables(alloc: Global, index: &Index) -> Result<Typed, AllocError>
    requires indexed { IsIndex index.now }
    requires formed { IsFormed (program_in index.now) }
    requires faultless { IsFaultless (program_in index.now) }
    ensures { IfOk result (λ t. AreTables (program_in index.now) t) }
{
    let numbers = numbers(alloc, index.decls)?;
    all_tables(alloc, index, &numbers)
}

// The tables of the program of an index, or the first rule of typing that it breaks. So the names
// of a program are put into tables once.
fn indexed(alloc: Global, index: &Index) -> Result<Typed, TypeFail>
    requires indexed { IsIndex index.now }
    requires formed { IsFormed (program_in index.now) }
    ensures faultless { IfOk result (λ t. IsFaultless (program_in index.now)) }
    ensures tables { IfOk result (λ t. AreTables (program_in index.now) t) }
    ensures fault { IfErr result
        (λ e. (f : AFault) → e ≡ Fault f → IsFirstFault (program_in index.now) f) }
{
    if let Some(fault) = first_fault(alloc, index)? {
        return Err(TypeFail::Fault(fault));
    }
    Ok(indexed_tables(alloc, index)?)
}

/// The tables of a program, or the first rule of typing that it breaks, by its place in the text
/// and then by its number. The tree is one of the grammar, as that of a text is.
pub fn resolve(alloc: Global, program: &Program) -> Result<Typed, TypeFail>
    requires formed { IsFormed (program_view program.now) }
    ensures faultless { IfOk result (λ t. IsFaultless (program_view program.now)) }
    ensures tables { IfOk result (λ t. AreTables (program_view program.now) t) }
    ensures fault { IfErr result
        (λ e. (f : AFault) → e ≡ Fault f → IsFirstFault (program_view program.now) f) }
{
    let index = Index::of(alloc, program)?;
    let made = indexed(alloc, &index);
    drop(index);
    made
}
