//! The first fault of a program.
ghost use Rattle.std.specs.Prelude.{◌≡◌, [], Some, None, map, flat_map, OnOk, IfOk};
ghost use Rattle.sot_syntax_tree.specs.TreeViews.{declaration_view, program_view};
ghost use Rattle.sot_rules.specs.declared.fault.TypeFault.{TypeFault};
ghost use Rattle.sot_rules.specs.First.{IsFirstFault, IsFaultless};
ghost use Rattle.sot_rules.specs.Faults.{least, declaration_faults, faults, repeats};
ghost use Rattle.sot_rules.specs.Names.{declared_name};
ghost use Rattle.sot_rules.specs.Indexes.{program_in, IsIndex};

use crate::declarations::kind::{DeclKind, note_past_kind};
use crate::declarations::module::note_module;
use crate::declarations::node::note_node;
use crate::declarations::plant::note_plant;
use crate::declarations::topic::note_topic;
use crate::fault::TypeFault;
use crate::names::index::Index;
use crate::names::repeats::note_repeats;
use sot_syntax_tree::{Decl, Program};
use std::alloc::{AllocError, Global};

fn note_declaration<'p>(
    alloc: Global,
    index: &Index<'p>,
    d: &'p Decl,
    first: &mut Option<TypeFault>,
) -> Result<(), AllocError>
    requires { IsIndex index.now }
    ensures { OnOk result (first.new
        ≡ least first.old (declaration_faults (program_in index.now) (declaration_view d.now))) }
{
    match d {
        Decl::Topic(t) => note_topic(alloc, t, first),
        Decl::Plant(q) => note_plant(alloc, index, q.content(), first),
        Decl::Node(n) => note_node(alloc, index, n.content(), first),
        Decl::Module(m) => {
            note_module(index, m.content(), first);
            Ok(())
        }
    }
}

fn note_declarations<'p>(
    alloc: Global,
    index: &Index<'p>,
    decls: &'p [Decl],
    first: &mut Option<TypeFault>,
) -> Result<(), AllocError>
    requires { IsIndex index.now }
    ensures { OnOk result (first.new
        ≡ least first.old (flat_map (declaration_faults (program_in index.now))
        (map declaration_view decls.now))) }
{
    for d in decls {
        note_declaration(alloc, index, d, first)?;
    }
    Ok(())
}

// The declarations whose names stand before. The index knows where there are none.
fn note_repeated_declarations(
    alloc: Global,
    index: &Index,
    first: &mut Option<TypeFault>,
) -> Result<(), AllocError>
    requires { IsIndex index.now }
    ensures { OnOk result (first.new
        ≡ least first.old (repeats [] (map declared_name (program_in index.now).decls))) }
{
    if index.is_distinct() {
        return Ok(());
    }
    note_repeats(alloc, index.decls, first)
}

fn note_program(
    alloc: Global,
    index: &Index,
    first: &mut Option<TypeFault>,
) -> Result<(), AllocError>
    requires { IsIndex index.now }
    ensures { OnOk result (first.new ≡ least first.old (faults (program_in index.now))) }
{
    note_repeated_declarations(alloc, index, first)?;
    note_past_kind(DeclKind::Topic, 512, index.decls, first);
    note_past_kind(DeclKind::Node, 300, index.decls, first);
    note_past_kind(DeclKind::Module, 100, index.decls, first);
    note_past_kind(DeclKind::Plant, 100, index.decls, first);
    note_declarations(alloc, index, index.decls, first)?;
    Ok(())
}

/// The first rule of typing that the program of an index breaks, by its place and then by its
/// number, or nothing where it breaks none. It takes time that grows with the length of the program
/// times the depth of its loops.
pub fn first_fault(alloc: Global, index: &Index) -> Result<Option<TypeFault>, AllocError>
    requires { IsIndex index.now }
    ensures faultless { IfOk result (λ f. f ≡ None → IsFaultless (program_in index.now)) }
    ensures first { IfOk result
        (λ f. (g : TypeFault) → f ≡ Some g → IsFirstFault (program_in index.now) g) }
{
    let mut first = None;
    note_program(alloc, index, &mut first)?;
    Ok(first)
}
