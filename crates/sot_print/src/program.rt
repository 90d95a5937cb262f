//! Whole programs.
ghost use Rattle.std.specs.Prelude.{◌≡◌, ◌++◌, ◌==◌, true, map, OnOk, IfOk};
ghost use Rattle.std.specs.String.{string_bytes};
ghost use Rattle.sot_syntax_tree.specs.TreeViews.{declaration_view, program_view};
ghost use Rattle.sot_print.specs.Words.{laid};
ghost use Rattle.sot_print.specs.Canonical.{own_line, declarations_from, canonical};

use crate::declaration::push_declaration;
use crate::gap::Gap;
use sot_syntax_tree::{Decl, Program};
use std::alloc::{AllocError, Global};

// What stands before a declaration: nothing before the first, and else a line end.
fn own_line(place: usize) -> Gap
    ensures { result ≡ own_line (place == 0) }
{
    if place == 0 {
        Gap::Touching
    } else {
        Gap::Line { indent: 0 }
    }
}

fn push_declarations(out: &mut String, declarations: &[Decl]) -> Result<(), AllocError>
    ensures { OnOk result (string_bytes out.new
        ≡ string_bytes out.old ++ laid (declarations_from true
        (map declaration_view declarations.now))) }
{
    for (place, declaration) in declarations.iter().enumerate() {
        push_declaration(out, own_line(place), declaration)?;
    }
    Ok(())
}

/// The canonical text of a program. Only want of memory keeps it back.
pub fn print(alloc: Global, program: &Program) -> Result<String, AllocError>
    ensures { IfOk result (λ text. string_bytes text ≡ canonical (program_view program.now)) }
{
    let mut out = String::new(alloc);
    let declarations = program.decls.as_slice();
    if declarations.is_empty() {
        return Ok(out);
    }
    push_declarations(&mut out, declarations)?;
    out.push_str("\n")?;
    Ok(out)
}
