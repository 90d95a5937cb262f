//! What a name of the program means, with its number.
ghost use Rattle.std.specs.Prelude.{◌≡◌, MatchOption, None};
ghost use Rattle.sot_syntax_tree.specs.TreeViews.{declaration_view};
ghost use Rattle.sot_rules.specs.Indexes.{program_in};
ghost use Rattle.sot_rules.specs.Names.{meaning};
ghost use Rattle.sot_typing.specs.Meant.{AreNumbers, IsMeant};

use crate::names::numbers::Number;
use sot_rules::Index;
use sot_syntax_tree::{Decl, Ident};

/// A declaration with its number.
#[derive(Clone, Copy)]
pub struct Numbered<'x> {
    pub decl: &'x Decl,
    pub number: Number,
}

/// What a name means: its first declaration.
pub fn look_up<'x>(index: &'x Index, numbers: &[Number], name: &Ident) -> Option<Numbered<'x>>
    requires { AreNumbers index.now numbers.now }
    ensures { MatchOption result (meaning (program_in index.now) name.now ≡ None)
        (λ m. IsMeant (program_in index.now) name.now (declaration_view m.decl.now) m.number) }
{
    let place = index.place(name)?;
    let decls: &'x [Decl] = index.decls;
    Some(Numbered {
        decl: &decls[place],
        number: numbers[place],
    })
}
