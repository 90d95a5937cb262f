//! The kinds of declarations, and limits on how many there are of each.
ghost use Rattle.std.specs.Prelude.{◌≡◌, map, filter_map, option_map};
ghost use Rattle.sot_syntax_tree.specs.TreeViews.{declaration_view};
ghost use Rattle.sot_rules.specs.Lists.{places};
ghost use Rattle.sot_rules.specs.Faults.{least, past};
ghost use Rattle.sot_rules.specs.Kinds.{name_of};

use crate::fault::{TypeFault, TypeKind, note};
use sot_syntax_tree::{Decl, Ident};

/// The kinds of declarations.
#[derive(Clone, Copy)]
pub enum DeclKind {
    Topic,
    Plant,
    Node,
    Module,
}

// The name of a declaration, where it is of the kind.
fn name_of(kind: DeclKind, d: &Decl) -> Option<&Ident>
    ensures { option_map (λ i. i.now) result ≡ name_of kind (declaration_view d.now) }
{
    match kind {
        DeclKind::Topic => match d {
            Decl::Topic(t) => Some(&t.name),
            _ => None,
        },
        DeclKind::Plant => match d {
            Decl::Plant(q) => Some(&q.content().name),
            _ => None,
        },
        DeclKind::Node => match d {
            Decl::Node(n) => Some(&n.content().name),
            _ => None,
        },
        DeclKind::Module => match d {
            Decl::Module(m) => Some(&m.content().name),
            _ => None,
        },
    }
}

/// The first declaration of a kind past a limit.
pub fn note_past_kind(kind: DeclKind, limit: usize, decls: &[Decl], first: &mut Option<TypeFault>)
    ensures { first.new ≡ least first.old
        (past limit (places (filter_map (name_of kind) (map declaration_view decls.now)))) }
{
    let mut left = limit;
    for d in decls {
        if let Some(name) = name_of(kind, d) {
            if left == 0 {
                note(first, true, name.at, TypeKind::TooMany);
                return;
            }
            left -= 1;
        }
    }
}
