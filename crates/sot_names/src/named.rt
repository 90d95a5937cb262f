//! What has a name of its own in a list.
ghost use Rattle.std.specs.Prelude.{◌≡◌};
ghost use Rattle.sot_syntax_tree.specs.declared.tree.Ident.{Ident};
ghost use Rattle.sot_syntax_tree.specs.TreeViews.{declaration_view};
ghost use Rattle.sot_names.specs.Names.{are_same, declared_name};

use sot_syntax_tree::{Decl, Field, Ident, LocalDecl, StateDecl};

/// What has a name of its own in a list.
pub trait Named {
    ghost ident: { Self → Ident };

    fn ident(&self) -> &Ident
        ensures { result.now ≡ ident self.now };
}

impl Named for Ident {
    ghost ident = { λ i. i };

    fn ident(&self) -> &Ident {
        self
    }
}

impl Named for Field {
    ghost ident = { λ f. f.name };

    fn ident(&self) -> &Ident {
        &self.name
    }
}

impl Named for StateDecl {
    ghost ident = { λ s. s.name };

    fn ident(&self) -> &Ident {
        &self.name
    }
}

impl Named for LocalDecl {
    ghost ident = { λ l. l.name };

    fn ident(&self) -> &Ident {
        &self.name
    }
}

impl Named for Decl {
    ghost ident = { λ d. declared_name (declaration_view d) };

    fn ident(&self) -> &Ident {
        declared_name(self)
    }
}

/// The name of a declaration.
pub fn declared_name(d: &Decl) -> &Ident
    ensures { result.now ≡ declared_name (declaration_view d.now) }
{
    match d {
        Decl::Topic(t) => &t.name,
        Decl::Plant(q) => &q.content().name,
        Decl::Node(n) => &n.content().name,
        Decl::Module(m) => &m.content().name,
    }
}

/// Whether two names are the same word.
pub fn are_same(a: &Ident, b: &Ident) -> bool
    ensures { result ≡ are_same a.now b.now }
{
    a.name.as_bytes() == b.name.as_bytes()
}
