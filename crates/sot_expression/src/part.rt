//! What the functions of one expression hand each other.
ghost use Rattle.std.specs.Prelude.{◌≡◌};

use sot_syntax_tree::Expr;

/// An expression that was read, with how deep it nests. `bare` where it is a pair of parentheses.
pub struct Part {
    pub tree: Expr,
    pub levels: u32,
    pub bare: bool,
}

// Written by hand, so that letting a part go is one call: a function that holds one over a `?` is
// proved without the variants of its tree.
impl Drop for Part {
    fn drop(self) {
        let Part {
            tree: _,
            levels: _,
            bare: _,
        } = self;
    }
}

impl Part {
    /// The tree alone.
    pub fn into_tree(self) -> Expr
        ensures { result ≡ self.tree }
    {
        let Part {
            tree,
            levels: _,
            bare: _,
        } = self;
        tree
    }
}
