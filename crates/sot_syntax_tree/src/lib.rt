//! A program as it is written: names, operators, and the trees of declarations, statements and
//! expressions.
#![tactic(auto)]

mod apart;
mod letters;
mod name;
mod operator;
mod row;
mod tree;

pub use apart::Apart;
pub use name::Name;
pub use operator::{Func, Op};
pub use tree::{
    Bounds, BoxDecl, Branch, Choice, Const, Decl, Expr, Field, Ident, Init, Lit, LocalDecl, Member,
    ModuleDecl, NextDecl, NodeDecl, Operands, PlantDecl, Program, Scalar, Shape, StateDecl, Stmt,
    TopicDecl,
};
