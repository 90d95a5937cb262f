//! The trees of a program as it is written.

use crate::apart::Apart;
use crate::name::Name;
use crate::operator::{Func, Op};
use sot_text::Span;

/// A name where it is written.
#[derive(Drop)]
pub struct Ident {
    pub name: Name,
    pub at: Span,
}

/// A field of a topic, or a state variable of a plant, as in `limits.high`: two names with a point
/// between them.
#[derive(Drop)]
pub struct Member {
    pub first: Ident,
    pub field: Ident,
}

/// A literal: its digits without the point, with its sign, and the count of its decimals. `at` is
/// its first token.
#[derive(Clone, Copy, Debug, PartialEq, Eq)]
pub struct Lit {
    pub mantissa: i64,
    pub scale: u8,
    pub at: Span,
}

/// A program as it is written. Two trees are the same program where they agree without their spans.
#[derive(Drop)]
pub struct Program {
    pub decls: Vec<Decl>,
}

#[derive(Drop)]
pub enum Decl {
    Topic(TopicDecl),
    Plant(Apart<PlantDecl>),
    Node(Apart<NodeDecl>),
    Module(Apart<ModuleDecl>),
}

/// The ends of a range, as in `[-2..2]`.
#[derive(Clone, Copy, Debug, PartialEq, Eq)]
pub struct Bounds {
    pub lo: Lit,
    pub hi: Lit,
}

/// The type of one number or truth value. A `fix` states its count of decimals.
#[derive(Clone, Copy, Debug, PartialEq, Eq)]
pub enum Scalar {
    Int(Bounds),
    Fix { scale: Lit, bounds: Bounds },
    Bool { at: Span },
}

/// A field of a record, or a disturbance.
#[derive(Drop)]
pub struct Field {
    pub name: Ident,
    pub scalar: Scalar,
}

/// The type of a topic: one scalar, or a record of them.
#[derive(Drop)]
pub enum Shape {
    One(Scalar),
    Fields(Vec<Field>),
}

#[derive(Clone, Copy, Debug, PartialEq, Eq)]
pub enum Const {
    Number(Lit),
    Truth { value: bool, at: Span },
}

/// The initial value of a topic. For a record `at` is its opening brace.
#[derive(Drop)]
pub enum Init {
    One(Const),
    Fields { items: Vec<Const>, at: Span },
}

/// A topic. `outside` marks an `environment` topic.
#[derive(Drop)]
pub struct TopicDecl {
    pub outside: bool,
    pub name: Ident,
    pub shape: Shape,
    pub init: Init,
}

/// A state variable of a plant. One of type `int` has no scale.
#[derive(Drop)]
pub struct StateDecl {
    pub name: Ident,
    pub scale: Option<Lit>,
}

/// A `next` clause of a plant.
#[derive(Drop)]
pub struct NextDecl {
    pub name: Ident,
    pub value: Expr,
}

/// A plant. A clause that is left out is an empty list, and `end` is the closing brace.
#[derive(Drop)]
pub struct PlantDecl {
    pub name: Ident,
    pub states: Vec<StateDecl>,
    pub inputs: Vec<Ident>,
    pub sees: Vec<Ident>,
    pub noise: Vec<Field>,
    pub next: Vec<NextDecl>,
    pub end: Span,
}

/// A local of a node.
#[derive(Drop)]
pub struct LocalDecl {
    pub name: Ident,
    pub scalar: Scalar,
    pub init: Const,
}

/// A node. A clause that is left out is an empty list, and an external node has no body.
#[derive(Drop)]
pub struct NodeDecl {
    pub name: Ident,
    pub period: Lit,
    pub offset: Lit,
    pub reads: Vec<Ident>,
    pub writes: Vec<Ident>,
    pub locals: Vec<LocalDecl>,
    pub body: Option<Vec<Stmt>>,
}

/// A box of a region. `at` is its opening bracket.
#[derive(Drop)]
pub struct BoxDecl {
    pub sides: Vec<Bounds>,
    pub at: Span,
}

/// A module. The region `none` is an empty list.
#[derive(Drop)]
pub struct ModuleDecl {
    pub name: Ident,
    pub ac: Ident,
    pub sc: Ident,
    pub period: Lit,
    pub offset: Lit,
    pub plant: Ident,
    pub safe: Vec<BoxDecl>,
    pub safer: Vec<BoxDecl>,
}

/// The operands of an operator, which lie in memory together.
#[cycle(expression)]
#[derive(Drop)]
pub struct Operands {
    pub left: Expr,
    pub right: Expr,
}

/// The condition and the branches of an `if`, which lie in memory together.
#[cycle(expression)]
#[derive(Drop)]
pub struct Choice {
    pub cond: Expr,
    pub yes: Expr,
    pub no: Expr,
}

/// An expression. `at` is the token that names its operator, its function or its `if`. Each
/// expression has room for the largest of its forms, so what takes more than a name lies in memory
/// of its own.
#[cycle(expression)]
#[derive(Drop)]
pub enum Expr {
    Number(Lit),
    Truth {
        value: bool,
        at: Span,
    },
    Name(Ident),
    Member(Apart<Member>),
    Binary {
        op: Op,
        operands: Box<Operands>,
        at: Span,
    },
    /// The operator `%`, whose right operand is a literal.
    Rest {
        left: Box<Expr>,
        by: Apart<Lit>,
        at: Span,
    },
    Neg {
        part: Box<Expr>,
        at: Span,
    },
    Not {
        part: Box<Expr>,
        at: Span,
    },
    Call {
        func: Func,
        parts: Box<Vec<Expr>>,
        at: Span,
    },
    Rescale {
        part: Box<Expr>,
        to: Apart<Lit>,
        at: Span,
    },
    If {
        choice: Box<Choice>,
        at: Span,
    },
}

/// The condition and the blocks of an `if`, which lie in memory together. An `else` that is left
/// out is an empty block.
#[cycle(statement)]
#[derive(Drop)]
pub struct Branch {
    pub cond: Expr,
    pub yes: Vec<Stmt>,
    pub no: Vec<Stmt>,
}

/// A statement. `at` is the token `if` or `repeat`.
#[cycle(statement)]
#[derive(Drop)]
pub enum Stmt {
    Assign {
        target: Ident,
        value: Expr,
    },
    Publish {
        topic: Ident,
        value: Expr,
    },
    /// A value for one field of a topic.
    PublishField {
        place: Apart<Member>,
        value: Expr,
    },
    If {
        branch: Box<Branch>,
        at: Span,
    },
    Repeat {
        times: Lit,
        body: Vec<Stmt>,
        at: Span,
    },
}
