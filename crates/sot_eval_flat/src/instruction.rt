//! Instructions.

ghost use Rattle.std.specs.Prelude.{◌≡◌};
ghost use Rattle.sot_lang.specs.Values.{apply};
ghost use Rattle.sot_eval_flat.specs.Instructions.{made};

use sot_syntax_tree::Op;

/// What an instruction makes of the numbers at its places a, b and c.
#[derive(Clone, Copy, Debug, PartialEq, Eq)]
pub enum Make {
    Add,
    Sub,
    Mul,
    Div,
    Less,
    LessEqual,
    Greater,
    GreaterEqual,
    Equal,
    NotEqual,
    And,
    Or,
    /// Whether a is true and b is not.
    Without,
    Min,
    Max,
    /// The number nearest to a from b to c, and b where that is above c.
    Clamp,
    Neg,
    Abs,
    Not,
    /// What is left of a after the multiples of b, which is above 0.
    Rest,
    /// b where a is true, else c.
    Select,
    /// a, where it is from b to c.
    Within,
}

/// The number at place `to` becomes what is made of those at a, b and c. A trap counts only where
/// the number at place `counts` is true.
#[derive(Clone, Copy, Debug, PartialEq, Eq)]
pub struct Instruction {
    pub make: Make,
    pub to: u8,
    pub a: u8,
    pub b: u8,
    pub c: u8,
    pub counts: u8,
}

/// What an operator makes of its operands.
pub fn make_of(op: Op) -> Make
    ensures { (at : _) (a : _) (b : _) (c : _) → made result at a b c ≡ apply op at a b }
{
    match op {
        Op::Add => Make::Add,
        Op::Sub => Make::Sub,
        Op::Mul => Make::Mul,
        Op::Div => Make::Div,
        Op::Less => Make::Less,
        Op::LessEqual => Make::LessEqual,
        Op::Greater => Make::Greater,
        Op::GreaterEqual => Make::GreaterEqual,
        Op::Equal => Make::Equal,
        Op::NotEqual => Make::NotEqual,
        Op::And => Make::And,
        Op::Or => Make::Or,
    }
}
