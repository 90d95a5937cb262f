//! The operands of a call, one after another.
ghost use Rattle.std.specs.Prelude.{◌≡◌};
ghost use Rattle.sot_rules.specs.Operands.{no_operand, with_operand};

use crate::expressions::sort::{Sort, differ, given, is_scaled, is_truthful};

/// The operands of a call: whether one is a truth value, whether two numbers differ in scale, the
/// last number, and their sort.
#[derive(Clone, Copy)]
pub struct Operands {
    pub truth: bool,
    pub differ: bool,
    pub last: Sort,
    pub sort: Sort,
}

impl Operands {
    pub fn none() -> Operands
        ensures { result ≡ no_operand }
    {
        Operands {
            truth: false,
            differ: false,
            last: Sort::Anything,
            sort: Sort::Truthful,
        }
    }

    pub fn with(self, a: Sort) -> Operands
        ensures { result ≡ with_operand self a }
    {
        Operands {
            truth: self.truth || is_truthful(a),
            differ: self.differ || differ(self.last, a),
            last: if is_scaled(a) { a } else { self.last },
            sort: given(self.sort, a),
        }
    }
}
