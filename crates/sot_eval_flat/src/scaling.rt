//! Changes of scale as instructions.

ghost use Rattle.std.specs.Prelude.{◌≡◌, ◌≤◌};
ghost use Rattle.sot_lang.specs.Values.{rescaled};
ghost use Rattle.sot_eval_flat.specs.Instructions.{made};

use crate::instruction::Make;
use sot_code::power_of_ten;

/// A product or a quotient by a power of ten.
#[derive(Clone, Copy)]
pub struct Scaling {
    pub make: Make,
    pub by: i64,
}

/// The change from one count of decimals to another.
pub fn scale_change(from: u8, to: u8) -> Scaling
    ensures { from ≤ 6 → to ≤ 6 → (at : _) (a : _) (c : _)
        → made result.make at a result.by c ≡ rescaled at from to a }
{
    if from <= to {
        Scaling {
            make: Make::Mul,
            by: power_of_ten(to - from),
        }
    } else {
        Scaling {
            make: Make::Div,
            by: power_of_ten(from - to),
        }
    }
}
