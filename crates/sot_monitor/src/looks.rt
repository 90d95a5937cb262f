//! What can be looked at now.

ghost use Rattle.std.specs.Prelude.{◌≡◌};
ghost use Rattle.sot_formula.specs.declared.quantity.Quantity.{Quantity as Asked};
ghost use Rattle.sot_monitor.specs.Holding.{Moment};

use sot_formula::Quantity;

/// Something whose numbers can be looked at now.
pub trait Looks {
    /// The number of each quantity now.
    ghost moment: { Self → Moment };

    /// A quantity is there to be looked at.
    ghost has: { Self → Asked → Type 0 };

    /// The number of a quantity now: of a scalar and of a state its mantissa, of a mode 1 for the
    /// advanced node and 0 for the safe one.
    fn look(&self, of: Quantity) -> i64
        requires { has self.now of }
        ensures { result ≡ moment self.now of };
}
