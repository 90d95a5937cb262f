//! Which places a body's numbers have.

ghost use Rattle.std.specs.Prelude.{◌≡◌, ◌+◌, ℕ, IfOk};
ghost use Rattle.sot_lists.specs.Places.{At};

use crate::constants::find;
use crate::unfit::Unfit;

/// The names of a node stand first, and the numbers that its body states behind them.
pub struct Shape {
    pub names: usize,
    pub constants: Vec<i64>,
}

impl Drop for Shape {
    fn drop(self) {
        let Shape {
            names: _,
            constants: _,
        } = self;
    }
}

impl Shape {
    /// The place of a number.
    pub fn place_of(&self, z: i64) -> Result<u8, Unfit>
        ensures { IfOk result (λ place. (k : ℕ) × At self.now.constants.items k z
            × (place ≡ self.now.names + k)) }
    {
        let Some(k) = find(&self.constants, z) else {
            return Err(Unfit::Wide);
        };
        if self.names > 255 || k > 255 || self.names + k > 255 {
            return Err(Unfit::Wide);
        }
        Ok((self.names + k) as u8)
    }
}
