//! What a monitor looks at.

ghost use Rattle.std.specs.Prelude.{◌≡◌};
ghost use Rattle.sot_formula.specs.Parts.{IsThere};
ghost use Rattle.sot_history_state.specs.Scenes.{IsSceneOf};
ghost use Rattle.sot_monitor.specs.Moments.{number_in, mode_number};

use crate::looks::Looks;
use sot_formula::Quantity;
use sot_history_state::Scene;
use sot_lang::Typed;
use sot_world::Mode;

fn mode_number(mode: Mode) -> i64
    ensures { result ≡ mode_number mode }
{
    match mode {
        Mode::Ac => 1,
        Mode::Sc => 0,
    }
}

/// A scene of a program.
#[derive(Clone, Copy)]
pub struct AtScene<'s> {
    pub p: &'s Typed,
    pub scene: &'s Scene,
}

impl<'s> Looks for AtScene<'s> {
    ghost moment = { λ s. number_in s.scene.now };

    ghost has = { λ s q. IsSceneOf s.p.now s.scene.now × IsThere s.p.now q };

    fn look(&self, of: Quantity) -> i64 {
        match of {
            Quantity::Scalar(k) => self.scene.scalar(k),
            Quantity::State { plant, var } => self.scene.state(plant, var),
            Quantity::Mode(m) => mode_number(self.scene.mode(m)),
        }
    }
}
