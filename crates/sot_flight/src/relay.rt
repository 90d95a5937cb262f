//! A flight to which another board sends.

ghost use Rattle.std.specs.Prelude.{◌≡◌, ℕ, map, IfOk};
ghost use Rattle.sot_flight.specs.Fits.{FitsFlight};
ghost use Rattle.sot_flight.specs.Relayed.{MayRelay, relayed, send_of};

use crate::counts::{events_in, numbers_in};
use crate::flight::Flight;
use crate::relaying::{copy_crews, copy_sways, merged};
use crate::sent::Sent;
use sot_lang::Typed;
use std::alloc::{AllocError, Global};

impl Flight {
    /// The flight to which these sends come too, each on the topic and so many ticks after its
    /// time; of equal time its own inputs come first, then the sends in their order.
    pub fn relay(
        &self,
        alloc: Global,
        p: &Typed,
        topic: u32,
        sends: &[Sent],
        delay: u32,
    ) -> Result<Flight, AllocError>
        requires fits { (guests : ℕ) × FitsFlight p.now guests self.now }
        requires may { MayRelay p.now self.now topic delay (map send_of sends.now) }
        ensures relayed { IfOk result (λ f.
            f ≡ relayed topic delay (map send_of sends.now) self.now) }
        ensures fits { IfOk result (λ f. (guests : ℕ) → FitsFlight p.now guests self.now
            → FitsFlight p.now guests f) }
    {
        let inputs = merged(alloc, &self.inputs, topic, sends, delay)?;
        let events = events_in(p, self.horizon, &inputs);
        let numbers = numbers_in(p, self.horizon, &inputs);
        Ok(Flight {
            horizon: self.horizon,
            start: Vec::from_slice(alloc, &self.start)?,
            inputs,
            sways: copy_sways(alloc, &self.sways)?,
            crews: copy_crews(alloc, &self.crews)?,
            events: events as u32,
            numbers: numbers as u32,
        })
    }
}
