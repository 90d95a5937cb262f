//! `soak`: the summary of a mission that is made, checked and flown.

ghost use Rattle.std.specs.Prelude.{◌≤◌, [], length, IfOk};
ghost use Rattle.sot_cli.specs.Texts.{input_limit};
ghost use Rattle.sot_commands.specs.Orders.{Orders};
ghost use Rattle.sot_commands.specs.Words.{AreAsked};
ghost use Rattle.sot_commands.specs.declared.words.Command.TheVariants.{Soak as SoakCommand};

use crate::order::FlightOrder;
use crate::telling::Telling;
use sot_maker::{made_texts_are_short, make};
use std::alloc::{AllocError, Global};

/// Makes the mission of two numbers: it is to be flown as `fly` would, with no guests, and counted.
pub fn soak(alloc: Global, n: u32, seed: u64) -> Result<FlightOrder<'static>, AllocError>
    requires { AreAsked n seed }
    ensures order { IfOk result (λ order.
        Orders (SoakCommand n seed) [] order.telling order.text.items) }
    ensures short { IfOk result (λ order. length order.text.items ≤ input_limit) }
{
    let text = make(alloc, n, seed)?;
    made_texts_are_short();
    Ok(FlightOrder {
        text: text.into_bytes(),
        telling: Telling::Summary,
    })
}
