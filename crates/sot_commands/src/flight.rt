//! Flights that were ordered.

ghost use Rattle.std.specs.Prelude.{◌≡◌, ◌<◌, ◌≤◌, ◌^◌, length, vec_len};
ghost use Rattle.sot_commands.specs.Guests.{UnnamedStay, Flew};
ghost use Rattle.sot_commands.specs.Orders.{FliesBytes, handed_in};
ghost use Rattle.sot_commands.specs.Steps.{GuestsStand, GuestsDid, SaysInAll};
ghost use Rattle.sot_commands.specs.declared.telling.Telling.TheVariants.{Summary};

use crate::fly::fly;
use crate::order::FlightOrder;
use crate::telling::Telling;
use sot_cli::{Answer, INPUT_LIMIT};
use sot_fly_worker::Controller;
use sot_ports::Process;
use sot_text_output::Out;
use std::alloc::{AllocError, Global};
use std::sync::Wait;
use std::thread::Threads;

/// Flies what was ordered: the flight of a `fly` or a `watch` with these guests, that of a `soak`
/// with none.
pub fn fly_ordered<O: Out, C: Controller + Send, R: Threads + Wait + Sync>(
    rt: &R,
    alloc: Global,
    out: &mut O,
    guests: &mut Vec<C>,
    order: &FlightOrder<'_>,
    process: Process,
) -> Result<Answer, AllocError>
    requires few { vec_len guests.old < 2 ^ 32 }
    requires short { length order.now.text.items ≤ INPUT_LIMIT }
    ensures flies { SaysInAll O.puts out.old out.new result (λ status said.
        FliesBytes (handed_in order.now.telling (vec_len guests.old))
        order.now.telling order.now.text.items status said
        × GuestsDid order.now.telling status said
        (λ text. Flew C.asked (vec_len guests.old) order.now.text.items text guests.old.items
        guests.new.items)
        guests.old guests.new) }
    ensures guests { GuestsStand C.asked
        (UnnamedStay (vec_len guests.old) order.now.text.items guests.old.items guests.new.items)
        guests.old guests.new }
    ensures alone { order.now.telling ≡ Summary → guests.new ≡ guests.old }
{
    match order.telling {
        Telling::Summary => {
            let mut nobody: Vec<C> = Vec::new(alloc);
            fly(
                rt,
                alloc,
                out,
                &mut nobody,
                &order.text,
                Telling::Summary,
                process,
            )
        }
        Telling::Trace => fly(rt, alloc, out, guests, &order.text, order.telling, process),
        Telling::Verdict { .. } => fly(rt, alloc, out, guests, &order.text, order.telling, process),
    }
}
