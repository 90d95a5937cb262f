//! Flights without guests.

ghost use Rattle.std.specs.Prelude.{◌≡◌, [], length, None, IfOk};
ghost use Rattle.sot_board.specs.Flown.{FlownBy};
ghost use Rattle.sot_ordered_board.specs.Crews.{HasNoGuests};
ghost use Rattle.sot_ordered_board.specs.Order.{FliesInOrder};
ghost use Rattle.sot_workers.specs.Lists.{AreLists};

use crate::crewed::{Flown, fly};
use sot_board::{Board, View};
use sot_fly_worker::Controller;
use sot_lang::Draft;
use std::alloc::{AllocError, Global};
use std::sync::Wait;
use std::thread::Threads;

/// The type of guests where there are none: nobody is ever asked.
#[derive(Drop)]
pub struct Nobody;

impl Controller for Nobody {
    ghost asked = { λ _. None };

    fn decide(&mut self, _view: &View, _draft: &mut Draft) {}
}

/// Flies a newly opened board to the end of its flight, as [`fly`] does, where no guest flies a
/// node.
pub fn fly_without_guests<'a, R: Threads + Wait + Sync>(
    rt: &R,
    alloc: Global,
    board: Board<'a>,
) -> Result<Flown<'a>, AllocError>
    requires opened { board.entries ≡ [] }
    requires no_guests { HasNoGuests board.plan }
    ensures flown { IfOk result (λ r. FlownBy r.board.accepted.program r.board.accepted.cert.jitter
        r.board.plan r.board.entries) }
    ensures order { IfOk result (λ r. FliesInOrder r.board.accepted.program
        r.board.accepted.cert.jitter r.board.plan r.board.entries) }
    ensures accepted { IfOk result (λ r. r.board.accepted ≡ board.entry.accepted) }
    ensures plan { IfOk result (λ r. r.board.plan ≡ board.entry.plan) }
    ensures lists { IfOk result (λ r. AreLists (length r.board.accepted.program.nodes) r.lists.items
        r.board.entries) }
{
    let mut nobody: Vec<Nobody> = Vec::new(alloc);
    fly(rt, alloc, board, &mut nobody)
}
