//! Turns, and work that goes on by turns.

ghost use Rattle.std.specs.Prelude.{◌≡◌, Some};
ghost use Rattle.sot_turn.specs.Passes.{lock_of, pass_lock, pass_ground};
ghost use Rattle.sot_tube.specs.Admitted.{Admitted};
ghost use Rattle.sot_flight.specs.Plans.{Plan};
ghost use Rattle.sot_board.specs.Views.{viewed_numbers};
ghost use Rattle.sot_fly_worker.specs.Askings.{AsksOneMore, asking};
ghost use Rattle.sot_fly_worker.specs.Shifts.{IsAtWork, IsReady, IsOnShift, HasWorked};
ghost use Rattle.sot_fly_worker.specs.Turns.{TakesTurn};

use crate::bells::Bells;
use crate::controller::Controller;
use crate::hold::{fire_code, fire_guest, fire_stated};
use crate::shift::Shift;
use crate::sight::{Sight, see};
use crate::take::take_in_step;
use sot_board::View;
use sot_lang::Draft;
use sot_ordered_board::OrderedBoard;
use sot_turn::Turn;
use std::sync::Wait;

// Asks a guest with a view, on a blank draft.
fn ask<C: Controller>(guest: &mut C, view: &View) -> Draft
    ensures { AsksOneMore (C.asked guest.old) (C.asked guest.new)
        (asking (viewed_numbers view.now) result) }
{
    let mut draft = Draft::blank();
    guest.decide(view, &mut draft);
    draft
}

/// One turn at the board, in which it is seen what there is to do, and where the node is left a
/// second turn for its firing. A guest is asked between the two, once the caller was told that it
/// is; code is run between the two, and where no guest flies the node, the second turn is taken
/// once the node is the one that fires next. In each turn it goes on only where the node has fired
/// as often as the shift has drafts, and elsewhere gives the turn back and waits without end.
pub fn take_turn<'a, C: Controller, R: Wait>(
    rt: &R,
    turn: &Turn<OrderedBoard<'a>>,
    bells: &Bells,
    shift: Shift<'a, C>,
) -> Shift<'a, C>
    requires lock { pass_lock shift.pass ≡ lock_of turn.now }
    requires at_work { IsAtWork shift }
    ensures on_shift { (began : _) → IsOnShift C.asked began shift.entry
        → IsOnShift C.asked began result }
    ensures turn { (a : Admitted) (f : Plan) → pass_ground shift.entry.pass ≡ Some (a, f)
        → TakesTurn a f shift.entry result }
{
    let Shift {
        node,
        finished: _,
        pass,
        mut drafts,
        guest,
        form,
    } = shift;
    let mut held = take_in_step(rt, turn, pass, node, &drafts);
    match see(held.lend(), node, guest.is_some()) {
        Sight::Ended => Shift {
            node,
            finished: true,
            pass: turn.give(held),
            drafts,
            guest,
            form,
        },
        Sight::Idle => Shift::unfinished(node, turn.give(held), drafts, guest, form),
        Sight::Stated => {
            let pass = turn.give(held);
            let pass = fire_stated(rt, turn, bells, pass, node, &mut drafts);
            Shift::unfinished(node, pass, drafts, guest, form)
        }
        Sight::Runs(p, view) => {
            let pass = turn.give(held);
            let pass = fire_code(rt, turn, bells, pass, p, view, &form, &mut drafts);
            Shift::unfinished(node, pass, drafts, guest, form)
        }
        Sight::Asks(view) => {
            bells.note_asked(node, drafts.len().saturating_add(1));
            let pass = turn.give(held);
            bells.ring_caller();
            let Some(mut asked) = guest else {
                unreachable!()
            };
            let draft = ask(&mut asked, &view);
            let pass = fire_guest(rt, turn, pass, node, draft, &mut drafts);
            Shift::unfinished(node, pass, drafts, Some(asked), form)
        }
    }
}

/// Takes turns until the board is finished; where it is not to begin, none, and the shift comes
/// back as it was. Before each turn it parks until it is rung for. So that is to be done each time
/// its node has become due, and once the board is finished; of this no clause speaks.
pub fn work<'a, C: Controller, R: Wait>(
    rt: &R,
    turn: &Turn<OrderedBoard<'a>>,
    bells: &Bells,
    shift: Shift<'a, C>,
) -> Shift<'a, C>
    requires { IsReady (lock_of turn.now) shift }
    ensures { HasWorked C.asked shift.entry result }
{
    let node = shift.node;
    if bells.is_refused(node) {
        return shift;
    }
    let mut shift = shift;
    for _ in rt.forever() {
        bells.park(rt, node);
        shift = take_turn(rt, turn, bells, shift);
        if shift.guest.is_some() {
            bells.ring_caller();
        }
        if shift.finished {
            return shift;
        }
    }
    unreachable!()
}
