//! All that is due in an instant.

ghost use Rattle.std.specs.Prelude.{◌≡◌, ◌<◌, length, true, false, slice_set};
ghost use Rattle.sot_turn.specs.Prefixes.{IsPrefix};
ghost use Rattle.sot_world.specs.Configurations.{is_left};
ghost use Rattle.sot_board.specs.Flown.{NoInputDue};
ghost use Rattle.sot_board.specs.Calls.{IsSettled};
ghost use Rattle.sot_ordered_board.specs.Crews.{HasNoGuests, IsOwn};
ghost use Rattle.sot_workers.specs.Instants.{IsSameInstant, AddsNoFiring, AddsFiring, NoneLeft};
ghost use Rattle.sot_ordered_board.specs.Order.{HaveDecided, HasTurn};

use sot_board::Receipt;
use sot_ordered_board::OrderedBoard;
use sot_world::is_coded;

/// The inputs that are due come.
pub(crate) fn take_inputs(board: &mut OrderedBoard<'_>)
    ensures same { IsSameInstant board.old board.new }
    ensures entries { AddsNoFiring board.old.entries board.new.entries }
    ensures none { NoInputDue board.new.position }
{
    'inputs: while board.due_input() {
        board.input();
    }
    board.reveal_invariant();
}

/// The modules that are left to decide do so, in declared order.
pub(crate) fn decide_all(board: &mut OrderedBoard<'_>)
    requires inputs { NoInputDue board.old.position }
    ensures same { IsSameInstant board.old board.new }
    ensures entries { AddsNoFiring board.old.entries board.new.entries }
    ensures inputs { board.new.position.inputs ≡ board.old.position.inputs }
    ensures none { HaveDecided board.new.position (length board.new.accepted.program.modules) }
{
    let count = board.typed().modules.len() as u32;
    for module in 0..count {
        if board.left_dm(module) {
            board.decide(module);
        }
    }
}

/// A node that no guest flies, whose turn it is, fires: a coded one by its code, an external one
/// with its stated draft.
pub(crate) fn fire(board: &mut OrderedBoard<'_>, node: u32) -> Receipt
    requires own { IsOwn board.old.plan node }
    requires there { node < length board.old.accepted.program.nodes }
    requires left { is_left board.old.position.at node ≡ true }
    requires turn { HasTurn board.old.accepted.program board.old.plan board.old.position node }
    ensures same { IsSameInstant board.old board.new }
    ensures inputs { board.new.position.inputs ≡ board.old.position.inputs }
    ensures left_dm { board.new.position.at.left_dm ≡ board.old.position.at.left_dm }
    ensures left { board.new.position.at.left ≡ slice_set board.old.position.at.left node false }
    ensures entries { AddsFiring board.old.position.at.time board.old.entries node result.draft
        board.new.entries }
{
    if is_coded(board.typed(), node) {
        board.fire(node)
    } else {
        board.commit_stated(node)
    }
}

// The nodes that are left to fire do so, in declared order.
fn fire_all(board: &mut OrderedBoard<'_>)
    requires no_guests { HasNoGuests board.old.plan }
    requires turn { HasTurn board.old.accepted.program board.old.plan board.old.position 0 }
    ensures same { IsSameInstant board.old board.new }
    ensures inputs { board.new.position.inputs ≡ board.old.position.inputs }
    ensures left_dm { board.new.position.at.left_dm ≡ board.old.position.at.left_dm }
    ensures goes_on { IsPrefix board.old.entries board.new.entries }
    ensures none { NoneLeft board.new.position.at.left (length board.new.accepted.program.nodes) }
{
    let count = board.typed().nodes.len() as u32;
    for node in 0..count {
        if board.left(node) {
            fire(board, node);
        }
    }
}

/// All that is due in this instant: the inputs, then the decisions, then the firings. A tick may
/// come after it, and none comes.
pub fn finish_instant(board: &mut OrderedBoard<'_>)
    requires no_guests { HasNoGuests board.old.plan }
    ensures same { IsSameInstant board.old board.new }
    ensures goes_on { IsPrefix board.old.entries board.new.entries }
    ensures settled { IsSettled board.new.accepted.program board.new.position }
{
    take_inputs(board);
    decide_all(board);
    fire_all(board);
}
