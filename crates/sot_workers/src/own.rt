//! What the caller does on a board while it has the turn.

ghost use Rattle.std.specs.Prelude.{◌≡◌, ◌<◌, ◌↔◌, ◌+◌, ℕ, List, length, true, false, IsTrue};
ghost use Rattle.std.specs.Prelude.{slice_index_or};
ghost use Rattle.sot_turn.specs.Prefixes.{IsPrefix};
ghost use Rattle.sot_world.specs.Configurations.{is_left};
ghost use Rattle.sot_world.specs.HistoryEntry.{Logged};
ghost use Rattle.sot_board.specs.Versions.{drafts_of};
ghost use Rattle.sot_board.specs.Calls.{MayTickNow};
ghost use Rattle.sot_workers.specs.Flying.{IsMine};
ghost use Rattle.sot_ordered_board.specs.Crews.{IsOwn};
ghost use Rattle.sot_ordered_board.specs.Order.{HaveDecided, HaveFired, HasTurn};
ghost use Rattle.sot_workers.specs.Instants.{IsSameInstant, GoesOn};
ghost use Rattle.sot_workers.specs.Lists.{AreMine, KeepsLists, KeepsRoom};

use crate::instant::{decide_all, fire, take_inputs};
use crate::lists::NodeList;
use sot_flight::Flight;
use sot_fly_worker::{Bells, note_draft, stop};
use sot_ordered_board::OrderedBoard;
use std::sync::Wait;

// Whether a node is noted to have a thread.
fn is_away(away: &[bool], node: u32) -> bool
    ensures { result ≡ slice_index_or away.now node false }
{
    let place = node as usize;
    if place < away.len() {
        away[place]
    } else {
        false
    }
}

// Whether no guest flies a node, and its worker has no thread, so that the caller fires it.
fn is_mine(flight: &Flight, away: &[bool], node: u32) -> bool
    requires { node < length flight.now.crews }
    ensures { IsTrue result ↔ IsMine flight.now away.now node }
{
    flight.guest(node).is_none() && !is_away(away, node)
}

// A node that the caller fires does so, and its list gets the draft.
fn fire_own(board: &mut OrderedBoard<'_>, away: &[bool], lists: &mut Vec<NodeList>, node: u32)
    requires lists { KeepsLists board.old away.now lists.old.items }
    requires room { KeepsRoom board.old away.now lists.old.items }
    requires mine { IsMine board.old.plan away.now node }
    requires there { node < length board.old.accepted.program.nodes }
    requires left { is_left board.old.position.at node ≡ true }
    requires turn { HasTurn board.old.accepted.program board.old.plan board.old.position node }
    ensures same { IsSameInstant board.old board.new }
    ensures goes_on { IsPrefix board.old.entries board.new.entries }
    ensures left_dm { board.new.position.at.left_dm ≡ board.old.position.at.left_dm }
    ensures behind { HasTurn board.new.accepted.program board.new.plan
        board.new.position (node + 1) }
    ensures lists { KeepsLists board.new away.now lists.new.items }
    ensures room { KeepsRoom board.new away.now lists.new.items }
{
    let receipt = fire(board, node);
    note_draft(board, node, &mut lists[node as usize].drafts, receipt.draft);
}

// A node that the caller fires does so if it is left. It answers whether the nodes behind it may
// fire: no worker in a thread is to fire before them.
fn fire_if_mine(
    board: &mut OrderedBoard<'_>,
    away: &[bool],
    lists: &mut Vec<NodeList>,
    node: u32,
) -> bool
    requires lists { KeepsLists board.old away.now lists.old.items }
    requires room { KeepsRoom board.old away.now lists.old.items }
    requires there { node < length board.old.accepted.program.nodes }
    requires turn { HasTurn board.old.accepted.program board.old.plan board.old.position node }
    ensures same { IsSameInstant board.old board.new }
    ensures goes_on { IsPrefix board.old.entries board.new.entries }
    ensures left_dm { board.new.position.at.left_dm ≡ board.old.position.at.left_dm }
    ensures behind { result ≡ true → HasTurn board.new.accepted.program board.new.plan
        board.new.position (node + 1) }
    ensures lists { KeepsLists board.new away.now lists.new.items }
    ensures room { KeepsRoom board.new away.now lists.new.items }
{
    board.reveal_invariant();
    if !board.left(node) {
        return true;
    }
    if !is_mine(board.flight(), away, node) {
        return !is_away(away, node);
    }
    fire_own(board, away, lists, node);
    true
}

// A node that the caller fires does so if it is left and the nodes before it let it; else nothing
// is done. It answers whether the nodes behind it may fire.
fn fire_in_order(
    board: &mut OrderedBoard<'_>,
    away: &[bool],
    lists: &mut Vec<NodeList>,
    node: u32,
    may: bool,
) -> bool
    requires lists { KeepsLists board.old away.now lists.old.items }
    requires room { KeepsRoom board.old away.now lists.old.items }
    requires there { node < length board.old.accepted.program.nodes }
    requires turn { may ≡ true → HasTurn board.old.accepted.program board.old.plan
        board.old.position node }
    ensures same { IsSameInstant board.old board.new }
    ensures goes_on { IsPrefix board.old.entries board.new.entries }
    ensures left_dm { board.new.position.at.left_dm ≡ board.old.position.at.left_dm }
    ensures behind { result ≡ true → HasTurn board.new.accepted.program board.new.plan
        board.new.position (node + 1) }
    ensures lists { KeepsLists board.new away.now lists.new.items }
    ensures room { KeepsRoom board.new away.now lists.new.items }
{
    if !may {
        return false;
    }
    fire_if_mine(board, away, lists, node)
}

// The nodes that the caller fires and that are left do so, in declared order, up to one that a
// worker in a thread is to fire.
fn fire_all_mine(board: &mut OrderedBoard<'_>, away: &[bool], lists: &mut Vec<NodeList>)
    requires lists { KeepsLists board.old away.now lists.old.items }
    requires room { KeepsRoom board.old away.now lists.old.items }
    requires turn { HasTurn board.old.accepted.program board.old.plan board.old.position 0 }
    ensures same { IsSameInstant board.old board.new }
    ensures goes_on { IsPrefix board.old.entries board.new.entries }
    ensures left_dm { board.new.position.at.left_dm ≡ board.old.position.at.left_dm }
    ensures lists { KeepsLists board.new away.now lists.new.items }
    ensures room { KeepsRoom board.new away.now lists.new.items }
{
    let count = board.typed().nodes.len() as u32;
    let mut may = true;
    for node in 0..count {
        may = fire_in_order(board, away, lists, node, may);
    }
}

// All that the caller does in an instant: the inputs, then the decisions, then the firings.
fn work_instant(board: &mut OrderedBoard<'_>, away: &[bool], lists: &mut Vec<NodeList>)
    requires lists { KeepsLists board.old away.now lists.old.items }
    requires room { KeepsRoom board.old away.now lists.old.items }
    ensures same { IsSameInstant board.old board.new }
    ensures goes_on { IsPrefix board.old.entries board.new.entries }
    ensures decided { HaveDecided board.new.position
        (length board.new.accepted.program.modules) }
    ensures lists { KeepsLists board.new away.now lists.new.items }
    ensures room { KeepsRoom board.new away.now lists.new.items }
{
    take_inputs(board);
    decide_all(board);
    fire_all_mine(board, away, lists);
}

// Whether no tick has to wait for a node: it is not left, or a guest flies it and was asked for
// this firing.
fn is_asked(board: &OrderedBoard<'_>, bells: &Bells, node: u32) -> bool
    requires { node < length board.now.accepted.program.nodes }
    ensures { result ≡ true → IsOwn board.now.plan node
        → is_left board.now.position.at node ≡ false }
{
    board.reveal_invariant();
    !board.left(node)
        || (board.flight().guest(node).is_some() && bells.asked(node) > board.fired(node) as usize)
}

// Whether a tick may come, and waits for no node.
fn may_go_on(board: &OrderedBoard<'_>, bells: &Bells) -> bool
    ensures may { IsTrue result → MayTickNow board.now.accepted.program
        board.now.accepted.cert.jitter board.now.position }
    ensures fired { IsTrue result → HaveFired board.now.plan board.now.position
        (length board.now.accepted.program.nodes) }
{
    for node in 0..board.typed().nodes.len() as u32 {
        if !is_asked(board, bells, node) {
            return false;
        }
    }
    board.may_tick()
}

/// All that the caller does until it has to wait for a worker: the instant, and the tick wherever
/// it may come, and so on. Before a tick comes, each guest whose node is left is asked.
pub(crate) fn work_on(
    board: &mut OrderedBoard<'_>,
    bells: &Bells,
    away: &[bool],
    lists: &mut Vec<NodeList>,
)
    requires lists { KeepsLists board.old away.now lists.old.items }
    requires room { KeepsRoom board.old away.now lists.old.items }
    ensures goes_on { GoesOn board.old board.new }
    ensures lists { KeepsLists board.new away.now lists.new.items }
    ensures room { KeepsRoom board.new away.now lists.new.items }
{
    let horizon = board.flight().horizon();
    work_instant(board, away, lists);
    'ticks: while board.time() < horizon && may_go_on(board, bells) {
        board.tick();
        work_instant(board, away, lists);
    }
}

// Whether a node that the caller fires has fired as often as its list is long.
fn is_in_step(board: &OrderedBoard<'_>, away: &[bool], list: &NodeList, node: u32) -> bool
    requires { node < length board.now.accepted.program.nodes }
    ensures { result ≡ true → IsMine board.now.plan away.now node
        → length (drafts_of node board.now.entries) ≡ length list.now.drafts.items }
{
    board.reveal_invariant();
    !is_mine(board.flight(), away, node) || board.fired(node) as usize == list.drafts.len()
}

/// Compares the lists with the board: where a node that the caller fires has fired other than by
/// the caller, it waits without end.
pub(crate) fn compare<R: Wait>(
    rt: &R,
    board: &OrderedBoard<'_>,
    away: &[bool],
    lists: &Vec<NodeList>,
)
    ensures { (seen : List Logged) → IsPrefix seen board.now.entries
        → AreMine (length board.now.accepted.program.nodes) board.now.plan away.now lists.now.items
        seen
        → KeepsLists board.now away.now lists.now.items }
{
    let count = board.typed().nodes.len();
    if lists.len() != count {
        stop(rt);
    }
    board.reveal_invariant();
    for node in 0..count {
        if !is_in_step(board, away, &lists[node], node as u32) {
            stop(rt);
        }
    }
}
