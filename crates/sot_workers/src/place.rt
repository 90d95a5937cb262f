//! Where a guest, and the worker of a node that no guest flies, is while a flight is flown.

use crate::lists::NodeList;
use sot_fly_worker::{Controller, Shift, Works};
use sot_ordered_board::OrderedBoard;
use sot_turn::Pass;
use std::thread::PromisedHandle;

/// A guest that no node names, or the shift with which it is to leave.
#[derive(Drop)]
pub(crate) enum Job<'a, C: Controller> {
    Stays(C),
    Leaves(Shift<'a, C>),
}

/// A guest that stays, a shift that runs in a thread, or one that could not be started. Nothing is
/// there only while such a shift takes a turn.
#[derive(Drop)]
pub(crate) enum Place<'a, C: Controller> {
    Stays(C),
    Out(PromisedHandle<Shift<'a, C>, Works<'a, C>>),
    Here(Option<Shift<'a, C>>),
}

/// Who fires a node: the worker of its guest, which has a place of its own; or the caller, with
/// whom the pass of the node's job stays; or a shift that runs in a thread.
#[derive(Drop)]
pub(crate) enum Station<'a, C: Controller> {
    Guest,
    Caller(Pass<OrderedBoard<'a>>),
    Thread(PromisedHandle<Shift<'a, C>, Works<'a, C>>),
}

/// A guest that is back, with the list of the node that it has flown, if any.
#[derive(Drop)]
pub(crate) struct Done<C> {
    pub(crate) guest: C,
    pub(crate) list: Option<NodeList>,
}
