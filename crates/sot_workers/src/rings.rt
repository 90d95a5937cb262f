//! For whom the caller rings.

ghost use Rattle.std.specs.Prelude.{◌<◌, length};

use sot_fly_worker::Bells;
use sot_ordered_board::{OrderedBoard, next_to_fire};
use std::alloc::{AllocError, Global};

/// For whom the caller rings once it has given its turn back, and for which firing of each node it
/// rang last, from 1 on. Who is rung for wants the turn, so nobody is while it is held.
#[derive(Drop)]
pub(crate) struct Rings {
    rung: Vec<u32>,
    waiting: Vec<bool>,
    next: Option<u32>,
}

impl Rings {
    /// None yet, of so many nodes.
    pub(crate) fn new(alloc: Global, nodes: usize) -> Result<Rings, AllocError> {
        Ok(Rings {
            rung: Vec::from_elem(alloc, 0, nodes)?,
            waiting: Vec::from_elem(alloc, false, nodes)?,
            next: None,
        })
    }

    // Whether the worker of a node, in a thread, is to be rung for: its node is left, a guest flies
    // it or its body is long, and it was not rung for this firing; or a guest flies it, and the
    // flight is at its end.
    fn is_to_ring(
        &mut self,
        board: &OrderedBoard<'_>,
        long: &[bool],
        node: u32,
        finished: bool,
    ) -> bool
        requires { node < length board.now.accepted.program.nodes }
    {
        board.reveal_invariant();
        let place = node as usize;
        let is_long = place < long.len() && long[place];
        let is_guest = board.flight().guest(node).is_some();
        if finished {
            return is_guest;
        }
        if !board.left(node) || !(is_long || is_guest) {
            return false;
        }
        let firing = board.fired(node).saturating_add(1);
        if place >= self.rung.len() || self.rung[place] == firing {
            return false;
        }
        self.rung[place] = firing;
        true
    }

    /// Notes in a turn for whom to ring after it: for the workers of guests and of long bodies
    /// whose nodes are left, once a firing, for the one whose node fires next, and at the end of
    /// the flight for all guests'.
    pub(crate) fn note(&mut self, board: &OrderedBoard<'_>, long: &[bool]) {
        let finished = board.finished();
        for node in 0..board.typed().nodes.len() as u32 {
            let rings = self.is_to_ring(board, long, node, finished);
            let place = node as usize;
            if rings && place < self.waiting.len() {
                self.waiting[place] = true;
            }
        }
        self.next = next_to_fire(board);
    }

    /// Rings for all that were noted, for the one whose node fires next first. For a node of the
    /// caller's own nobody hears it.
    pub(crate) fn ring(&mut self, bells: &Bells) {
        if let Some(node) = self.next {
            bells.ring_next(node);
            self.next = None;
            let place = node as usize;
            if place < self.waiting.len() {
                self.waiting[place] = false;
            }
        }
        let nodes = self.waiting.len().min(u32::MAX as usize);
        for node in 0..nodes as u32 {
            let place = node as usize;
            if self.waiting[place] {
                self.waiting[place] = false;
                bells.ring(node);
            }
        }
    }
}
