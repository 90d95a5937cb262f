//! What the caller and the workers of a flight tell each other beside the board.

use std::alloc::{AllocError, Global};
use std::hint::spin_loop;
use std::sync::Wait;
use std::sync::atomic::{AtomicBool, AtomicUsize, Ordering};
use std::thread::Parker;

// A worker that may be the next one looks so often before it parks: the nodes of an instant often
// come to their end together, and to wake a thread takes longer than such a while.
const LOOKS: u32 = 1000;

/// What the worker of a node hears and tells: that it is not to begin, that it has a thread, that
/// it is to look at the board again, and for how many firings its guest was asked.
#[derive(Drop)]
struct Bell {
    refused: AtomicBool,
    out: AtomicBool,
    wake: Parker,
    asked: AtomicUsize,
}

/// A bell for each node of a flight, and the caller's. A ring that comes before its listener parks
/// is remembered. At a node that has none, nothing is heard and all is answered with no.
#[derive(Drop)]
pub struct Bells {
    nodes: Vec<Bell>,
    caller: Parker,
    // The place of the node that fires next and whose worker is rung for, behind 0 for none. It
    // only tells who looks that a ring has come.
    next: AtomicUsize,
}

impl Bells {
    /// Bells for so many nodes.
    pub fn new(alloc: Global, count: usize) -> Result<Bells, AllocError> {
        let mut nodes = Vec::with_capacity(alloc, count)?;
        for _ in 0..count {
            nodes.push_reserved(Bell {
                refused: AtomicBool::new(false),
                out: AtomicBool::new(false),
                wake: Parker::new(),
                asked: AtomicUsize::new(0),
            });
        }
        Ok(Bells {
            nodes,
            caller: Parker::new(),
            next: AtomicUsize::new(0),
        })
    }

    /// Rings for the worker of a node.
    pub fn ring(&self, node: u32) {
        if let Some(bell) = self.nodes.get(node as usize) {
            bell.wake.unpark();
        }
    }

    /// Rings for the worker of the node that fires next.
    pub fn ring_next(&self, node: u32) {
        self.ring(node);
        self.next.store(node as usize + 1, Ordering::SeqCst);
    }

    /// Rings for the caller.
    pub fn ring_caller(&self) {
        self.caller.unpark();
    }

    /// Parks the worker of a node until it is rung for.
    pub fn park<R: Wait>(&self, rt: &R, node: u32) {
        if let Some(bell) = self.nodes.get(node as usize) {
            bell.wake.park(rt);
        }
    }

    /// Looks for a while whether the worker of a node was rung for as the next one, and then parks
    /// it until it is rung for.
    pub fn park_next<R: Wait>(&self, rt: &R, node: u32) {
        for _ in 0..LOOKS {
            if self.next.load(Ordering::SeqCst) == node as usize + 1 {
                break;
            }
            spin_loop();
        }
        self.park(rt, node);
    }

    /// Parks the caller until it is rung for.
    pub fn park_caller<R: Wait>(&self, rt: &R) {
        self.caller.park(rt);
    }

    /// No thread could be made for the worker of a node, which is not to begin.
    pub fn refuse(&self, node: u32) {
        if let Some(bell) = self.nodes.get(node as usize) {
            bell.refused.store(true, Ordering::SeqCst);
        }
    }

    /// Whether the worker of a node is not to begin.
    pub fn is_refused(&self, node: u32) -> bool {
        match self.nodes.get(node as usize) {
            Some(bell) => bell.refused.load(Ordering::SeqCst),
            None => false,
        }
    }

    /// The worker of a node, which no guest flies, has a thread.
    pub fn send_out(&self, node: u32) {
        if let Some(bell) = self.nodes.get(node as usize) {
            bell.out.store(true, Ordering::SeqCst);
        }
    }

    /// Whether the worker of a node that no guest flies has a thread.
    pub fn is_out(&self, node: u32) -> bool {
        match self.nodes.get(node as usize) {
            Some(bell) => bell.out.load(Ordering::SeqCst),
            None => false,
        }
    }

    /// The guest of a node is asked for its firing of this number, from 1 on.
    pub fn note_asked(&self, node: u32, firing: usize) {
        if let Some(bell) = self.nodes.get(node as usize) {
            bell.asked.store(firing, Ordering::SeqCst);
        }
    }

    /// For how many firings the guest of a node was asked.
    pub fn asked(&self, node: u32) -> usize {
        match self.nodes.get(node as usize) {
            Some(bell) => bell.asked.load(Ordering::SeqCst),
            None => 0,
        }
    }
}
