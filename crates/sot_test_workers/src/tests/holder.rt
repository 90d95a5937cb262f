//! A guest that is held until another one was called.

use sot_board::View;
use sot_fly_worker::Controller;
use sot_lang::Draft;
use std::alloc::Global;
use std::sync::Arc;
use std::sync::atomic::{AtomicBool, Ordering};

/// How often it looks whether the other was called, before it gives up.
const TURNS: u64 = 1_000_000_000;

/// A guest that says that it was called, and answers once the other was, or gives up. It tells
/// nothing.
#[derive(Drop)]
pub struct Holder {
    pub called: Arc<AtomicBool, Global>,
    pub other: Arc<AtomicBool, Global>,
    pub met: Arc<AtomicBool, Global>,
}

impl Controller for Holder {
    ghost use Rattle.std.specs.Prelude.{None};

    ghost asked = { λ _. None };

    fn decide(&mut self, _view: &View, _draft: &mut Draft) {
        self.called.store(true, Ordering::SeqCst);
        for _ in 0..TURNS {
            if self.other.load(Ordering::SeqCst) {
                self.met.store(true, Ordering::SeqCst);
                return;
            }
        }
    }
}

/// A guest that says that it was called. It drafts and tells nothing.
#[derive(Drop)]
pub struct Caller {
    pub called: Arc<AtomicBool, Global>,
}

impl Controller for Caller {
    ghost use Rattle.std.specs.Prelude.{None};

    ghost asked = { λ _. None };

    fn decide(&mut self, _view: &View, _draft: &mut Draft) {
        self.called.store(true, Ordering::SeqCst);
    }
}
