//! A guest that drafts two numbers by turns, and keeps its askings.

ghost use Rattle.std.specs.Prelude.{◌≡◌, [], false};
ghost use Rattle.sot_test_workers.specs.Kept.{told_of};

use sot_board::View;
use sot_fly_worker::Controller;
use sot_lang::Draft;
use std::alloc::Global;
use std::mem::swap;

/// An asking: what was seen, and what was drafted.
#[derive(Clone, Copy)]
pub struct Kept {
    pub view: View,
    pub draft: Draft,
}

/// A guest that drafts a number in its first slot, or nothing, and the other one the next time.
/// Once it finds no memory for an asking, it tells nothing.
#[derive(Drop)]
pub struct Keeper {
    pub number: Option<i64>,
    pub other: Option<i64>,
    pub kept: Vec<Kept>,
    pub lost: bool,
}

impl Keeper {
    /// One that was never asked.
    pub fn new(alloc: Global, number: Option<i64>, other: Option<i64>) -> Keeper
        ensures number { result.number ≡ number }
        ensures other { result.other ≡ other }
        ensures kept { result.kept.items ≡ [] }
        ensures lost { result.lost ≡ false }
    {
        Keeper {
            number,
            other,
            kept: Vec::new(alloc),
            lost: false,
        }
    }
}

impl Controller for Keeper {
    ghost asked = { λ k. told_of k.lost k.kept.items };

    fn decide(&mut self, view: &View, draft: &mut Draft) {
        if let Some(number) = self.number {
            draft.set(0, number);
        }
        swap(&mut self.number, &mut self.other);
        let kept = Kept {
            view: *view,
            draft: *draft,
        };
        if self.kept.push(kept).is_err() {
            self.lost = true;
        }
    }
}
