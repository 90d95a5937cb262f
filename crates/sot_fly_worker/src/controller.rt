//! Who drafts for a node that a guest flies.

ghost use Rattle.std.specs.Prelude.{◌≡◌, List, Option, None, replicate};
ghost use Rattle.sot_board.specs.Views.{viewed_numbers};
ghost use Rattle.sot_fly_worker.specs.Askings.{Asking, asking, AsksOneMore};

use sot_board::View;
use sot_lang::Draft;

/// A guest. It may tell the list of its askings, and tells no list from then on where it cannot
/// keep one.
pub trait Controller: Drop {
    ghost asked: { Self → Option (List Asking) };

    /// Drafts what a node writes, from what the node sees. The draft handed in is blank, and may be
    /// left so.
    fn decide(&mut self, view: &View, draft: &mut Draft)
        requires blank { draft.old ≡ replicate 8 None }
        ensures asked { AsksOneMore (asked self.old) (asked self.new)
            (asking (viewed_numbers view.now) draft.new) };
}

/// A guest in a box, so that guests of several types fly one flight.
impl Controller for Box<dyn Controller + Send> {
    ghost asked = { λ b. (Controller-box b).asked b.value };

    fn decide(&mut self, view: &View, draft: &mut Draft) {
        (**self).decide(view, draft)
    }
}
