//! A worker's job.

ghost use Rattle.std.specs.Prelude.{◌≡◌, false};

use crate::controller::Controller;
use sot_eval_flat::Flat;
use sot_lang::Draft;
use sot_ordered_board::OrderedBoard;
use sot_turn::Pass;

/// A worker's job: its node, whether the flight is at its end, the pass by which it takes turns,
/// the drafts of its node's firings so far, the guest that flies the node, where one does, and the
/// flat form of the node's body, where it is to run by one. The list of drafts has room for all
/// that will come.
#[derive(Drop)]
pub struct Shift<'a, C: Controller> {
    pub node: u32,
    pub finished: bool,
    pub pass: Pass<OrderedBoard<'a>>,
    pub drafts: Vec<Draft>,
    pub guest: Option<C>,
    pub form: Option<Flat>,
}

impl<'a, C: Controller> Shift<'a, C> {
    /// One that is not at the end of the flight.
    pub(crate) fn unfinished(
        node: u32,
        pass: Pass<OrderedBoard<'a>>,
        drafts: Vec<Draft>,
        guest: Option<C>,
        form: Option<Flat>,
    ) -> Shift<'a, C>
        ensures { (result.node ≡ node) × (result.finished ≡ false) × (result.pass ≡ pass.entry)
            × (result.drafts ≡ drafts) × (result.guest ≡ guest) × (result.form ≡ form) }
    {
        Shift {
            node,
            finished: false,
            pass,
            drafts,
            guest,
            form,
        }
    }
}
