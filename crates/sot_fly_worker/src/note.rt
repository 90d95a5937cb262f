//! A draft that is noted.

ghost use Rattle.std.specs.Prelude.{◌≡◌, ◌<◌, ◌++◌, ◌∷◌, [], length, vec_capacity};
ghost use Rattle.sot_board.specs.Versions.{drafts_of};
ghost use Rattle.sot_fly_worker.specs.Rooms.{HasRoomFor};

use sot_lang::Draft;
use sot_ordered_board::OrderedBoard;

/// Notes the draft of a node's last firing behind those of its firings before. A node fires at most
/// once for each time that it is due, so a list that had room for all of these has room for it.
pub fn note_draft(board: &OrderedBoard<'_>, node: u32, drafts: &mut Vec<Draft>, draft: Draft)
    requires there { node < length board.now.accepted.program.nodes }
    requires last { drafts_of node board.now.entries ≡ drafts.old.items ++ draft ∷ [] }
    requires room { HasRoomFor board.now.accepted.program.nodes board.now.plan.horizon node
        (vec_capacity drafts.old) }
    ensures drafts { drafts.new.items ≡ drafts.old.items ++ draft ∷ [] }
    ensures room { vec_capacity drafts.new ≡ vec_capacity drafts.old }
{
    board.reveal_invariant();
    drafts.push_reserved(draft);
}
