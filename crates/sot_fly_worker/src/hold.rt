//! Firings, each committed in a turn of its own.

ghost use Rattle.std.specs.Prelude.{◌≡◌, ◌<◌, ℕ, ℤ, List, Option, true, Some, length, take};
ghost use Rattle.std.specs.Prelude.{vec_capacity};
ghost use Rattle.sot_lists.specs.Places.{At};
ghost use Rattle.sot_turn.specs.Passes.{lock_of, pass_lock, pass_ground, pass_seen, pass_added};
ghost use Rattle.sot_turn.specs.Passes.{held_lock, held_ground, held_seen, held_added, held_value};
ghost use Rattle.sot_code.specs.Recorded.{in_slots};
ghost use Rattle.sot_eval_flat.specs.FlatForm.{IsFlatOf, IsFormOf};
ghost use Rattle.sot_world.specs.Configurations.{is_left};
ghost use Rattle.sot_world.specs.Events.{slot_count};
ghost use Rattle.sot_flight.specs.Plans as plans;
ghost use Rattle.sot_board.specs.Versions.{drafts_of};
ghost use Rattle.sot_board.specs.Standing.{Standing};
ghost use Rattle.sot_board.specs.Views.{viewed_node};
ghost use Rattle.sot_board.specs.Commits.{IsTakenFrom, IsRunOn};
ghost use Rattle.sot_world.specs.NodeSorts.{IsCodedNode, IsExternalNode};
ghost use Rattle.sot_ordered_board.specs.Turns.{FiresNext};
ghost use Rattle.sot_fly_worker.specs.Holds.{HasNode, IsDueView, IsSeen, Appends, HasFired};
ghost use Rattle.sot_fly_worker.specs.Holds.{Notes, HasRoomIn};
ghost use Rattle.sot_fly_worker.specs.Rooms.{HasRoomFor};

use crate::bells::Bells;
use crate::note::note_draft;
use crate::order::{Follower, ring_for, who_follows};
use crate::take::{stop, take_in_step, take_next};
use sot_board::{Commit, Receipt, View};
use sot_code::{Fired, run_node};
use sot_eval_flat::Flat;
use sot_lang::{Draft, Typed};
use sot_ordered_board::OrderedBoard;
use sot_turn::{Held, Pass, Turn};
use std::sync::Wait;

/// A node whose draft the flight states fires with it.
pub(crate) fn fire_stated<'a, R: Wait>(
    rt: &R,
    turn: &Turn<OrderedBoard<'a>>,
    bells: &Bells,
    pass: Pass<OrderedBoard<'a>>,
    node: u32,
    drafts: &mut Vec<Draft>,
) -> Pass<OrderedBoard<'a>>
    requires lock { pass_lock pass ≡ lock_of turn.now }
    requires there { HasNode (pass_ground pass) node }
    requires external { (a : _) (f : _) → pass_ground pass ≡ Some (a, f)
        → IsExternalNode a.program node }
    requires drafts { drafts.old.items ≡ drafts_of node (pass_seen pass) }
    requires room { HasRoomIn (pass_ground pass) node (vec_capacity drafts.old) }
    ensures lock { pass_lock result ≡ pass_lock pass.entry }
    ensures ground { pass_ground result ≡ pass_ground pass.entry }
    ensures fired { (draft : List (Option ℤ))
        × HasFired node draft (pass_seen pass.entry) (pass_seen result)
        (pass_added pass.entry) (pass_added result) }
    ensures drafts { drafts.new.items ≡ drafts_of node (pass_seen result) }
    ensures room { vec_capacity drafts.new ≡ vec_capacity drafts.old }
{
    let mut held = take_next(rt, turn, bells, pass, node, drafts);
    let follower = commit_stated(held.lend(), bells, node, drafts);
    let pass = turn.give(held);
    ring_for(bells, follower);
    pass
}

// Commits it, notes its draft, and says who goes on.
fn commit_stated(
    board: &mut OrderedBoard<'_>,
    bells: &Bells,
    node: u32,
    drafts: &mut Vec<Draft>,
) -> Follower
    requires next { FiresNext board.old node }
    requires external { IsExternalNode board.old.accepted.program node }
    requires drafts { drafts_of node board.old.entries ≡ drafts.old.items }
    requires room { HasRoomFor board.old.accepted.program.nodes board.old.plan.horizon node
        (vec_capacity drafts.old) }
    ensures notes { Notes board.old board.new node drafts.old.items drafts.new.items }
    ensures room { vec_capacity drafts.new ≡ vec_capacity drafts.old }
{
    let receipt = board.commit_stated(node);
    note_draft(board, node, drafts, receipt.draft);
    who_follows(board, bells)
}

/// A coded node fires with what its code gives on the view, or on the present numbers where what it
/// reads has changed since.
pub(crate) fn fire_code<'a, R: Wait>(
    rt: &R,
    turn: &Turn<OrderedBoard<'a>>,
    bells: &Bells,
    pass: Pass<OrderedBoard<'a>>,
    p: &Typed,
    view: View,
    form: &Option<Flat>,
    drafts: &mut Vec<Draft>,
) -> Pass<OrderedBoard<'a>>
    requires lock { pass_lock pass ≡ lock_of turn.now }
    requires there { HasNode (pass_ground pass) (viewed_node view) }
    requires coded { IsCodedNode p.now (viewed_node view) }
    requires form { IsFormOf p.now (viewed_node view) form.now }
    requires seen { (seen : IsSeen (pass_ground pass) (pass_seen pass) (viewed_node view) view)
        × (p.now ≡ seen.board.accepted.program) }
    requires drafts { drafts.old.items ≡ drafts_of (viewed_node view) (pass_seen pass) }
    requires room { HasRoomIn (pass_ground pass) (viewed_node view) (vec_capacity drafts.old) }
    ensures lock { pass_lock result ≡ pass_lock pass.entry }
    ensures ground { pass_ground result ≡ pass_ground pass.entry }
    ensures fired { (draft : List (Option ℤ))
        × HasFired (viewed_node view) draft (pass_seen pass.entry) (pass_seen result)
        (pass_added pass.entry) (pass_added result) }
    ensures drafts { drafts.new.items ≡ drafts_of (viewed_node view) (pass_seen result) }
    ensures room { vec_capacity drafts.new ≡ vec_capacity drafts.old }
{
    let fired = run(p, &view, form);
    let mut held = take_next(rt, turn, bells, pass, view.node(), drafts);
    let follower = commit_run(held.lend(), bells, view, &fired, drafts);
    let pass = turn.give(held);
    ring_for(bells, follower);
    pass
}

// What the code of a view's node gives on it, by its flat form where there is one.
fn run(p: &Typed, view: &View, form: &Option<Flat>) -> Fired
    requires coded { IsCodedNode p.now (viewed_node view.now) }
    requires due { (b : Standing) × (p.now ≡ b.accepted.program)
        × IsDueView b (viewed_node view.now) view.now }
    requires form { IsFormOf p.now (viewed_node view.now) form.now }
    ensures { IsRunOn p.now view.now result }
{
    match form {
        Some(flat) => run_flat(p, view, flat),
        None => run_tree(p, view),
    }
}

fn run_flat(p: &Typed, view: &View, flat: &Flat) -> Fired
    requires coded { IsCodedNode p.now (viewed_node view.now) }
    requires due { (b : Standing) × (p.now ≡ b.accepted.program)
        × IsDueView b (viewed_node view.now) view.now }
    requires flat { IsFlatOf p.now (viewed_node view.now) flat.now }
    ensures { IsRunOn p.now view.now result }
{
    let mut locals = view.locals();
    let mut draft = Draft::blank();
    let Ok(()) = flat.run(p, view.node(), view, &mut locals, &mut draft) else {
        unreachable!()
    };
    Fired { locals, draft }
}

fn run_tree(p: &Typed, view: &View) -> Fired
    requires coded { IsCodedNode p.now (viewed_node view.now) }
    requires due { (b : Standing) × (p.now ≡ b.accepted.program)
        × IsDueView b (viewed_node view.now) view.now }
    ensures { IsRunOn p.now view.now result }
{
    let locals = view.locals();
    let Ok(fired) = run_node(p, view.node(), view, &locals) else {
        unreachable!()
    };
    fired
}

// Commits it, or fires anew where the view is an older one, notes the draft, and says who goes on.
fn commit_run(
    board: &mut OrderedBoard<'_>,
    bells: &Bells,
    view: View,
    fired: &Fired,
    drafts: &mut Vec<Draft>,
) -> Follower
    requires next { FiresNext board.old (viewed_node view) }
    requires coded { IsCodedNode board.old.accepted.program (viewed_node view) }
    requires taken { IsTakenFrom board.old view }
    requires ran { IsRunOn board.old.accepted.program view fired.now }
    requires drafts { drafts_of (viewed_node view) board.old.entries ≡ drafts.old.items }
    requires room { HasRoomFor board.old.accepted.program.nodes board.old.plan.horizon
        (viewed_node view) (vec_capacity drafts.old) }
    ensures notes { Notes board.old board.new (viewed_node view) drafts.old.items drafts.new.items }
    ensures room { vec_capacity drafts.new ≡ vec_capacity drafts.old }
{
    let receipt = commit_or_fire(board, view, fired);
    note_draft(board, view.node(), drafts, receipt.draft);
    who_follows(board, bells)
}

fn commit_or_fire(board: &mut OrderedBoard<'_>, view: View, fired: &Fired) -> Receipt
    requires next { FiresNext board.old (viewed_node view) }
    requires coded { IsCodedNode board.old.accepted.program (viewed_node view) }
    requires taken { IsTakenFrom board.old view }
    requires ran { IsRunOn board.old.accepted.program view fired.now }
    ensures { Appends board.old board.new (viewed_node view) result.draft }
{
    match board.commit_code(view, fired) {
        Commit::Done(receipt) => receipt,
        Commit::Again(_) => board.fire(view.node()),
    }
}

/// A node that a guest flies fires with the guest's draft.
pub(crate) fn fire_guest<'a, R: Wait>(
    rt: &R,
    turn: &Turn<OrderedBoard<'a>>,
    pass: Pass<OrderedBoard<'a>>,
    node: u32,
    draft: Draft,
    drafts: &mut Vec<Draft>,
) -> Pass<OrderedBoard<'a>>
    requires lock { pass_lock pass ≡ lock_of turn.now }
    requires there { HasNode (pass_ground pass) node }
    requires guest { (a : _) (f : _) → pass_ground pass ≡ Some (a, f)
        → (i : ℕ) × At f.crews node (plans.Guest i) }
    requires drafts { drafts.old.items ≡ drafts_of node (pass_seen pass) }
    requires room { HasRoomIn (pass_ground pass) node (vec_capacity drafts.old) }
    ensures lock { pass_lock result ≡ pass_lock pass.entry }
    ensures ground { pass_ground result ≡ pass_ground pass.entry }
    ensures fired { (a : _) (f : _) → pass_ground pass.entry ≡ Some (a, f)
        → HasFired node (in_slots (take (slot_count a.program node) draft)) (pass_seen pass.entry)
        (pass_seen result) (pass_added pass.entry) (pass_added result) }
    ensures drafts { drafts.new.items ≡ drafts_of node (pass_seen result) }
    ensures room { vec_capacity drafts.new ≡ vec_capacity drafts.old }
{
    let mut held = take_in_step(rt, turn, pass, node, drafts);
    commit_draft(rt, held.lend(), node, draft, drafts);
    turn.give(held)
}

fn commit_draft<R: Wait>(
    rt: &R,
    board: &mut OrderedBoard<'_>,
    node: u32,
    draft: Draft,
    drafts: &mut Vec<Draft>,
)
    requires there { node < length board.old.accepted.program.nodes }
    requires guest { (i : ℕ) × At board.old.plan.crews node (plans.Guest i) }
    requires drafts { drafts_of node board.old.entries ≡ drafts.old.items }
    requires room { HasRoomFor board.old.accepted.program.nodes board.old.plan.horizon node
        (vec_capacity drafts.old) }
    ensures notes { (notes : Notes board.old board.new node drafts.old.items drafts.new.items)
        × (notes.draft ≡ in_slots (take (slot_count board.old.accepted.program node) draft)) }
    ensures room { vec_capacity drafts.new ≡ vec_capacity drafts.old }
{
    if !board.left(node) {
        stop(rt);
    }
    let receipt = board.commit_guest(node, draft);
    note_draft(board, node, drafts, receipt.draft);
}
