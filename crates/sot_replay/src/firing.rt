//! A line that spells a firing.

ghost use Rattle.std.specs.Prelude.{◌≡◌, ℕ, ◌<◌, ℤ, List, Option, true, None, Some, length};
ghost use Rattle.std.specs.Prelude.{MatchResult, IfOk};
ghost use Rattle.sot_lists.specs.Places.{At};
ghost use Rattle.sot_world.specs.Configurations.{is_left};
ghost use Rattle.sot_world.specs.Events.{RefusesNode};
ghost use Rattle.sot_flight.specs.Plans as plans;
ghost use Rattle.sot_trace.specs.Words.{AreWords};
ghost use Rattle.sot_world.specs.NodeSorts.{IsCodedNode, IsExternalNode};
ghost use Rattle.sot_trace_lines.specs.declared.line.Line.TheVariants.{Fire as IsFire};
ghost use Rattle.sot_replay.specs.Judges.{IsJudged, BeginsAsFiring, FiresAt, SpellsFiringAt};

use crate::desk::LineDesk;
use crate::entry_line::compare;
use crate::fail::LineKind;
use crate::judged::{Judged, kind_of};
use crate::now::is_now;
use crate::ranges::draft_has_64_bits;
use crate::read_on::read_on;
use sot_board::Board;
use sot_lang::Draft;
use sot_trace_lines::Line;
use sot_world::{Event, Why, is_coded};
use std::alloc::AllocError;

// Whether a node can fire.
fn can_fire(board: &Board<'_>, node: u32) -> Result<(), Why>
    requires { node < length board.now.accepted.program.nodes }
    ensures { MatchResult result
        (λ _. is_left board.now.position.at node ≡ true)
        (λ why. RefusesNode board.now.accepted.program board.now.accepted.cert.jitter
        board.now.position.at node why) }
{
    if is_coded(board.typed(), node) {
        return board.world().can(&Event::Code { node });
    }
    let draft = Draft::blank();
    board.world().can(&Event::Guest { node, draft })
}

// A coded node fires, and the line has to be that of its entry.
fn judge_coded(
    board: &mut Board<'_>,
    line: &[u8],
    node: u32,
    desk: &mut LineDesk,
) -> Result<Judged, AllocError>
    requires words { AreWords board.old.accepted.program }
    requires fires { FiresAt board.old.accepted.program board.old.position.at.time line.now node }
    requires coded { IsCodedNode board.old.accepted.program node }
    requires left { is_left board.old.position.at node ≡ true }
    ensures { IfOk result (IsJudged board.old board.new line.now) }
{
    board.reveal_invariant();
    let p = board.typed();
    board.fire(node);
    let judged = compare(board, line);
    read_on(p, line, judged, desk)
}

// A node fires with the draft that the flight states, and the line has to be that of its entry.
fn judge_stated(
    board: &mut Board<'_>,
    line: &[u8],
    node: u32,
    desk: &mut LineDesk,
) -> Result<Judged, AllocError>
    requires words { AreWords board.old.accepted.program }
    requires fires { FiresAt board.old.accepted.program board.old.position.at.time line.now node }
    requires external { IsExternalNode board.old.accepted.program node }
    requires no_guest { (i : ℕ) → At board.old.plan.crews node (plans.Guest i) → ⊥ }
    requires left { is_left board.old.position.at node ≡ true }
    ensures { IfOk result (IsJudged board.old board.new line.now) }
{
    board.reveal_invariant();
    let p = board.typed();
    board.commit_stated(node);
    let judged = compare(board, line);
    read_on(p, line, judged, desk)
}

// A guest's node fires with the draft of the line, and the line has to be that of its entry. No
// guest hands over a number of more than 64 bits.
fn judge_draft(board: &mut Board<'_>, line: &[u8], node: u32, draft: Option<Draft>) -> Judged
    requires words { AreWords board.old.accepted.program }
    requires spelled { SpellsFiringAt board.old.accepted.program board.old.position.at.time line.now
        node draft }
    requires guest { (i : ℕ) × At board.old.plan.crews node (plans.Guest i) }
    requires left { is_left board.old.position.at node ≡ true }
    ensures { IsJudged board.old board.new line.now result }
{
    board.reveal_invariant();
    match draft {
        None => Judged::Fails(LineKind::Differs),
        Some(draft) => {
            let receipt = board.commit_guest(node, draft);
            draft_has_64_bits(&receipt.draft);
            compare(board, line)
        }
    }
}

// The draft of a line that was read as a firing's.
fn draft_of(read: Line) -> Option<Draft>
    requires { (time : Option ℤ) × (node : ℕ) × (draft : Option (List (Option ℤ)))
        × (read ≡ IsFire time node draft) }
    ensures { (time : Option ℤ) (node : ℕ) (draft : Option (List (Option ℤ)))
        → read ≡ IsFire time node draft → result ≡ draft }
{
    match read {
        Line::Fire { draft, .. } => draft,
        _ => unreachable!(),
    }
}

// The line is read to its end for its draft.
fn judge_guest(
    board: &mut Board<'_>,
    line: &[u8],
    node: u32,
    desk: &mut LineDesk,
) -> Result<Judged, AllocError>
    requires words { AreWords board.old.accepted.program }
    requires fires { FiresAt board.old.accepted.program board.old.position.at.time line.now node }
    requires guest { (i : ℕ) × At board.old.plan.crews node (plans.Guest i) }
    requires left { is_left board.old.position.at node ≡ true }
    ensures { IfOk result (IsJudged board.old board.new line.now) }
{
    let Some(read) = desk.read(board.typed(), line)? else {
        return Ok(Judged::Fails(LineKind::NotALine));
    };
    Ok(judge_draft(board, line, node, draft_of(read)))
}

/// Judges a line that begins as a firing does: the node fires, by its code, with the draft that the
/// flight states, or with a guest's draft as the line has it, and the line has to be that of its
/// entry. It is read to its end only for a guest's draft, and where a test fails.
pub fn judge_firing(
    board: &mut Board<'_>,
    line: &[u8],
    time: Option<i64>,
    node: u32,
    desk: &mut LineDesk,
) -> Result<Judged, AllocError>
    requires words { AreWords board.old.accepted.program }
    requires begins { BeginsAsFiring board.old.accepted.program line.now time node }
    ensures { IfOk result (IsJudged board.old board.new line.now) }
{
    board.reveal_invariant();
    let p = board.typed();
    if !is_now(time, board.time()) {
        return read_on(p, line, Judged::Fails(LineKind::WrongTime), desk);
    }
    if let Err(why) = can_fire(board, node) {
        return read_on(p, line, Judged::Fails(kind_of(why)), desk);
    }
    if is_coded(p, node) {
        return judge_coded(board, line, node, desk);
    }
    match board.flight().guest(node) {
        Some(_) => judge_guest(board, line, node, desk),
        None => judge_stated(board, line, node, desk),
    }
}
