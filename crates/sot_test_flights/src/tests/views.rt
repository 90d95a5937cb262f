//! What a node's code gave on a view is committed where the view is current, and on the view of now
//! where it is not.
ghost use Rattle.std.specs.Prelude.{◌≡◌, ◌<◌, true, length};
ghost use Rattle.sot_world.specs.NodeSorts.{IsCodedNode, IsExternalNode};
ghost use Rattle.sot_ordered_board.specs.Crews.{HasNoGuests};
ghost use Rattle.sot_world.specs.Configurations.{is_left};
ghost use Rattle.sot_board.specs.Calls.{InputDue};
ghost use Rattle.sot_board.specs.Commits.{IsTakenFrom, IsRunOn};
ghost use Rattle.sot_board.specs.Views.{IsView};

use super::*;
use sot_board::{Board, Commit, View, code_runs_on_views, views_stay};
use sot_code::{Fired, run_node};
use sot_compose::check_all;
use sot_world::is_coded;

// What a coded node's code gives on the view of now.
fn run(board: &Board<'_>, node: u32, view: &View) -> Fired
    requires coded { IsCodedNode board.now.accepted.program node }
    requires view { IsView board.now.accepted.program board.now.entries board.now.position node
        view.now }
    ensures { IsRunOn board.now.accepted.program view.now result }
{
    board.reveal_invariant();
    code_runs_on_views();
    match run_node(board.typed(), node, view, &view.locals()) {
        Ok(fired) => fired,
        Err(_) => unreachable!(),
    }
}

// The input that is due comes. A view of the board from before it may still be committed.
fn input(board: &mut Board<'_>, node: u32, view: &View)
    requires due { InputDue board.old.position }
    requires view { IsView board.old.accepted.program board.old.entries board.old.position node
        view.now }
    ensures accepted { board.new.accepted ≡ board.old.accepted }
    ensures taken { IsTakenFrom board.new view.now }
{
    board.reveal_invariant();
    views_stay();
    board.input();
}

// An external node fires as the flight states. A view of the board from before it may still be
// committed.
fn fire_stated(board: &mut Board<'_>, writer: u32, reader: u32, view: &View)
    requires no_guests { HasNoGuests board.old.plan }
    requires external { IsExternalNode board.old.accepted.program writer }
    requires left { is_left board.old.position.at writer ≡ true }
    requires view { IsView board.old.accepted.program board.old.entries board.old.position reader
        view.now }
    ensures accepted { board.new.accepted ≡ board.old.accepted }
    ensures taken { IsTakenFrom board.new view.now }
{
    board.reveal_invariant();
    views_stay();
    board.commit_stated(writer);
}

// A view of now may be committed.
fn is_taken(board: &Board<'_>, node: u32, view: &View)
    requires view { IsView board.now.accepted.program board.now.entries board.now.position node
        view.now }
    ensures { IsTakenFrom board.now view.now }
{
    board.reveal_invariant();
    views_stay();
}

// The first number of a view.
fn first(view: &View) -> Option<i64> {
    if view.len() > 0 {
        Some(view.value(0))
    } else {
        None
    }
}

// What comes of committing a view from before an input: what was seen and drafted on it, what is
// seen on the view that is answered, and how many entries there are then; and what is drafted on
// that view, and the receipt.
#[derive(Debug, Drop, PartialEq, Eq)]
struct Late {
    seen: Option<i64>,
    drafted: Option<i64>,
    seen_again: Option<i64>,
    entries: usize,
    drafted_again: Option<i64>,
    place: u32,
    recorded: Option<i64>,
}

// A node's code runs on a view, the input comes, the view is committed, and then the one that is
// answered.
fn commit_late(board: &mut Board<'_>, node: u32) -> Option<Late>
    requires coded { IsCodedNode board.old.accepted.program node }
    requires there { node < length board.old.accepted.program.nodes }
    requires due { InputDue board.old.position }
{
    let view = board.view(node);
    let fired = run(board, node, &view);
    input(board, node, &view);
    if !board.left(node) {
        return None;
    }
    let Commit::Again(again) = board.commit_code(view, &fired) else {
        return None;
    };
    let entries = board.history().len();
    is_taken(board, node, &again);
    let fired_again = run(board, node, &again);
    let Commit::Done(receipt) = board.commit_code(again, &fired_again) else {
        return None;
    };
    Some(Late {
        seen: first(&view),
        drafted: fired.draft.get(0),
        seen_again: first(&again),
        entries,
        drafted_again: fired_again.draft.get(0),
        place: receipt.place,
        recorded: receipt.draft.get(0),
    })
}

#[test]
fn a_view_from_before_an_input_is_not_committed(rt: HostRuntime) {
    let alloc = rt.alloc();
    let text = with_flight(
        &rt,
        alloc,
        RELAY,
        "{\"crew\":{},\"format\":1,\"horizon\":0,\"inputs\":[{\"at\":0,\"topic\":\"e\",\"value\":[5]}],\"start\":{},\"sway\":{}}",
    );
    let loaded = loaded(&rt, alloc, text.as_str(), 0);
    let Some(stated) = &loaded.flight else {
        panic!(rt; "no flight");
    };
    let Ok(accepted) = check_all(&rt, &loaded.program, &loaded.cert) else {
        panic!(rt; "the mission is refused");
    };
    let Ok(mut board) = Board::open(alloc, &accepted, stated) else {
        panic!(rt; "the flight does not start");
    };
    if board.typed().nodes.len() == 0 || !is_coded(board.typed(), 0) || !board.due_input() {
        panic!(rt; "no node with code, or no input");
    }
    let said = Late {
        seen: Some(0),
        drafted: Some(0),
        seen_again: Some(5),
        entries: 1,
        drafted_again: Some(5),
        place: 1,
        recorded: Some(5),
    };
    same(&rt, "late", commit_late(&mut board, 0), Some(said));
}

// What `copy` copies, once `fast` has fired beside it.
#[derive(Debug, Drop, PartialEq, Eq)]
enum Copied {
    // The view from before is committed, with this draft.
    Done(Option<i64>),
    // The view is not committed, and this is what is seen now.
    Again(Option<i64>),
}

// A reader's code runs on a view, a writer fires as the flight states, and the view is committed.
fn commit_beside(board: &mut Board<'_>, writer: u32, reader: u32) -> Option<Copied>
    requires no_guests { HasNoGuests board.old.plan }
    requires external { IsExternalNode board.old.accepted.program writer }
    requires coded { IsCodedNode board.old.accepted.program reader }
    requires there { writer < length board.old.accepted.program.nodes }
    requires reader_there { reader < length board.old.accepted.program.nodes }
{
    if !board.left(writer) {
        return None;
    }
    let view = board.view(reader);
    let fired = run(board, reader, &view);
    fire_stated(board, writer, reader, &view);
    if !board.left(reader) {
        return None;
    }
    match board.commit_code(view, &fired) {
        Commit::Done(receipt) => Some(Copied::Done(receipt.draft.get(0))),
        Commit::Again(again) => Some(Copied::Again(first(&again))),
    }
}

// A vehicle whose command is copied.
const COPIED: &str = "topic cmd: int[-2..2] = 0;
topic seen: int[-2..2] = 0;
plant pos { state x: int; input cmd; noise w: int[-1..1]; next x = (x + cmd) + w; }
external fast period 4 offset 0 { reads pos; writes cmd; }
node slow period 2 offset 0 {
  reads pos;
  writes cmd;
  do { publish cmd = if pos.x > 10 then -2 else if pos.x < -10 then 2 else 0; }
}
node copy period 4 offset 0 { reads cmd; writes seen; do { publish seen = cmd; } }
module nav { ac fast; sc slow; period 4 offset 0; plant pos; safe [-40..40]; safer [-10..10]; }
%certificate
{\"format\":1,\"modules\":{\"nav\":{\"closed\":[[[-40,-11]],[[-10,10]],[[11,40]]],\"reach\":[[[-10,10]]]}}}
";

const TWO: &str = "{\"drafts\":[[2]],\"kind\":\"script\"}";

const SEVEN: &str = "{\"drafts\":[[7]],\"kind\":\"script\"}";

// The first module decides, if it is to.
fn prepare(board: &mut Board<'_>, decides: bool)
    ensures plan { board.new.plan ≡ board.old.plan }
{
    if decides && board.typed().modules.len() > 0 && board.left_dm(0) {
        board.decide(0);
    }
}

// What `copy` copies beside the first firing of `fast` with this script, before the first decision
// or after it.
fn beside(
    rt: &(impl Abort + Threads + Sync),
    alloc: Global,
    crew: &str,
    decides: bool,
) -> Option<Copied> {
    let flight = flight(rt, alloc, "10", "0", "{\"kind\":\"low\"}", crew);
    let text = with_flight(rt, alloc, COPIED, flight.as_str());
    let loaded = loaded(rt, alloc, text.as_str(), 0);
    let Some(stated) = &loaded.flight else {
        panic!(rt; "no flight");
    };
    has_no_guests(&loaded.program, stated);
    let Ok(accepted) = check_all(rt, &loaded.program, &loaded.cert) else {
        panic!(rt; "the mission is refused");
    };
    let Ok(mut board) = Board::open(alloc, &accepted, stated) else {
        panic!(rt; "the flight does not start");
    };
    prepare(&mut board, decides);
    let p = board.typed();
    if p.nodes.len() < 3 || is_coded(p, 0) || !is_coded(p, 2) {
        panic!(rt; "the nodes have other sorts");
    }
    commit_beside(&mut board, 0, 2)
}

#[test]
fn a_draft_that_is_not_published_changes_no_view(rt: HostRuntime) {
    let alloc = rt.alloc();
    // Before the first decision `fast` is idle, and after it it is enabled.
    let idle = beside(&rt, alloc, TWO, false);
    same(&rt, "idle", idle, Some(Copied::Done(Some(0))));
    let refused = beside(&rt, alloc, SEVEN, true);
    same(&rt, "refused", refused, Some(Copied::Done(Some(0))));
    let published = beside(&rt, alloc, TWO, true);
    same(&rt, "published", published, Some(Copied::Again(Some(2))));
}
