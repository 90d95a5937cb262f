//! A flight that is stepped event by event, and what its board tells in between. The numbers are
//! worked out by hand.
ghost use Rattle.std.specs.Prelude.{◌<◌, length};

use super::*;
use sot_board::Board;
use sot_code::Seen;
use sot_compose::check_all;
use sot_lang::Draft;
use sot_turn_journal::Journal;
use sot_world::Mode;
use std::alloc::AllocError;

// What is done to a board.
#[derive(Clone, Copy)]
enum Deed {
    Input,
    Decide,
    Draft(i64),
    Tick,
}

// The flight's next input comes, if it is due. Each of these answers whether it was done.
fn input(board: &mut Board<'_>) -> bool {
    if board.due_input() {
        board.input();
        return true;
    }
    false
}

// The module decides, if it is left to.
fn decide(board: &mut Board<'_>) -> bool {
    if board.typed().modules.len() > 0 && board.left_dm(0) {
        return board.decide(0) == Mode::Ac;
    }
    false
}

// The first node fires with a guest's draft of a number, if it has a guest and is left to. The
// receipt has the place and the draft.
fn draft(board: &mut Board<'_>, number: i64) -> bool {
    board.reveal_invariant();
    if board.typed().nodes.len() == 0 || !board.left(0) {
        return false;
    }
    let Some(_) = board.flight().guest(0) else {
        return false;
    };
    let mut draft = Draft::blank();
    draft.set(0, number);
    let entries = board.history().len();
    let receipt = board.commit_guest(0, draft);
    receipt.place as usize == entries && receipt.draft == draft
}

// All plants tick, if they may.
fn tick(board: &mut Board<'_>) -> bool {
    if board.may_tick() && board.time() < board.flight().horizon() {
        board.tick();
        return true;
    }
    false
}

fn does(board: &mut Board<'_>, deed: Deed) -> bool {
    match deed {
        Deed::Input => input(board),
        Deed::Decide => decide(board),
        Deed::Draft(number) => draft(board, number),
        Deed::Tick => tick(board),
    }
}

// What a node sees in a slot: on a view, and where it stands.
fn seen(board: &Board<'_>, node: u32, slot: usize) -> Option<(i64, i64)>
    requires { node < length board.now.accepted.program.nodes }
{
    let view = board.view(node);
    let lent = board.lend(node);
    if slot < view.len() {
        Some((view.value(slot), lent.read(slot)))
    } else {
        None
    }
}

// Adds the two numbers of a slot.
fn push_seen(board: &Board<'_>, slot: usize, text: &mut String) -> Result<(), AllocError>
    requires { 0 < length board.now.accepted.program.nodes }
{
    match seen(board, 0, slot) {
        Some((kept, now)) => write!(text, " {kept} {now}"),
        None => text.push_str(" nothing"),
    }
}

fn push_if(holds: bool, word: &str, text: &mut String) -> Result<(), AllocError> {
    text.push_str(if holds { word } else { "" })
}

// Adds what a board tells: its time, the length of its history, how often its nodes fired, what the
// first one sees, and what is left.
fn push_told(board: &Board<'_>, text: &mut String) -> Result<(), AllocError> {
    let p = board.typed();
    if p.nodes.len() < 2 || p.modules.len() == 0 {
        return text.push_str("no nodes");
    }
    let (time, entries, fast, slow) = (board.time(), board.len(), board.fired(0), board.fired(1));
    write!(
        text,
        "time {time} entries {entries} fired {fast} {slow} sees"
    )?;
    push_seen(board, 0, text)?;
    push_seen(board, 1, text)?;
    push_if(board.due_input(), " input", text)?;
    push_if(board.left_dm(0), " decision", text)?;
    push_if(board.left(0), " fast", text)?;
    push_if(board.left(1), " slow", text)?;
    push_if(board.settled(), " settled", text)?;
    push_if(board.may_tick(), " may tick", text)?;
    push_if(board.finished(), " finished", text)?;
    text.push_str("\n")
}

// The input comes first, then the module switches to the advanced node, whose guest drafts 2; the
// wind is -1.
const TOLD: &str = "time 0 entries 0 fired 0 0 sees 3 3 0 0 input decision fast
time 0 entries 1 fired 0 0 sees 3 3 5 5 decision fast
time 0 entries 2 fired 0 0 sees 3 3 5 5 fast
time 0 entries 3 fired 1 0 sees 3 3 5 5 settled may tick
time 1 entries 4 fired 1 0 sees 4 4 5 5 settled may tick finished
";

#[test]
fn a_board_tells_what_is_left(rt: HostRuntime) {
    let alloc = rt.alloc();
    let text = format!(in alloc; "{GUIDED}{ONE_TICK}").expect(&rt, "memory");
    let loaded = loaded(&rt, alloc, text.as_str(), 1);
    let Some(flight) = &loaded.flight else {
        panic!(rt; "no flight");
    };
    let Ok(accepted) = check_all(&rt, &loaded.program, &loaded.cert) else {
        panic!(rt; "the mission is refused");
    };
    let Ok(mut board) = Board::open(alloc, &accepted, flight) else {
        panic!(rt; "the flight does not start");
    };
    let mut told = String::new(alloc);
    push_told(&board, &mut told).expect(&rt, "memory");
    for deed in [Deed::Input, Deed::Decide, Deed::Draft(2), Deed::Tick] {
        same(&rt, "done", does(&mut board, deed), true);
        push_told(&board, &mut told).expect(&rt, "memory");
    }
    same(&rt, "told", told.as_str(), TOLD);
}
