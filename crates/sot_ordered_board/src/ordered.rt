//! A board whose history is in order, and what stands on it.

ghost use Rattle.std.specs.Prelude.{◌≡◌, ◌<◌, [], length, IsTrue, ◌↔◌};
ghost use Rattle.sot_world.specs.Configurations.{is_left, is_left_dm};
ghost use Rattle.sot_board.specs.Flown.{IsEnd};
ghost use Rattle.sot_board.specs.Versions.{drafts_of};
ghost use Rattle.sot_board.specs.Standing.{IsStanding};
ghost use Rattle.sot_board.specs.Calls.{InputDue, MayTickNow};
ghost use Rattle.sot_board.specs.Views.{IsView};
ghost use Rattle.sot_ordered_board.specs.Order.{IsInOrder};

use sot_board::{Board, View};
use sot_flight::Flight;
use sot_lang::Typed;
use std::marker::Model;

/// A board that is flown in order. What contracts see of it is what they see of the board; its type
/// keeps that the history is in order.
#[derive(Drop)]
pub struct OrderedBoard<'a> {
    pub(crate) board: Board<'a>,
}

impl<'a> Model for OrderedBoard<'a> {
    ghost use Rattle.sot_board.specs.Standing.{Standing};
    ghost use Rattle.sot_lang.specs.contracts.term.Term as term;
    ghost use Rattle.sot_lang.specs.contracts.act.Act as act;
    ghost use Rattle.std.specs.Coded.{codes};

    ghost Value = { Standing };

    ghost coded = { Prim.hlevel (codes, term.the_row.coded, act.the_row.coded) };

    ghost use Rattle.sot_ordered_board.specs.Order.{IsInOrder};

    ghost view = { λ it. it.board };

    ghost invariant = { λ it. IsInOrder it.board };
}

impl<'a> OrderedBoard<'a> {
    /// A board with no entry, from now on flown in order.
    pub fn new(board: Board<'a>) -> OrderedBoard<'a>
        requires opened { board.entries ≡ [] }
        ensures { result ≡ board.entry }
    {
        board.reveal_invariant();
        OrderedBoard { board }
    }

    /// The board with its history.
    pub fn into_board(self) -> Board<'a>
        ensures same { result ≡ self.entry }
        ensures in_order { IsInOrder result }
    {
        self.board
    }

    /// Does nothing, and tells the proof what the type of the board keeps.
    pub fn reveal_invariant(&self)
        ensures { IsStanding self.now }
    {
        self.board.reveal_invariant();
    }

    /// Does nothing, and tells the proof that the history is in order.
    pub fn reveal_order(&self)
        ensures { IsInOrder self.now }
    {
        // A look at a field brings what the type keeps.
        let _board = &self.board;
    }

    /// The program.
    pub fn typed(&self) -> &'a Typed
        ensures { result.now ≡ self.now.accepted.program }
    {
        self.board.typed()
    }

    /// The flight.
    pub fn flight(&self) -> &'a Flight
        ensures { result.now ≡ self.now.plan }
    {
        self.board.flight()
    }

    /// The count of ticks so far.
    pub fn time(&self) -> u32
        ensures { result ≡ self.now.position.at.time }
    {
        self.board.time()
    }

    /// How often a node has fired.
    pub fn fired(&self, node: u32) -> u32
        requires { node < length self.now.accepted.program.nodes }
        ensures { result ≡ length (drafts_of node self.now.entries) }
    {
        self.board.fired(node)
    }

    /// Whether a node is still to fire.
    pub fn left(&self, node: u32) -> bool
        requires { node < length self.now.accepted.program.nodes }
        ensures { result ≡ is_left self.now.position.at node }
    {
        self.board.left(node)
    }

    /// Whether a module is still to decide.
    pub fn left_dm(&self, module: u32) -> bool
        requires { «module» < length self.now.accepted.program.modules }
        ensures { result ≡ is_left_dm self.now.position.at «module» }
    {
        self.board.left_dm(module)
    }

    /// Whether the flight's next input is due now.
    pub fn due_input(&self) -> bool
        ensures { IsTrue result ↔ InputDue self.now.position }
    {
        self.board.due_input()
    }

    /// Whether a tick may come: nothing that is left has its deadline now, and no input is due now.
    pub fn may_tick(&self) -> bool
        ensures { IsTrue result ↔ MayTickNow self.now.accepted.program self.now.accepted.cert.jitter
            self.now.position }
    {
        self.board.may_tick()
    }

    /// Whether the flight is at its end: its horizon, with nothing left.
    pub fn finished(&self) -> bool
        ensures { IsTrue result ↔ IsEnd self.now.accepted.program self.now.plan self.now.position }
    {
        self.board.finished()
    }

    /// What a node sees now.
    pub fn view(&self, node: u32) -> View
        requires { node < length self.now.accepted.program.nodes }
        ensures { IsView self.now.accepted.program self.now.entries self.now.position node result }
    {
        self.board.view(node)
    }
}
