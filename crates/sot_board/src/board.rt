//! A board: the world of a flight with its history.

ghost use Rattle.std.specs.Prelude.{◌≡◌, ℕ, ◌<◌, true, [], length, IsTrue, ◌↔◌, IfOk, IfErr};
ghost use Rattle.std.specs.Prelude.{IsErrOf};
ghost use Rattle.sot_world.specs.Configurations.{is_left, is_left_dm, IsOpening, IsSafer};
ghost use Rattle.sot_world.specs.Calendar.{NothingLeft};
ghost use Rattle.sot_world.specs.Opens.{StartInside, IsFirstOutside, IfNotSafer};
ghost use Rattle.sot_flight.specs.Fits.{FitsFlight};
ghost use Rattle.sot_board.specs.Flown.{IsStart, IsEnd, fired_of};
ghost use Rattle.sot_board.specs.Versions.{drafts_of};
ghost use Rattle.sot_board.specs.Standing.{IsStanding};
ghost use Rattle.sot_board.specs.Calls.{InputDue, MayTickNow, IsSettled};

use crate::counts::{count_noise, count_states};
use crate::due::is_due;
use crate::left::nothing_left;
use crate::zeros::{no_counts, no_numbers};
use sot_flight::Flight;
use sot_lang::Typed;
use sot_tube::Accepted;
use sot_world::{History, OpenFail, World};
use std::alloc::{AllocError, Global};
use std::marker::Model;

mod calls;
mod commits;
mod views;

/// A world that is flown as a flight states, with the history of what happened. Its type keeps that
/// the history is one of the flight so far: a run from its start, of at most as many ticks as its
/// horizon, with its inputs, each at its time and in order, its disturbances and its stated drafts;
/// and that the world is where this run leads.
#[derive(Drop)]
pub struct Board<'a> {
    world: World<'a>,
    flight: &'a Flight,
    history: History,
    next_input: u32,
    fired: Vec<u32>,
    versions: Vec<u32>,
    // Room for the disturbances and the states of one tick.
    noise: Vec<i64>,
    states: Vec<i64>,
}

impl<'a> Model for Board<'a> {
    ghost use Rattle.sot_board.specs.Standing.{Standing};
    ghost use Rattle.sot_lang.specs.contracts.term.Term as term;
    ghost use Rattle.sot_lang.specs.contracts.act.Act as act;
    ghost use Rattle.std.specs.Coded.{codes};

    ghost Value = { Standing };

    ghost coded = { Prim.hlevel (codes, term.the_row.coded, act.the_row.coded) };

    ghost use Rattle.sot_board.specs.BoardView.{standing, IsBoard};

    ghost view = { standing };

    ghost invariant = { IsBoard };
}

impl<'a> Board<'a> {
    /// A board at the start of a flight of the program: the opening at the flight's points, and no
    /// entry yet. It takes all memory of the flight.
    ///
    /// `NotSafer` names the first module whose plant starts outside the module's safer region;
    /// `Memory` says that there is none, and comes only where every plant starts inside.
    pub fn open(
        alloc: Global,
        acc: &'a Accepted<'a>,
        flight: &'a Flight,
    ) -> Result<Board<'a>, OpenFail>
        requires { (guests : ℕ) × FitsFlight acc.now.program guests flight.now }
        ensures start { IfOk result (λ b. IsStart acc.now.program flight.now b.position) }
        ensures safer { IfOk result (λ b. IsSafer acc.now.program b.position.at) }
        ensures entries { IfOk result (λ b. b.entries ≡ []) }
        ensures accepted { IfOk result (λ b. b.accepted ≡ acc.now) }
        ensures plan { IfOk result (λ b. b.plan ≡ flight.now) }
        ensures not_safer { IfErr result (λ f.
            IfNotSafer f (λ m. IsFirstOutside acc.now.program flight.now.start m)) }
        ensures memory { IsErrOf result OpenFail.Memory
            → StartInside acc.now.program flight.now.start (length acc.now.program.modules) }
    {
        let world = World::open(alloc, acc, flight.start())?;
        match Board::of(alloc, world, flight) {
            Ok(board) => Ok(board),
            Err(_) => Err(OpenFail::Memory),
        }
    }

    // A board at the start, around the opened world.
    fn of(alloc: Global, world: World<'a>, flight: &'a Flight) -> Result<Board<'a>, AllocError>
        requires fits { (guests : ℕ) × FitsFlight world.accepted.program guests flight.now }
        requires opening { IsOpening world.accepted.program flight.now.start world.at }
        ensures start { IfOk result (λ b.
            IsStart world.entry.accepted.program flight.now b.position) }
        ensures same { IfOk result (λ b. b.position.at ≡ world.entry.at) }
        ensures entries { IfOk result (λ b. b.entries ≡ []) }
        ensures accepted { IfOk result (λ b. b.accepted ≡ world.entry.accepted) }
        ensures plan { IfOk result (λ b. b.plan ≡ flight.now) }
    {
        world.reveal_invariant();
        let p = world.typed();
        let history = History::none(alloc, flight.events(), flight.numbers())?;
        let fired = no_counts(alloc, p.nodes.len())?;
        let versions = no_counts(alloc, p.topics.len())?;
        let noise = no_numbers(alloc, count_noise(&p.plants))?;
        let states = no_numbers(alloc, count_states(&p.plants))?;
        Ok(Board {
            world,
            flight,
            history,
            next_input: 0,
            fired,
            versions,
            noise,
            states,
        })
    }

    /// Does nothing, and tells the proof what the type keeps.
    pub fn reveal_invariant(&self)
        ensures { IsStanding self.now }
    {
        // A look at a field brings what the type keeps.
        let _world = &self.world;
    }

    /// The program.
    pub fn typed(&self) -> &'a Typed
        ensures { result.now ≡ self.now.accepted.program }
    {
        self.world.typed()
    }

    /// The flight.
    pub fn flight(&self) -> &'a Flight
        ensures { result.now ≡ self.now.plan }
    {
        self.flight
    }

    /// The world, which is where the history leads.
    pub fn world(&self) -> &World<'a>
        ensures accepted { result.now.accepted ≡ self.now.accepted }
        ensures at { result.now.at ≡ self.now.position.at }
    {
        &self.world
    }

    /// What happened so far.
    pub fn history(&self) -> &History
        ensures { result.now.entries ≡ self.now.entries }
    {
        &self.history
    }

    /// The count of ticks so far, at most the horizon.
    pub fn time(&self) -> u32
        ensures { result ≡ self.now.position.at.time }
    {
        self.world.time()
    }

    /// How often a node has fired.
    pub fn fired(&self, node: u32) -> u32
        requires { node < length self.now.accepted.program.nodes }
        ensures { result ≡ length (drafts_of node self.now.entries) }
    {
        self.fired[node as usize]
    }

    /// Whether a node is still to fire.
    pub fn left(&self, node: u32) -> bool
        requires { node < length self.now.accepted.program.nodes }
        ensures { result ≡ is_left self.now.position.at node }
    {
        self.world.left(node)
    }

    /// Whether a module is still to decide.
    pub fn left_dm(&self, module: u32) -> bool
        requires { «module» < length self.now.accepted.program.modules }
        ensures { result ≡ is_left_dm self.now.position.at «module» }
    {
        self.world.left_dm(module)
    }

    /// Whether the flight's next input is due now.
    pub fn due_input(&self) -> bool
        ensures { IsTrue result ↔ InputDue self.now.position }
    {
        is_due(self.flight, self.next_input, self.world.time())
    }

    /// Whether a tick may come: nothing that is left has its deadline now, and no input is due now.
    pub fn may_tick(&self) -> bool
        ensures { IsTrue result ↔ MayTickNow self.now.accepted.program self.now.accepted.cert.jitter
            self.now.position }
    {
        !self.due_input() && self.world.may_tick()
    }

    /// Whether nothing is left to fire or to decide now.
    pub fn nothing_left(&self) -> bool
        ensures { IsTrue result ↔ NothingLeft self.now.accepted.program self.now.position.at }
    {
        nothing_left(&self.world)
    }

    /// Whether nothing is left to fire, to decide or to input now.
    pub fn settled(&self) -> bool
        ensures { IsTrue result ↔ IsSettled self.now.accepted.program self.now.position }
    {
        !self.due_input() && nothing_left(&self.world)
    }

    /// Whether the flight is at its end: its horizon, with nothing left.
    pub fn finished(&self) -> bool
        ensures { IsTrue result ↔ IsEnd self.now.accepted.program self.now.plan self.now.position }
    {
        self.world.time() == self.flight.horizon() && self.settled()
    }
}
