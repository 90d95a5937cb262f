//! Whose tubes are followed.

ghost use Rattle.std.specs.Prelude.{◌≡◌, ◌<◌, IsTrue, IfSome};
ghost use Rattle.sot_lists.specs.Places.{At};
ghost use Rattle.sot_lang.specs.TableRules.{MeetsTableRules};
ghost use Rattle.sot_traps.specs.Verdict.{HaveSafeBoxes};
ghost use Rattle.sot_invariant_atoms.specs.Asking.{MayAsk, IsAsked, asked_width};

use sot_iv::{Ranges, seen_hulls};
use sot_lang::{ModuleInfo, StateInfo, Typed};
use sot_rta::{module_at, plant_at};
use std::marker::Model;

/// A module of a program whose plant is followed, under its safe node, with firings that may be
/// late by the jitter, and the hulls of the plants that it sees.
#[derive(Drop)]
pub struct ModuleAsk<'a> {
    program: &'a Typed,
    info: &'a ModuleInfo,
    jitter: u32,
    seen: Ranges,
}

impl<'a> Model for ModuleAsk<'a> {
    ghost use Rattle.sot_invariant_atoms.specs.Asking.{Asked, IsAsked};
    ghost use Rattle.sot_lang.specs.TableRules.{MeetsTableRules};
    ghost use Rattle.sot_lang.specs.contracts.term.Term as term;
    ghost use Rattle.sot_lang.specs.contracts.act.Act as act;
    ghost use Rattle.std.specs.Coded.{codes};

    ghost Value = { Asked };

    ghost coded = { Prim.hlevel (codes, term.the_row.coded, act.the_row.coded) };

    ghost view = { λ q. record {
      program = q.program.now;
      info = q.info.now;
      jitter = q.jitter;
      seen = q.seen;
    } };

    ghost invariant = { λ q. MeetsTableRules q.program.now × IsAsked (record {
      program = q.program.now;
      info = q.info.now;
      jitter = q.jitter;
      seen = q.seen;
    }) };
}

// Whether the safe region of each module has a box.
fn have_safe_boxes(program: &Typed) -> bool
    ensures { IsTrue result → HaveSafeBoxes program.now }
{
    for info in &program.modules {
        if info.safe.len() == 0 {
            return false;
        }
    }
    true
}

/// Whether the tubes of a module may be asked about: it is there, the safe region of each module
/// has a box, and the jitter is below 1,000.
pub fn may_ask(program: &Typed, module: u32, jitter: u32) -> bool
    ensures { IsTrue result → MayAsk program.now «module» jitter }
{
    (module as usize) < program.modules.len() && jitter < 1000 && have_safe_boxes(program)
}

impl<'a> ModuleAsk<'a> {
    /// The question about module `module`, as `of`. `None` where the module is not there, the safe
    /// region of some module has no box, or the jitter is not below 1,000.
    pub fn new(program: &'a Typed, module: u32, jitter: u32) -> Option<ModuleAsk<'a>>
        ensures program { IfSome result (λ q. q.program ≡ program.now) }
        ensures info { IfSome result (λ q. At program.now.modules «module» q.info) }
        ensures jitter { IfSome result (λ q. q.jitter ≡ jitter) }
    {
        if !may_ask(program, module, jitter) {
            return None;
        }
        Some(ModuleAsk::of(program, module, jitter))
    }

    /// The question about module `module`. The hulls of seen plants are those of the program's safe
    /// regions. Takes no memory.
    pub fn of(program: &'a Typed, module: u32, jitter: u32) -> ModuleAsk<'a>
        requires { MayAsk program.now «module» jitter }
        ensures program { result.program ≡ program.now }
        ensures info { At program.now.modules «module» result.info }
        ensures jitter { result.jitter ≡ jitter }
    {
        let info = module_at(program, module);
        let plant = plant_at(program, info.plant);
        let seen = seen_hulls(program, &plant.sees);
        ModuleAsk {
            program,
            info,
            jitter,
            seen,
        }
    }

    /// The program.
    pub fn program(&self) -> &'a Typed
        ensures value { result.now ≡ self.now.program }
        ensures rules { MeetsTableRules self.now.program }
        ensures asked { IsAsked self.now }
    {
        self.program
    }

    /// How many state variables the module's plant has.
    pub fn width(&self) -> usize
        ensures { result ≡ asked_width self.now }
    {
        let p = self.program();
        let plant = plant_at(p, self.info().plant);
        let states: &[StateInfo] = &plant.states;
        states.len()
    }

    /// The module.
    pub fn info(&self) -> &'a ModuleInfo
        ensures { result.now ≡ self.now.info }
    {
        self.info
    }

    /// By how many ticks a firing may be late.
    pub fn jitter(&self) -> u32
        ensures value { result ≡ self.now.jitter }
        ensures below { result < 1000 }
    {
        self.jitter
    }

    /// The intervals of the states of seen plants, one plant after another.
    pub(crate) fn seen(&self) -> &Ranges
        ensures { result.now ≡ self.now.seen }
    {
        &self.seen
    }
}
