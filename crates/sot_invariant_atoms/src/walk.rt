//! A walk along a tube of a question's plant, box by box.

ghost use Rattle.std.specs.Prelude.{◌≡◌, length, MatchOption};
ghost use Rattle.sot_lang.specs.TableRules.{MeetsTableRules};
ghost use Rattle.sot_iv.specs.PlantTicks.{MayTickBox};
ghost use Rattle.sot_invariant_atoms.specs.Asking.{asked_width};
ghost use Rattle.sot_invariant_atoms.specs.Walking.{GoesBy, GoesTo, GoesHeld, MayTrapNext};
ghost use Rattle.sot_invariant_atoms.specs.Walking.{HasNoHeldTube};

use crate::ask::ModuleAsk;
use sot_box::{BoxN, Interval};
use sot_iv::{Ranges, iv_plant_over, put_front, put_plant_ranges, put_types};
use sot_lang::Typed;
use sot_rta::{cell_draft, node_at, plant_at, put_commands};
use std::marker::Model;

/// A plant on its way along a tube, with commands and the states of seen plants in intervals that
/// stay the same.
#[derive(Drop)]
pub(crate) struct Walk<'a> {
    program: &'a Typed,
    plant: u32,
    area: BoxN,
    names: Ranges,
    ticks: u32,
}

impl<'a> Model for Walk<'a> {
    ghost use Rattle.sot_invariant_atoms.specs.Walking.{Walked, Goes};
    ghost use Rattle.sot_lang.specs.TableRules.{MeetsTableRules};
    ghost use Rattle.sot_lang.specs.contracts.term.Term as term;
    ghost use Rattle.sot_lang.specs.contracts.act.Act as act;
    ghost use Rattle.std.specs.Coded.{codes};

    ghost Value = { Walked };

    ghost coded = { Prim.hlevel (codes, term.the_row.coded, act.the_row.coded) };

    ghost view = { λ w. record {
      program = w.program.now;
      plant = w.plant;
      area = w.area;
      names = w.names;
      ticks = w.ticks;
    } };

    ghost invariant = { λ w. MeetsTableRules w.program.now × Goes (record {
      program = w.program.now;
      plant = w.plant;
      area = w.area;
      names = w.names;
      ticks = w.ticks;
    }) };
}

/// One box of a tube. It is settled if it lies in the box before it, as all later ones do then.
#[derive(Clone, Copy)]
pub(crate) struct Step {
    pub(crate) area: BoxN,
    pub(crate) settled: bool,
}

// Whether each side of a box lies in that of another.
fn lies_in(b: &BoxN, other: &BoxN) -> bool
    requires { length b.now ≡ length other.now }
{
    for i in 0..b.len() {
        let inner = b.side(i);
        let outer = other.side(i);
        if inner.lo < outer.lo || outer.hi < inner.hi {
            return false;
        }
    }
    true
}

impl<'a> Walk<'a> {
    // A walk of a plant from a box, with commands and the states of seen plants in these intervals.
    fn from(
        program: &'a Typed,
        plant: u32,
        area: &BoxN,
        held: &[Interval],
        seen: &[Interval],
        ticks: u32,
    ) -> Walk<'a>
        requires rules { MeetsTableRules program.now }
        requires step { MayTickBox program.now plant area.now held.now seen.now }
        ensures program { result.program ≡ program.now }
        ensures plant { result.plant ≡ plant }
        ensures area { result.area ≡ area.now }
        ensures ticks { result.ticks ≡ ticks }
        ensures goes { GoesBy result held.now seen.now }
    {
        let mut names = Ranges::none();
        put_plant_ranges(program, plant, area, held, seen, &mut names);
        Walk {
            program,
            plant,
            area: *area,
            names,
            ticks,
        }
    }

    /// The walk along the held tube of a box: with what the safe node surely drafts there, for the
    /// node's period and the jitter. `None` where the node may trap.
    pub(crate) fn held(ask: &ModuleAsk<'a>, area: &BoxN) -> Option<Walk<'a>>
        requires { length area.now ≡ asked_width ask.now }
        ensures { MatchOption result (HasNoHeldTube ask.now area.now)
            (λ w. GoesHeld ask.now area.now w) }
    {
        let p = ask.program();
        let info = ask.info();
        let plant = plant_at(p, info.plant);
        let sc = node_at(p, info.sc);
        let Ok(draft) = cell_draft(p, info, sc, area) else {
            return None;
        };
        let mut inline = [Interval { lo: 0, hi: 0 }; 8];
        let (held, _) = inline.split_at_mut(plant.inputs.len());
        put_commands(p, &plant.inputs, &sc.writes, &draft, held);
        let seen = ask.seen().as_slice();
        let ticks = sc.period + ask.jitter();
        Some(Walk::from(p, info.plant, area, held, seen, ticks))
    }

    /// The walk along the tube of a box under any commands of their types, for two periods of the
    /// module, each longer by the jitter.
    pub(crate) fn any(ask: &ModuleAsk<'a>, area: &BoxN) -> Walk<'a>
        requires { length area.now ≡ asked_width ask.now }
        ensures { result.area ≡ area.now }
    {
        let p = ask.program();
        let info = ask.info();
        let plant = plant_at(p, info.plant);
        let mut types = Ranges::none();
        put_types(&p.scalars, &plant.inputs, &mut types);
        let seen = ask.seen().as_slice();
        let ticks = 2 * (info.period + ask.jitter());
        Walk::from(p, info.plant, area, types.as_slice(), seen, ticks)
    }

    /// How many ticks the whole walk has.
    pub(crate) fn ticks(&self) -> u32
        ensures { result ≡ self.now.ticks }
    {
        self.ticks
    }

    /// Goes on by a tick. `None` where it may trap.
    pub(crate) fn step(&mut self) -> Option<Step>
        ensures step { MatchOption result (MayTrapNext self.old)
            (λ s. GoesTo self.old s.area self.new) }
        ensures rules { MeetsTableRules self.old.program }
    {
        let Ok(next) = iv_plant_over(self.program, self.plant, &self.names) else {
            return None;
        };
        let settled = lies_in(&next, &self.area);
        put_front(&next, &mut self.names);
        self.area = next;
        Some(Step {
            area: next,
            settled,
        })
    }
}
