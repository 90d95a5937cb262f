//! Answers that were given before.

ghost use Rattle.std.specs.Prelude.{◌≡◌, ℕ, ◌+◌, ◌*◌, ◌<◌, true, length, slice_set, IfOk, IfSome};
ghost use Rattle.std.specs.Prelude.{IsTrue, ◌↔◌};
ghost use Rattle.sot_lists.specs.Places.{At};
ghost use Rattle.sot_lang.specs.declared.tables.ModuleInfo.{ModuleInfo};
ghost use Rattle.sot_box.specs.Boxes.{point_box};
ghost use Rattle.sot_tube.specs.Calls.{MayFollow};
ghost use Rattle.sot_tube.specs.Tubes.{Keeps};
ghost use Rattle.sot_world.specs.declared.answers.KeepsAnswer.TheVariants.{Given};
ghost use Rattle.sot_world.specs.Answers.{IsRight};

use sot_box::Point;
use sot_lang::Typed;
use sot_tube::{Accepted, keeps, safer_points_are_kept};
use std::alloc::{AllocError, Global};
use std::marker::Model;

/// Whether a module keeps its plant safe from a point on, as it was answered, or nothing yet.
#[derive(Clone, Copy)]
pub enum KeepsAnswer {
    Nothing,
    Given {
        kept: bool,
        module: u32,
        point: Point,
    },
}

/// Answers that were given of the modules of an accepted program. States come back, and to look for
/// an answer takes some forty instructions, where to follow a tube takes thousands.
#[derive(Drop)]
pub struct Answers<'a> {
    accepted: &'a Accepted<'a>,
    given: Vec<KeepsAnswer>,
}

impl<'a> Model for Answers<'a> {
    ghost use Rattle.std.specs.Prelude.{ℕ};
    ghost use Rattle.sot_lists.specs.Places.{At};
    ghost use Rattle.sot_tube.specs.Admitted.{Admitted};
    ghost use Rattle.sot_world.specs.declared.answers.KeepsAnswer.{KeepsAnswer as AnAnswer};
    ghost use Rattle.sot_world.specs.Answers.{IsRight};
    ghost use Rattle.sot_lang.specs.contracts.term.Term as term;
    ghost use Rattle.sot_lang.specs.contracts.act.Act as act;
    ghost use Rattle.std.specs.Coded.{codes};

    ghost Value = { Admitted };

    ghost coded = { Prim.hlevel (codes, term.the_row.coded, act.the_row.coded) };

    ghost view = { λ a. a.accepted.now };

    ghost invariant = { λ a. (i : ℕ) (answer : AnAnswer) → At a.given.items i answer
        → IsRight a.accepted.now answer };
}

// So many answers are kept of each module.
const PLACES: usize = 64;

// Where the answer of a module at a point is kept. Others may have the same place.
fn place_of(module: u32, s: &Point) -> usize
    ensures { result < 64 * «module» + 64 }
{
    let mut sum = 0;
    for i in 0..s.len() {
        sum = (31 * sum + s.at(i).rem_euclid(PLACES as i64)) % PLACES as i64;
    }
    module as usize * PLACES + sum as usize
}

// Whether two points are one.
fn is_same(a: &Point, b: &Point) -> bool
    ensures { result ≡ true → a.now ≡ b.now }
{
    if a.len() != b.len() {
        return false;
    }
    for i in 0..a.len() {
        if a.at(i) != b.at(i) {
            return false;
        }
    }
    true
}

// What an answer says of a module at a point, if it is one of them.
fn told(answer: &KeepsAnswer, module: u32, s: &Point) -> Option<bool>
    ensures { IfSome result (λ kept. answer.now ≡ Given kept «module» s.now) }
{
    match answer {
        KeepsAnswer::Given {
            kept,
            module: asked,
            point,
        } => {
            if *asked == module && is_same(point, s) {
                Some(*kept)
            } else {
                None
            }
        }
        KeepsAnswer::Nothing => None,
    }
}

impl<'a> Answers<'a> {
    /// None yet, with room for some of each module.
    pub fn none(alloc: Global, acc: &'a Accepted<'a>) -> Result<Answers<'a>, AllocError>
        ensures { IfOk result (λ a. a ≡ acc.now) }
    {
        let places = acc.typed().modules.len() * PLACES;
        Ok(Answers {
            accepted: acc,
            given: Vec::from_elem(alloc, KeepsAnswer::Nothing, places)?,
        })
    }

    /// The program.
    pub fn typed(&self) -> &'a Typed
        ensures { result.now ≡ self.now.program }
    {
        self.accepted.typed()
    }

    // Whether the safer region of a module has a point. From such a point on the certificate shows
    // that the module keeps its plant safe.
    fn is_shown(&self, module: u32, s: &Point) -> bool
        requires { MayFollow self.now.program «module» (point_box s.now) }
        ensures { IsTrue result → (a : ModuleInfo) → At self.now.program.modules «module» a
            → Keeps self.now.program self.now.cert.jitter a s.now }
    {
        safer_points_are_kept();
        let p = self.accepted.typed();
        p.modules[module as usize].safer.has(s)
    }

    // Follows the tube, and keeps what it answers.
    fn ask(&mut self, place: usize, module: u32, s: &Point) -> bool
        requires follow { MayFollow self.old.program «module» (point_box s.now) }
        requires jitter { self.old.cert.jitter < 1000 }
        ensures kept { (a : ModuleInfo) → At self.old.program.modules «module» a
            → IsTrue result ↔ Keeps self.old.program self.old.cert.jitter a s.now }
        ensures same { self.new ≡ self.old }
    {
        let kept = keeps(
            self.accepted.typed(),
            module,
            s,
            self.accepted.cert().jitter,
        );
        if place < self.given.len() {
            self.given[place] = KeepsAnswer::Given {
                kept,
                module,
                point: *s,
            };
        }
        kept
    }

    // What is kept of a module at a point, if it is at this place.
    fn recall(&self, place: usize, module: u32, s: &Point) -> Option<bool>
        ensures { IfSome result (λ kept. IsRight self.now (Given kept «module» s.now)) }
    {
        match self.given.get(place) {
            Some(answer) => told(answer, module, s),
            None => None,
        }
    }

    /// Whether a module keeps its plant safe from a point on for two of its periods, each longer by
    /// the jitter, whatever the commands. No tube is followed from a point of the safer region, nor
    /// from one whose answer is still there.
    pub fn keeps(&mut self, module: u32, s: &Point) -> bool
        requires follow { MayFollow self.old.program «module» (point_box s.now) }
        requires jitter { self.old.cert.jitter < 1000 }
        ensures kept { (a : ModuleInfo) → At self.old.program.modules «module» a
            → IsTrue result ↔ Keeps self.old.program self.old.cert.jitter a s.now }
        ensures same { self.new ≡ self.old }
    {
        if self.is_shown(module, s) {
            return true;
        }
        let place = place_of(module, s);
        match self.recall(place, module, s) {
            Some(kept) => kept,
            None => self.ask(place, module, s),
        }
    }
}
