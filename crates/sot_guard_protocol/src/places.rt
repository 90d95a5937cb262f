//! Where the first plants were observed.

ghost use Rattle.std.specs.Prelude.{◌≡◌, ◌<◌, ◌≤◌, ℤ, List, ◌∷◌, ◌++◌, [], ◌↔◌, IsTrue, length};
ghost use Rattle.std.specs.Prelude.{vec_len, vec_capacity};
ghost use Rattle.sot_trace.specs.Words.{AreWords};
ghost use Rattle.sot_trace_lines.specs.Shown.{Holds};
ghost use Rattle.sot_guard_lines.specs.Sayings.{Saying, StartSaid, FitsSaying};
ghost use Rattle.sot_guard_lines.specs.Shown.{ShowsSaid};
ghost use Rattle.sot_guard_protocol.specs.Openings.{HasAll, AnswersStart, IsStarting};

use sot_box::Point;
use sot_guard::Misheard;
use sot_guard_lines::Said;
use sot_trace_lines::keeps_rules;
use sot_tube::Accepted;
use std::marker::Model;

/// An accepted mission, and where its first plants were observed, with room for all.
#[derive(Drop)]
pub(crate) struct Places<'a> {
    accepted: &'a Accepted<'a>,
    starts: Vec<Point>,
}

impl<'a> Model for Places<'a> {
    ghost use Rattle.sot_guard_protocol.specs.Openings.{Starting};
    ghost use Rattle.sot_lang.specs.contracts.term.Term as term;
    ghost use Rattle.sot_lang.specs.contracts.act.Act as act;
    ghost use Rattle.std.specs.Coded.{codes};

    ghost Value = { Starting };

    ghost coded = { Prim.hlevel (codes, term.the_row.coded, act.the_row.coded) };

    ghost use Rattle.sot_guard_protocol.specs.PlacesView.{starting, HasRoom};

    ghost view = { starting };

    ghost invariant = { HasRoom };
}

// Keeps one point more, for which there is room.
fn add(starts: &mut Vec<Point>, point: Point)
    requires { vec_len starts.old < vec_capacity starts.old }
    ensures items { starts.new.items ≡ starts.old.items ++ point ∷ [] }
    ensures room { vec_capacity starts.old ≤ vec_capacity starts.new }
{
    let _ = starts.push(point);
}

impl<'a> Places<'a> {
    /// No plant was observed yet.
    pub(crate) fn new(accepted: &'a Accepted<'a>, starts: Vec<Point>) -> Places<'a>
        requires words { AreWords accepted.now.program }
        requires none { starts.items ≡ [] }
        requires room { length accepted.now.program.plants ≤ vec_capacity starts }
        ensures accepted { result.accepted ≡ accepted.now }
        ensures none { result.starts ≡ [] }
    {
        Places { accepted, starts }
    }

    /// The mission, which lives on where this value does not.
    pub(crate) fn accepted(&self) -> &'a Accepted<'a>
        ensures value { result.now ≡ self.now.accepted }
        ensures words { AreWords result.now.program }
    {
        // A look at a field brings what the type keeps.
        let _count = self.starts.len();
        self.accepted
    }

    /// Whether each plant was observed.
    pub(crate) fn has_all(&self) -> bool
        ensures { IsTrue result ↔ HasAll self.now }
    {
        self.starts.len() == self.accepted.typed().plants.len()
    }

    /// The points so far.
    pub(crate) fn starts(&self) -> &[Point]
        ensures { result.now ≡ self.now.starts }
    {
        &self.starts
    }

    /// The points.
    pub(crate) fn into_starts(self) -> Vec<Point>
        ensures value { result.items ≡ self.entry.starts }
        ensures kept { IsStarting self.entry }
    {
        self.starts
    }

    // The plant of this place is observed.
    fn take_start(&mut self, plant: u32, whole: bool, numbers: &[i64]) -> Result<(), Misheard>
        requires { (point : List ℤ) × FitsSaying self.old.accepted.program (StartSaid plant point)
            × Holds whole numbers.now point }
        ensures { (point : List ℤ) → Holds whole numbers.now point
            → AnswersStart self.old (StartSaid plant point) self.new result }
    {
        keeps_rules(self.accepted.typed());
        if plant as usize != self.starts.len() {
            return Err(Misheard::OutOfTurn);
        }
        if !whole {
            return Err(Misheard::OutsideType);
        }
        match Point::of(numbers) {
            Some(point) => add(&mut self.starts, point),
            None => unreachable!(),
        }
        Ok(())
    }

    /// The next plant is observed, or nothing changes. The numbers of what is said stand in the
    /// list.
    pub(crate) fn take(&mut self, said: Said, numbers: &[i64]) -> Result<(), Misheard>
        requires { (s : Saying) × FitsSaying self.old.accepted.program s
            × ShowsSaid said numbers.now s }
        ensures { (s : Saying) → ShowsSaid said numbers.now s
            → AnswersStart self.old s self.new result }
    {
        match said {
            Said::Start { plant, whole } => self.take_start(plant, whole, numbers),
            Said::Input { .. } => Err(Misheard::OutOfTurn),
            Said::Draft { .. } => Err(Misheard::OutOfTurn),
            Said::Go => Err(Misheard::OutOfTurn),
            Said::Resume => Err(Misheard::OutOfTurn),
            Said::Tick { .. } => Err(Misheard::OutOfTurn),
        }
    }
}
