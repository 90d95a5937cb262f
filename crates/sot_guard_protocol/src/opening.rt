//! Where a robot's plants are observed first.

ghost use Rattle.std.specs.Prelude.{◌≡◌, ◌≤◌, ◌↔◌, [], IsTrue, IfOk, IfErr, OnOk, OnErr};
ghost use Rattle.std.specs.Prelude.{vec_capacity};
ghost use Rattle.sot_trace.specs.Words.{AreWords};
ghost use Rattle.sot_guard_lines.specs.Room.{said_room};
ghost use Rattle.sot_guard_protocol.specs.Openings.{HasAll, TakesStart, IsNoStart, IsStarting};

use crate::places::Places;
use sot_box::Point;
use sot_guard::Misheard;
use sot_guard_lines::{numbers_of_lines, read_said};
use sot_tube::Accepted;
use std::alloc::{AllocError, Global};
use std::marker::Model;

/// An accepted mission, and where its first plants were observed, with room for the numbers of any
/// line.
#[derive(Drop)]
pub struct TalkOpening<'a> {
    places: Places<'a>,
    numbers: Vec<i64>,
}

impl<'a> Model for TalkOpening<'a> {
    ghost use Rattle.sot_guard_protocol.specs.Openings.{Starting};
    ghost use Rattle.sot_lang.specs.contracts.term.Term as term;
    ghost use Rattle.sot_lang.specs.contracts.act.Act as act;
    ghost use Rattle.std.specs.Coded.{codes};

    ghost Value = { Starting };

    ghost coded = { Prim.hlevel (codes, term.the_row.coded, act.the_row.coded) };

    ghost use Rattle.sot_guard_protocol.specs.OpeningView.{HearsAnyLine};

    ghost view = { λ o. o.places };

    ghost invariant = { HearsAnyLine };
}

/// The lists of an opening, once nothing more is heard of it.
#[derive(Drop)]
pub(crate) struct Lists {
    /// Where the plants were observed.
    pub(crate) starts: Vec<Point>,
    /// Room for the numbers of any line.
    pub(crate) numbers: Vec<i64>,
}

impl<'a> TalkOpening<'a> {
    /// No plant was observed yet. The error is want of memory.
    pub fn new(alloc: Global, acc: &'a Accepted<'a>) -> Result<TalkOpening<'a>, AllocError>
        requires words { AreWords acc.now.program }
        ensures accepted { IfOk result (λ o. o.accepted ≡ acc.now) }
        ensures none { IfOk result (λ o. o.starts ≡ []) }
    {
        let p = acc.typed();
        let starts = Vec::with_capacity(alloc, p.plants.len())?;
        let numbers = numbers_of_lines(alloc, p)?;
        let places = Places::new(acc, starts);
        Ok(TalkOpening { places, numbers })
    }

    /// Whether each plant was observed, so that the talk may begin.
    pub fn has_all(&self) -> bool
        ensures { IsTrue result ↔ HasAll self.now }
    {
        self.places.has_all()
    }

    /// The mission, which lives on where this value does not.
    pub(crate) fn accepted(&self) -> &'a Accepted<'a>
        ensures value { result.now ≡ self.now.accepted }
        ensures words { AreWords result.now.program }
    {
        self.places.accepted()
    }

    /// The lists.
    pub(crate) fn into_lists(self) -> Lists
        ensures starts { result.starts.items ≡ self.entry.starts }
        ensures kept { IsStarting self.entry }
        ensures room { said_room self.entry.accepted.program ≤ vec_capacity result.numbers }
    {
        Lists {
            numbers: self.numbers,
            starts: self.places.into_starts(),
        }
    }

    /// Where the plants were observed so far, in declared order.
    pub fn starts(&self) -> &[Point]
        ensures { result.now ≡ self.now.starts }
    {
        self.places.starts()
    }

    /// Hears a line of the robot, without its line end: where the next plant in declared order was
    /// observed. After an error nothing has changed.
    pub fn hear(&mut self, line: &[u8]) -> Result<(), Misheard>
        ensures heard { OnOk result (TakesStart self.old line.now self.new) }
        ensures same { OnErr result (self.new ≡ self.old) }
        ensures unheard { IfErr result (λ why. IsNoStart self.old line.now why) }
    {
        let p = self.places.accepted().typed();
        match read_said(p, line, &mut self.numbers) {
            Some(said) => self.places.take(said, &self.numbers),
            None => Err(Misheard::NotALine),
        }
    }
}
