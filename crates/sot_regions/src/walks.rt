//! Walks from which holds of the safe node need not lead back.
//!
//! Each step goes from an atom into one in which a hold from there may end, outside the safer region.
//! The holds of a level end in those before it, and the first one lies in the safer region. So an
//! atom from which such a walk never ends is in no level.

ghost use Rattle.std.specs.Prelude.{◌≡◌, ◌<◌, ◌≤◌, length};
ghost use Rattle.sot_regions.specs.Searches.{IsOutside};

use crate::cells::MOST_CELLS;
use sot_atoms::{Block, Grid};
use sot_box::{BoxN, Interval, Region};
use sot_invariant_atoms::{ModuleAsk, held_boxes};
use sot_rta::node_at;
use std::alloc::{AllocError, Global};

// How many boxes of the safe region walks begin in, from each corner.
const STARTS: usize = 8;

// How many ticks of held tubes all walks together may take, and one step.
const MOST_TICKS: u64 = 1_048_576;

const MOST_STEP_TICKS: u64 = 4096;

/// Where walks go: atoms of a grid, in the safe region and outside the safer one.
#[derive(Clone, Copy)]
pub(crate) struct Outside<'a> {
    pub(crate) alloc: Global,
    pub(crate) ask: &'a ModuleAsk<'a>,
    pub(crate) grid: &'a Grid,
    pub(crate) safe: &'a Region,
    pub(crate) safer: &'a Region,
}

/// Where a step leads.
#[derive(Clone, Copy)]
enum Lead {
    /// Into this atom.
    To(Block),
    /// Out of the safe region, or the node or the plant may trap.
    Away,
    /// Nowhere that is known to be outside the safer region.
    Home,
}

// The corner of a box that is the upper end on the sides whose bits of the number are set.
fn corner(area: &BoxN, number: usize) -> BoxN
    ensures { length result ≡ length area.now }
{
    let mut sides = [Interval { lo: 0, hi: 0 }; 4];
    for i in 0..area.len() {
        let side = area.side(i);
        let end = if number >> i & 1 == 1 {
            side.hi
        } else {
            side.lo
        };
        sides[i] = Interval { lo: end, hi: end };
    }
    BoxN::of(&sides[..area.len()]).unwrap()
}

// How many ticks a held tube has.
fn tube_ticks(ask: &ModuleAsk<'_>) -> u64 {
    let period = node_at(ask.program(), ask.info().sc).period;
    u64::from(period).saturating_add(u64::from(ask.jitter()))
}

// How many steps all walks together may take.
fn most_steps(ask: &ModuleAsk<'_>) -> u64 {
    let ticks = tube_ticks(ask);
    if ticks > MOST_STEP_TICKS {
        return 0;
    }
    MOST_TICKS / ticks.max(1)
}

// How many boxes of a held tube come before those in which a hold may end.
fn boxes_before(ask: &ModuleAsk<'_>) -> usize {
    let period = node_at(ask.program(), ask.info().sc).period;
    (period.saturating_sub(ask.jitter()) as usize).saturating_sub(1)
}

impl Outside<'_> {
    // Where the corner of a box is that has this number.
    fn at_corner(&self, area: &BoxN, number: usize) -> Lead
        requires outside { IsOutside self.now }
        requires width { length area.now ≡ self.now.grid.now.width }
    {
        let Some(atom) = self.grid.block(&corner(area, number)) else {
            return Lead::Away;
        };
        let points = self.grid.area(&atom);
        if !self.safe.covers(&points) {
            return Lead::Away;
        }
        if self.safer.covers(&points) {
            return Lead::Home;
        }
        Lead::To(atom)
    }

    // Where the corners of a box lead, from the one of this number on: the first that is not home.
    fn in_box(&self, area: &BoxN, number: usize) -> Lead
        requires outside { IsOutside self.now }
        requires width { length area.now ≡ self.now.grid.now.width }
    {
        for turned in 0..16usize {
            match self.at_corner(area, number ^ turned) {
                Lead::Home => {}
                lead => return lead,
            }
        }
        Lead::Home
    }

    // Where a hold from an atom may lead. Of a tube that is known only up to boxes before its holds
    // end nothing is told.
    fn step(&self, atom: &Block, number: usize) -> Result<Lead, AllocError>
        requires { IsOutside self.now }
    {
        let Some(boxes) = held_boxes(self.alloc, self.ask, &self.grid.area(atom))? else {
            return Ok(Lead::Away);
        };
        for place in boxes_before(self.ask)..boxes.len() {
            match self.in_box(&boxes[place], number) {
                Lead::Home => {}
                lead => return Ok(lead),
            }
        }
        Ok(Lead::Home)
    }

    // Whether a walk from an atom never ends, or takes more steps than there may be levels. It is
    // back where it was if it comes to an atom that is kept from before.
    fn goes_on(&self, from: Block, number: usize, steps: &mut u64) -> Result<bool, AllocError>
        requires { IsOutside self.now }
    {
        let mut atom = from;
        let mut kept = from;
        let mut next_kept = 1;
        for count in 0..MOST_CELLS + 1 {
            if *steps == 0 {
                return Ok(false);
            }
            *steps -= 1;
            match self.step(&atom, number)? {
                Lead::To(next) => atom = next,
                Lead::Away => return Ok(true),
                Lead::Home => return Ok(false),
            }
            if atom == kept {
                return Ok(true);
            }
            if count == next_kept {
                kept = atom;
                next_kept = count.saturating_mul(2);
            }
        }
        Ok(true)
    }

    // Whether a walk from some corner of a box of the safe region goes on.
    fn goes_on_in(&self, area: &BoxN, steps: &mut u64) -> Result<bool, AllocError>
        requires outside { IsOutside self.now }
        requires width { length area.now ≡ self.now.grid.now.width }
    {
        for number in 0..16usize {
            if number >> area.len() > 0 {
                break;
            }
            if let Lead::To(atom) = self.at_corner(area, number) {
                if self.goes_on(atom, number, steps)? {
                    return Ok(true);
                }
            }
        }
        Ok(false)
    }

    /// Whether a walk is found that shows an atom in no level. No atom of a coarser grid around it
    /// is in one then. There may be such atoms where none is found.
    pub(crate) fn has_endless(&self) -> Result<bool, AllocError>
        requires { IsOutside self.now }
    {
        let mut steps = most_steps(self.ask);
        let each = self.safe.len() / STARTS + 1;
        for place in 0..self.safe.len() {
            if place % each == 0 && self.goes_on_in(&self.safe.at(place), &mut steps)? {
                return Ok(true);
            }
        }
        Ok(false)
    }
}
