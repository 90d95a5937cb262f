//! Regions: lists of boxes, and what they cover.

ghost use Rattle.std.specs.Prelude.{◌≡◌, ℕ, [], ◌∷◌, ◌++◌, ◌<◌, ◌≤◌, length, slice_get, Some};
ghost use Rattle.std.specs.Prelude.{false, true, OnOk, OnErr, IfErr, IfSome, MatchOption, IsTrue};
ghost use Rattle.std.specs.Prelude.{◌↔◌};
ghost use Rattle.sot_box.specs.Sides.{AreOrdered};
ghost use Rattle.sot_box.specs.Regions.{IsInRegion, Covers, IsGap, IsHull, IsFirstGap, CoversAll};
ghost use Rattle.sot_box.specs.Sweep.{HoldsAt};

use crate::box_n::BoxN;
use crate::index::Index;
use crate::point::Point;
use crate::sweep::{advance, narrow};
use std::alloc::{AllocError, Global};
use std::marker::Model;

/// Boxes of one width, in order. A point is in the region where it is in some box. A box that holds
/// a point is looked for among all boxes, or by the index where [`Region::settle`] has made one;
/// the answers are the same.
pub struct Region {
    width: usize,
    boxes: Vec<BoxN>,
    // of the boxes as they are, where there is one
    index: Option<Index>,
}

impl Drop for Region {
    fn drop(self) {
        let Region {
            width: _,
            boxes: _,
            index: _,
        } = self;
    }
}

impl Model for Region {
    ghost use Rattle.std.specs.Prelude.{◌≡◌, length, is_some, MatchOption};
    ghost use Rattle.std.specs.List.{All};
    ghost use Rattle.sot_box.specs.Sides.{AreOrdered};
    ghost use Rattle.sot_box.specs.BoxList.{BoxList};
    ghost use Rattle.sot_box.specs.Index.{IsIndex};

    ghost Value = { BoxList };

    ghost view = { λ r. record {
      width = r.width;
      boxes = r.boxes.items;
      settled = is_some r.index;
    } };

    ghost invariant = { λ r. record {
      boxes : All (λ b. (length b ≡ r.width) × AreOrdered b) r.boxes.items;
      index : MatchOption r.index (Unit {0})
          (λ x. IsIndex r.boxes.items x.entries.items x.reaches.items);
    } };
}

impl Region {
    /// A region of no box, whose boxes will have so many axes. It takes no memory, and keeps the
    /// allocator for those that are pushed.
    pub fn none(alloc: Global, width: usize) -> Region
        ensures width { result.width ≡ width }
        ensures empty { result.boxes ≡ [] }
        ensures unsettled { result.settled ≡ false }
    {
        Region {
            width,
            boxes: Vec::new(alloc),
            index: None,
        }
    }

    /// The number of boxes.
    pub fn len(&self) -> usize
        ensures { result ≡ length self.now.boxes }
    {
        self.boxes.len()
    }

    /// The box at place `i`, in the order in which they were pushed.
    pub fn at(&self, i: usize) -> BoxN
        requires { i < length self.now.boxes }
        ensures place { slice_get self.now.boxes i ≡ Some result }
        ensures width { length result ≡ self.now.width }
        ensures ordered { AreOrdered result }
    {
        let boxes = &self.boxes;
        boxes[i]
    }

    /// Puts a box behind the others, and drops the index. Where there is no memory it hands the box
    /// back.
    pub fn push(&mut self, b: BoxN) -> Result<(), BoxN>
        requires { length b ≡ self.old.width }
        ensures ok { OnOk result (self.new.boxes ≡ self.old.boxes ++ b ∷ []) }
        ensures unsettled { OnOk result (self.new.settled ≡ false) }
        ensures memory { IfErr result (λ back. back ≡ b) }
        ensures unchanged { OnErr result (self.new ≡ self.old) }
        ensures width { self.new.width ≡ self.old.width }
    {
        let fits = b.len() == self.width;
        prove!(fits);
        match self.boxes.push(b) {
            Ok(()) => {
                self.index = None;
                Ok(())
            }
            Err(failed) => Err(failed.value),
        }
    }

    /// Builds an index of the boxes, by which points are looked for until a box is pushed. The
    /// boxes stay as they are, and so does what every other call answers. It takes the time of a
    /// sort, and memory for two numbers and a place a box. Where there is none, no index is left.
    pub fn settle(&mut self) -> Result<(), AllocError>
        ensures ok { OnOk result (self.new.settled ≡ true) }
        ensures memory { OnErr result (self.new.settled ≡ false) }
        ensures boxes { self.new.boxes ≡ self.old.boxes }
        ensures width { self.new.width ≡ self.old.width }
    {
        // what an old index takes is free before a new one is built
        let _ = self.index.take();
        let alloc = *self.boxes.allocator();
        let index = Index::of(alloc, &self.boxes)?;
        self.index = Some(index);
        Ok(())
    }

    /// The place of a box that holds the point, of those from `from` up to `to`: the first one.
    fn holder_between(&self, from: usize, to: usize, p: &Point) -> Option<usize>
        requires width { length p.now ≡ self.now.width }
        requires inside { to ≤ length self.now.boxes }
        ensures { MatchOption result
            ((k : ℕ) → from ≤ k → k < to → HoldsAt self.now.boxes k p.now → ⊥)
            (λ i. HoldsAt self.now.boxes i p.now) }
    {
        for i in from..to {
            if self.at(i).has(p) {
                return Some(i);
            }
        }
        None
    }

    /// The place of a box that holds the point, by looking at each. It looks from the place `hint`
    /// on first: neighbours mostly stand near each other.
    fn plain_holder(&self, hint: usize, p: &Point) -> Option<usize>
        requires { length p.now ≡ self.now.width }
        ensures { MatchOption result
            (¬ IsInRegion self.now.boxes p.now) (λ i. HoldsAt self.now.boxes i p.now) }
    {
        let all = self.len();
        let start = hint.min(all);
        match self.holder_between(start, all, p) {
            Some(i) => Some(i),
            None => self.holder_between(0, start, p),
        }
    }

    /// The place of a box that holds the point: by the index where there is one.
    fn holder(&self, hint: usize, p: &Point) -> Option<usize>
        requires { length p.now ≡ self.now.width }
        ensures { MatchOption result
            (¬ IsInRegion self.now.boxes p.now) (λ i. HoldsAt self.now.boxes i p.now) }
    {
        match &self.index {
            Some(index) => index.holder(&self.boxes, p),
            None => self.plain_holder(hint, p),
        }
    }

    /// Whether the point is in the region.
    pub fn has(&self, p: &Point) -> bool
        requires { length p.now ≡ self.now.width }
        ensures { IsTrue result ↔ IsInRegion self.now.boxes p.now }
    {
        self.holder(0, p).is_some()
    }

    /// The lexicographically least point of the box that is outside the region, and `None` where
    /// the region covers the box. Each step of the sweep looks for one box that holds a point, and
    /// skips all of the box asked for that this one and those met before hold together.
    pub fn gap(&self, b: &BoxN) -> Option<Point>
        requires { length b.now ≡ self.now.width }
        ensures { MatchOption result
            (Covers self.now.boxes b.now) (λ p. IsGap self.now.boxes b.now p) }
    {
        let mut at = b.low();
        let mut reach = b.high();
        let mut hint = 0;
        while let Some(i) = self.holder(hint, &at) {
            let by = self.at(i);
            narrow(&mut reach, &by);
            if !advance(b, &mut at, &mut reach) {
                return None;
            }
            hint = i;
        }
        Some(at)
    }

    /// Whether every point of the box is in the region.
    pub fn covers(&self, b: &BoxN) -> bool
        requires { length b.now ≡ self.now.width }
        ensures { IsTrue result ↔ Covers self.now.boxes b.now }
    {
        self.gap(b).is_none()
    }

    /// The least box around the region, and `None` where there is no box.
    pub fn hull(&self) -> Option<BoxN>
        ensures least { MatchOption result (self.now.boxes ≡ []) (λ b. IsHull self.now.boxes b) }
        ensures width { IfSome result (λ b. length b ≡ self.now.width) }
    {
        if self.len() == 0 {
            return None;
        }
        let mut hull = self.at(0);
        for i in 1..self.len() {
            let by = self.at(i);
            hull.widen(&by);
        }
        Some(hull)
    }
}

/// The gap of the first box of `of` that `by` does not cover, and `None` where it covers each of
/// them.
pub fn uncovered(of: &Region, by: &Region) -> Option<Point>
    requires { of.now.width ≡ by.now.width }
    ensures { MatchOption result
        (CoversAll of.now.boxes by.now.boxes) (λ p. IsFirstGap of.now.boxes by.now.boxes p) }
{
    for b in &of.boxes {
        if let Some(p) = by.gap(b) {
            return Some(p);
        }
    }
    None
}
