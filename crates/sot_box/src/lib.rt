//! Boxes of whole numbers, and regions made of boxes, in one to four axes.
//!
//! A [`BoxN`] is an [`Interval`] for each axis, a [`Point`] a number for each axis, and a
//! [`Region`] a list of boxes: a point is in it where it is in some box. [`Region::gap`] and
//! [`uncovered`] find the least point that a region leaves out, and [`Region::hull`] the least box
//! around it.
//!
//! Numbers are plain: scales, plants and time are known above. Only [`Region::push`] and
//! [`Region::settle`] take memory, and nothing here recurses. `docs/SEMANTICS.md` states the same
//! rules in words.
#![tactic(auto)]

mod box_n;
mod index;
mod interval;
mod point;
mod region;
mod sweep;

pub use box_n::BoxN;
pub use interval::Interval;
pub use point::Point;
pub use region::{Region, uncovered};
