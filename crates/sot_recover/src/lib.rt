//! Within how many holds a module recovers.
//!
//! [`recover_within`] follows the tube of each closed cell once, keeps a hull of its landings, and
//! finds the ranks of the cells: [`shrink`] and [`grow`] look at a place again only where one on
//! which it may hang has left or entered, and a [`BoxIndex`] says which cells meet a landing. The
//! rank of the module is the least one whose cells cover the safe region.
#![tactic(auto)]

mod collecting;
mod fail;
mod ground;
mod growing;
mod hull;
mod index;
mod landing;
mod least;
mod near;
mod shrinking;
mod survey;
mod tube;
mod within;

pub use fail::RecoverFail;
pub use growing::grow;
pub use hull::hull_of;
pub use index::BoxIndex;
pub use landing::Landing;
pub use shrinking::shrink;
pub use within::recover_within;
