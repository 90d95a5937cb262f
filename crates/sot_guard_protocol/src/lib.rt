//! A talk with a robot, line by line.
//!
//! A [`TalkOpening`] hears where each plant was observed first. It becomes a [`Talk`], which hears a
//! line of the robot at a time, and puts the lines that it is answered with. No line ends it.
#![tactic(auto)]

mod about;
mod aside;
mod desk;
mod heard;
mod laws;
mod opening;
mod places;
mod put;
mod talk;

pub use aside::Aside;
pub use heard::Heard;
pub use laws::{
    begins_names_who_is_heard, ready_names_who_is_heard, trust_comes_back_by_a_resume,
    trusted_talks_are_observed, trusted_talks_are_safe,
};
pub use opening::TalkOpening;
pub use put::misheard_word;
pub use talk::Talk;
