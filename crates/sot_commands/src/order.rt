//! Flights that words order, and what a call that does not fly them has come to.

use crate::telling::Telling;
use sot_cli::Status;

/// A flight that is to be flown: the text of its mission, and what is told of it.
#[derive(Drop)]
pub struct FlightOrder<'w> {
    pub text: Vec<u8>,
    pub telling: Telling<'w>,
}

/// What a call has come to that does all that needs no waiting.
#[derive(Drop)]
pub enum Begun<'w> {
    /// It has ended: nothing is left to be done.
    Ended(Status),
    /// A flight is left to be flown, and what is told of it to be written.
    Flight(FlightOrder<'w>),
}
