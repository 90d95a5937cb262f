//! One of the two missions of a bridge.

use sot_flight::Flight;
use sot_lang::{Cert, Typed};
/// The tables of a mission's program, its certificate, which fits them, and its flight, which no
/// guest flies.
#[derive(Clone, Copy)]
pub struct Side<'m> {
    pub program: &'m Typed,
    pub cert: &'m Cert,
    pub flight: &'m Flight,
}
