//! The memory that a flight takes.

ghost use Rattle.std.specs.Prelude.{◌≡◌, ◌≤◌, [], length, vec_len, vec_capacity, IfOk};
ghost use Rattle.sot_workers.specs.Forms.{AreFormsOf};
ghost use Rattle.sot_workers.specs.Lists.{AreEmpty, HaveRoom};
ghost use Rattle.sot_workers.specs.Rooms.{HasRoom};
ghost use Rattle.sot_workers.specs.Threads.{is_tried, AreNoted};

use crate::forms::forms_for;
use crate::lists::{NodeList, no_lists};
use crate::place::{Done, Place, Station};
use crate::rings::Rings;
use crate::rule::{long_each, tried_each};
use sot_eval_flat::Flat;
use sot_flight::Flight;
use sot_fly_worker::Controller;
use sot_lang::Typed;
use std::alloc::{AllocError, Global};

/// The memory of a flight but for the lock and the bells: the lists, for which nodes the start of a
/// thread is tried and which of them have long bodies, the flat forms of their bodies, and room for
/// workers and guests while they are out and when they come back.
#[derive(Drop)]
pub(crate) struct Room<'a, C: Controller> {
    pub(crate) lists: Vec<NodeList>,
    pub(crate) rings: Rings,
    pub(crate) tried: Vec<bool>,
    pub(crate) long: Vec<bool>,
    pub(crate) forms: Vec<Option<Flat>>,
    pub(crate) stations: Vec<Station<'a, C>>,
    pub(crate) away: Vec<bool>,
    pub(crate) relieved: Vec<Option<NodeList>>,
    pub(crate) places: Vec<Place<'a, C>>,
    pub(crate) dones: Vec<Done<C>>,
    pub(crate) guests: Vec<C>,
}

/// The memory of a flight with so many guests.
pub(crate) fn room_for<'a, C: Controller>(
    alloc: Global,
    p: &Typed,
    flight: &Flight,
    count: usize,
) -> Result<Room<'a, C>, AllocError>
    requires crews { length flight.now.crews ≡ length p.now.nodes }
    requires horizon { flight.now.horizon ≤ 100000 }
    ensures room { IfOk result (λ room. HasRoom (length p.now.nodes) count room) }
    ensures drafts { IfOk result (λ room.
        HaveRoom p.now.nodes flight.now.horizon (λ _. Unit {0}) room.lists.items) }
    ensures guests { IfOk result (λ room. (room.guests.items ≡ [])
        × (count ≤ vec_capacity room.guests)) }
    ensures forms { IfOk result (λ room. AreFormsOf p.now room.forms.items) }
    ensures tried { IfOk result (λ room.
        AreNoted (length p.now.nodes) (is_tried p.now flight.now) room.tried.items) }
{
    let nodes = p.nodes.len();
    let long = long_each(alloc, p)?;
    let tried = tried_each(alloc, p, flight, &long)?;
    let forms = forms_for(alloc, p, &tried)?;
    Ok(Room {
        lists: no_lists(alloc, p, flight.horizon())?,
        rings: Rings::new(alloc, nodes)?,
        tried,
        long,
        forms,
        stations: Vec::with_capacity(alloc, nodes)?,
        away: Vec::with_capacity(alloc, nodes)?,
        relieved: Vec::with_capacity(alloc, nodes)?,
        places: Vec::with_capacity(alloc, count)?,
        dones: Vec::with_capacity(alloc, count)?,
        guests: Vec::with_capacity(alloc, count)?,
    })
}
