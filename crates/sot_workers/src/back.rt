//! Putting back what came back: each guest at its place, and each list at its node.

ghost use Rattle.std.specs.Prelude.{◌≡◌, ◌≤◌, ◌+◌, ℕ, List, [], length, vec_len, vec_capacity};
ghost use Rattle.sot_tube.specs.Admitted.{Admitted};
ghost use Rattle.sot_world.specs.HistoryEntry.{Logged};
ghost use Rattle.sot_flight.specs.Plans.{Plan};
ghost use Rattle.sot_workers.specs.Lists.{HasNodes, AreOwnLists};
ghost use Rattle.sot_workers.specs.Pairs.{EachFrom};
ghost use Rattle.sot_workers.specs.Sent.{IsDone};
ghost use Rattle.sot_workers.specs.Back.{IsGuestBack, FliesOnce, AreListsBack, lists_after};

use crate::lists::NodeList;
use crate::place::Done;
use sot_fly_worker::Controller;

/// The list of a node comes back to its place.
pub(crate) fn put_list(lists: &mut Vec<NodeList>, list: Option<NodeList>)
    ensures { lists.new.items ≡ lists_after lists.old.items list }
{
    if let Some(list) = list {
        let node = list.node as usize;
        if node < lists.len() {
            lists[node] = list;
        }
    }
}

/// All guests come back to their places, and the lists to their nodes.
pub(crate) fn put_back<C: Controller>(
    dones: Vec<Done<C>>,
    lists: &mut Vec<NodeList>,
    guests: &mut Vec<C>,
)
    requires room { (guests.old.items ≡ []) × (vec_len dones ≤ vec_capacity guests.old) }
    ensures guests { (a : Admitted) (f : Plan) (history : List Logged) (was : List C)
        → EachFrom (IsDone C.asked a f history) 0 was dones.items
        → EachFrom (IsGuestBack C.asked a f history) 0 was guests.new.items }
    ensures lists { (a : Admitted) (f : Plan) (history : List Logged) (was : List C)
        → EachFrom (IsDone C.asked a f history) 0 was dones.items
        → AreOwnLists (length lists.old.items) f lists.old.items history → FliesOnce f
        → AreListsBack (length lists.old.items) f (length was) lists.new.items history }
{
    for done in dones {
        let Done { guest, list } = done;
        put_list(lists, list);
        guests.push_reserved(guest);
    }
}
