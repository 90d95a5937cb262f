//! The steps of a seat, put together: it draws a ticket, waits for it and takes the value, and
//! hands the value back.
ghost use Rattle.std.specs.Prelude.{◌≡◌, true, false, [], ◌∷◌, None, Some};
ghost use Rattle.sot_turn.specs.Prefixes.{IsPrefix};
ghost use Rattle.sot_turn.specs.Views.{extended};
ghost use Rattle.sot_turn.specs.Places.{IsPlaceOf, IsSamePlace, IsIdle, Waits, HasTaken};

use crate::turn::rule::{Place, Top};
use crate::turn::steps::{Announce, Draw, Look, PassOn};
use sot_turn_journal::Journal;
use std::hint::spin_loop;
use std::sync::Wait;
use std::thread;

// A waiting thread looks so often before it sleeps: most turns are given back within a microsecond.
const LOOKS: u32 = 1000;

// A thread sleeps on the low 32 bits of a word.
const WORD: u64 = 1 << 32;

/// Draws a ticket. Where all numbers are drawn it draws none, and waits without end.
pub(super) fn draw<G: Journal, R: Wait>(rt: &R, top: &Top<G>, place: &mut Place<G>) -> u64
    requires place { IsPlaceOf top.now.table_id place.old.table_id }
    requires idle { IsIdle place.old.me.0 }
    ensures same { IsSamePlace place.old place.new }
    ensures drawn { place.new.me
        ≡ (record place.old.me.0 { ticket = Some result }, place.old.me.1) }
{
    let mut next = top.peek(0);
    for _ in rt.forever() {
        if next < u64::MAX {
            let found = top.compare_exchange::<Draw>(place, 0, next, next + 1);
            if found == next {
                return next;
            }
            next = found;
        } else {
            thread::yield_now();
        }
    }
    unreachable!()
}

// Waits a moment, or, after many looks, sleeps until the turn is passed from the ticket served.
fn rest<G: Journal, R: Wait>(rt: &R, top: &Top<G>, served: u64, looks: u32) -> u32
    requires { top.now.table_id.words ≡ 3 }
{
    if looks < LOOKS {
        spin_loop();
        return looks + 1;
    }
    top.park(rt, 1, (served % WORD) as u32);
    looks
}

// Wakes who sleeps, where a ticket was drawn that waits to be served.
fn wake<G: Journal>(top: &Top<G>)
    requires { top.now.table_id.words ≡ 3 }
{
    let served = top.peek(1);
    if top.peek(0) > served {
        top.wake_all(1);
    }
}

/// Waits until the ticket is served, and takes the value out of the slot.
pub(super) fn serve<G: Journal, R: Wait>(
    rt: &R,
    top: &Top<G>,
    place: &mut Place<G>,
    ticket: u64,
) -> G
    requires place { IsPlaceOf top.now.table_id place.old.table_id }
    requires waits { Waits ticket place.old.me }
    ensures same { IsSamePlace place.old place.new }
    ensures served { place.new.me ≡
        (record place.old.me.0 { turn = true; seen = G.entries result }, (0, None) ∷ []) }
    ensures ground { place.old.me.0.own_ground ≡ Some (G.ground result) }
    ensures goes_on { IsPrefix place.old.me.0.seen (G.entries result) }
{
    let mut looks: u32 = 0;
    for _ in rt.forever() {
        let served = top.load::<Look<G>>(place, 1);
        if served == ticket {
            return top.exchange(place, 0, None).unwrap();
        }
        looks = rest(rt, top, served, looks);
    }
    unreachable!()
}

/// Puts the value back, announces the length of its list, and passes the turn.
pub(super) fn hand_back<G: Journal + Drop>(top: &Top<G>, place: &mut Place<G>, value: G)
    requires place { IsPlaceOf top.now.table_id place.old.table_id }
    requires served { HasTaken place.old.me }
    requires ground { place.old.me.0.own_ground ≡ Some (G.ground value) }
    requires goes_on { IsPrefix place.old.me.0.seen (G.entries value) }
    ensures same { IsSamePlace place.old place.new }
    ensures passed { place.new.me ≡
        (record (extended place.old.me.0 (G.entries value)) { ticket = None; turn = false }, []) }
{
    let len = value.len();
    let nothing = top.exchange(place, 0, Some(value));
    // The rule of a store sees no value but the one in the seat's slot, so the length comes after
    // it.
    top.store::<Announce<G>>(place, 2, len);
    top.fetch_add::<PassOn>(place, 1, 1);
    drop(nothing);
    wake(top);
}
