//! What is done with a lock. Each call that takes a pass or a held value asks for one of this lock.
ghost use Rattle.std.specs.Prelude.{◌≡◌, ◌++◌, [], Some, IfOk};
ghost use Rattle.sot_turn.specs.Prefixes.{IsPrefix, behind};
ghost use Rattle.sot_turn.specs.Passes.{lock_of, pass_lock, pass_ground, pass_seen, pass_added};
ghost use Rattle.sot_turn.specs.Passes.{held_lock, held_ground, held_seen, held_added, held_value};

use crate::turn::seats::{draw, hand_back, serve};
use crate::turn::steps::{Look, Pair};
use crate::turn::{Held, Pass, Served, Turn};
use atomic_table::Table;
use sot_turn_journal::Journal;
use std::alloc::{AllocError, Global};
use std::marker::PhantomData;
use std::snapshot::Snapshot;
use std::sync::Wait;

impl<G: Journal + Drop> Turn<G> {
    /// A lock over the value, and its first pass. Where memory is refused, the value is dropped.
    pub fn new(alloc: Global, held: G) -> Result<(Turn<G>, Pass<G>), AllocError>
        ensures lock { IfOk result (λ t. pass_lock t.1 ≡ lock_of t.0) }
        ensures ground { IfOk result (λ t. pass_ground t.1 ≡ Some (G.ground held)) }
        ensures seen { IfOk result (λ t. pass_seen t.1 ≡ G.entries held) }
        ensures added { IfOk result (λ t. pass_added t.1 ≡ []) }
    {
        let len = held.len();
        let opening = Snapshot::of(&held);
        let mut slots = Vec::new(alloc);
        slots.push(Some(held))?;
        let Ok((board, place)) = Table::new(alloc, &[0, 0, len], slots, &opening) else {
            return Err(AllocError);
        };
        Ok((Turn { board }, Pass { place }))
    }

    /// Waits for the turn. The value has the pass's ground, and its list goes on from what the pass
    /// has seen. Once 2^64 - 1 turns were asked for, it waits without end.
    pub fn take<R: Wait>(&self, rt: &R, pass: Pass<G>) -> Held<'_, G>
        requires lock { pass_lock pass ≡ lock_of self.now }
        ensures lock { held_lock result ≡ pass_lock pass }
        ensures ground { pass_ground pass ≡ Some (G.ground (held_value result)) }
        ensures goes_on { IsPrefix (pass_seen pass) (G.entries (held_value result)) }

        // What `give` compares with.
        ensures held_ground { held_ground result ≡ pass_ground pass }
        ensures held_seen { held_seen result ≡ G.entries (held_value result) }
        ensures held_added { held_added result ≡ pass_added pass }
    {
        let Pass { mut place } = pass;
        let ticket = draw(rt, &self.board.shared, &mut place);
        let value = serve(rt, &self.board.shared, &mut place, ticket);
        Held {
            served: Served { place },
            value,
            lock: PhantomData,
        }
    }

    /// Gives the turn back, and waits for nobody. The holder has kept the ground and only extended
    /// the list. The pass has then seen the value's list, and has added by so much more what the
    /// list was extended by.
    pub fn give(&self, held: Held<'_, G>) -> Pass<G>
        requires lock { held_lock held ≡ lock_of self.now }
        requires ground { held_ground held ≡ Some (G.ground (held_value held)) }
        requires goes_on { IsPrefix (held_seen held) (G.entries (held_value held)) }
        ensures lock { pass_lock result ≡ held_lock held.entry }
        ensures ground { pass_ground result ≡ held_ground held.entry }
        ensures seen { pass_seen result ≡ G.entries (held_value held.entry) }
        ensures added { pass_added result ≡
            held_added held.entry
            ++ behind (held_seen held.entry) (G.entries (held_value held.entry)) }
    {
        let Held {
            served: Served { mut place },
            value,
            lock: _,
        } = held;
        hand_back(&self.board.shared, &mut place, value);
        Pass { place }
    }

    /// Two passes that both know what the one knew. The second one has added nothing yet.
    pub fn split(&self, pass: Pass<G>) -> (Pass<G>, Pass<G>)
        requires lock { pass_lock pass ≡ lock_of self.now }
        ensures lock { (pass_lock result.0 ≡ pass_lock pass)
            × (pass_lock result.1 ≡ pass_lock pass) }
        ensures ground { (pass_ground result.0 ≡ pass_ground pass)
            × (pass_ground result.1 ≡ pass_ground pass) }
        ensures seen { (pass_seen result.0 ≡ pass_seen pass)
            × (pass_seen result.1 ≡ pass_seen pass) }
        ensures added { (pass_added result.0 ≡ pass_added pass) × (pass_added result.1 ≡ []) }
    {
        let Pass { mut place } = pass;
        let other = self.board.shared.split_seat::<Pair>(&mut place);
        (Pass { place }, Pass { place: other })
    }

    /// One pass that has seen a list of which both seen lists are prefixes, and has added what both
    /// have. Both had the same ground.
    pub fn join(&self, a: Pass<G>, b: Pass<G>) -> Pass<G>
        requires lock { (pass_lock a ≡ lock_of self.now) × (pass_lock b ≡ lock_of self.now) }
        ensures lock { pass_lock result ≡ pass_lock a }
        ensures ground { (pass_ground result ≡ pass_ground a)
            × (pass_ground result ≡ pass_ground b) }
        ensures seen { IsPrefix (pass_seen a) (pass_seen result)
            × IsPrefix (pass_seen b) (pass_seen result) }
        ensures added { pass_added result ≡ pass_added a ++ pass_added b }
    {
        let Pass { mut place } = a;
        let Pass { place: other } = b;
        self.board.shared.join_seat::<Pair>(&mut place, other);
        // Tells that what the seat has kept fits what it has seen.
        self.board.shared.load::<Look<G>>(&mut place, 1);
        Pass { place }
    }

    /// Waits for the turn as a take does, and hands out the value that the take would lend.
    pub fn close<R: Wait>(self, rt: &R, pass: Pass<G>) -> G
        requires lock { pass_lock pass ≡ lock_of self }
        ensures ground { pass_ground pass ≡ Some (G.ground result) }
        ensures goes_on { IsPrefix (pass_seen pass) (G.entries result) }
    {
        let Turn { board } = self;
        let Pass { mut place } = pass;
        let ticket = draw(rt, &board.shared, &mut place);
        let value = serve(rt, &board.shared, &mut place, ticket);
        let mut closed = board.close_with(place);
        drop(closed.take(0));
        closed.free();
        value
    }
}
