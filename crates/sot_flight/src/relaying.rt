//! The inputs of a flight together with what is sent to it, and copies of a flight's parts.

ghost use Rattle.std.specs.Prelude.{◌≡◌, ℕ, suc, ◌+◌, ◌≤◌, [], ◌∷◌, ◌++◌, length, map, drop, IfOk};
ghost use Rattle.sot_lists.specs.Places.{At};
ghost use Rattle.sot_flight.specs.Relayed.{Send, drafted, send_of, with_sends};
ghost use Rattle.sot_flight.specs.EarlyInputs.{early};
ghost use Rattle.sot_flight.specs.FlightView.{input_of, sway_of, crew_of};

use crate::crew::Crew;
use crate::input::Input;
use crate::sent::Sent;
use crate::sway::Sway;
use sot_lang::Draft;
use std::alloc::{AllocError, Global};

fn copy_input(alloc: Global, input: &Input) -> Result<Input, AllocError>
    ensures { IfOk result (λ x. input_of x ≡ input_of input.now) }
{
    Ok(Input {
        at: input.at,
        topic: input.topic,
        value: Vec::from_slice(alloc, &input.value)?,
    })
}

// The given inputs from a place on that come by that time are put behind the others. The answer is
// the place behind them.
fn copy_until(
    alloc: Global,
    all: &mut Vec<Input>,
    given: &Vec<Input>,
    from: usize,
    time: u32,
) -> Result<usize, AllocError>
    requires { from ≤ length given.now.items }
    ensures inputs { IfOk result (λ _. map input_of all.new.items ≡ map input_of all.old.items
        ++ early time (drop from (map input_of given.now.items))) }
    ensures place { IfOk result (λ place. place ≡ from
        + length (early time (drop from (map input_of given.now.items)))) }
    ensures bound { IfOk result (λ place. place ≤ length given.now.items) }
{
    for place in from..given.len() {
        let input = &given[place];
        if input.at > time {
            return Ok(place);
        }
        all.push(copy_input(alloc, input)?)?;
    }
    Ok(given.len())
}

// The given inputs from a place on are put behind the others.
fn copy_rest(
    alloc: Global,
    all: &mut Vec<Input>,
    given: &Vec<Input>,
    from: usize,
) -> Result<(), AllocError>
    requires { from ≤ length given.now.items }
    ensures { IfOk result (λ _. map input_of all.new.items ≡ map input_of all.old.items
        ++ drop from (map input_of given.now.items)) }
{
    for place in from..given.len() {
        all.push(copy_input(alloc, &given[place])?)?;
    }
    Ok(())
}

fn put_number(found: &mut Vec<i64>, slot: Option<i64>) -> Result<(), AllocError>
    ensures { IfOk result (λ _. found.new.items ≡ found.old.items ++ drafted (slot ∷ [])) }
{
    if let Some(number) = slot {
        found.push(number)?;
    }
    Ok(())
}

fn numbers_of(alloc: Global, draft: &Draft) -> Result<Vec<i64>, AllocError>
    ensures { IfOk result (λ v. v.items ≡ drafted draft.now) }
{
    draft.has_eight_slots();
    let mut found = Vec::with_capacity(alloc, 8)?;
    for i in 0..8 {
        put_number(&mut found, draft.get(i))?;
    }
    Ok(found)
}

/// The given inputs and what is sent, so many ticks later; of equal time the given ones come first,
/// then the sends in their order.
pub(crate) fn merged(
    alloc: Global,
    given: &Vec<Input>,
    topic: u32,
    sends: &[Sent],
    delay: u32,
) -> Result<Vec<Input>, AllocError>
    requires in_time { (i : ℕ) (s : Send) → At (map send_of sends.now) i s
        → s.at + delay ≤ 100000 }
    requires ordered { (i : ℕ) (s t : Send) → At (map send_of sends.now) i s
        → At (map send_of sends.now) (suc i) t → s.at ≤ t.at }
    ensures { IfOk result (λ v. map input_of v.items
        ≡ with_sends topic delay (map send_of sends.now) (map input_of given.now.items)) }
{
    let mut all = Vec::new(alloc);
    let mut place = 0;
    for sent in sends {
        let at = sent.at + delay;
        place = copy_until(alloc, &mut all, given, place, at)?;
        let value = numbers_of(alloc, &sent.value)?;
        all.push(Input { at, topic, value })?;
    }
    copy_rest(alloc, &mut all, given, place)?;
    Ok(all)
}

fn copy_row<T: Copy>(alloc: Global, row: &Vec<T>) -> Result<Vec<T>, AllocError>
    ensures { IfOk result (λ v. v.items ≡ row.now.items) }
{
    Vec::from_slice(alloc, row)
}

fn copy_rows<T: Copy>(alloc: Global, rows: &Vec<Vec<T>>) -> Result<Vec<Vec<T>>, AllocError>
    ensures { IfOk result (λ v. map (λ row. row.items) v.items
        ≡ map (λ row. row.items) rows.now.items) }
{
    let mut found = Vec::with_capacity(alloc, rows.len())?;
    for row in rows.iter() {
        found.push(copy_row(alloc, row)?)?;
    }
    Ok(found)
}

fn copy_sway(alloc: Global, sway: &Sway) -> Result<Sway, AllocError>
    ensures { IfOk result (λ s. sway_of s ≡ sway_of sway.now) }
{
    match sway {
        Sway::Still => Ok(Sway::Still),
        Sway::Low => Ok(Sway::Low),
        Sway::High => Ok(Sway::High),
        Sway::Listed(rows) => Ok(Sway::Listed(copy_rows(alloc, rows)?)),
        Sway::Drawn {
            spread,
            seed,
            stream,
        } => Ok(Sway::Drawn {
            spread: *spread,
            seed: *seed,
            stream: *stream,
        }),
    }
}

fn copy_crew(alloc: Global, crew: &Crew) -> Result<Crew, AllocError>
    ensures { IfOk result (λ c. crew_of c ≡ crew_of crew.now) }
{
    match crew {
        Crew::Coded => Ok(Crew::Coded),
        Crew::Script(drafts) => Ok(Crew::Script(copy_rows(alloc, drafts)?)),
        Crew::Wild {
            spread,
            seed,
            stream,
        } => Ok(Crew::Wild {
            spread: *spread,
            seed: *seed,
            stream: *stream,
        }),
        Crew::Guest(index) => Ok(Crew::Guest(*index)),
    }
}

pub(crate) fn copy_sways(alloc: Global, sways: &Vec<Sway>) -> Result<Vec<Sway>, AllocError>
    ensures { IfOk result (λ v. map sway_of v.items ≡ map sway_of sways.now.items) }
{
    let mut found = Vec::with_capacity(alloc, sways.len())?;
    for sway in sways.iter() {
        found.push(copy_sway(alloc, sway)?)?;
    }
    Ok(found)
}

pub(crate) fn copy_crews(alloc: Global, crews: &Vec<Crew>) -> Result<Vec<Crew>, AllocError>
    ensures { IfOk result (λ v. map crew_of v.items ≡ map crew_of crews.now.items) }
{
    let mut found = Vec::with_capacity(alloc, crews.len())?;
    for crew in crews.iter() {
        found.push(copy_crew(alloc, crew)?)?;
    }
    Ok(found)
}
