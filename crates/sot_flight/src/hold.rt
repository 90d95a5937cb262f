//! For how long an end of a range is held, from JSON.

ghost use Rattle.std.specs.Prelude.{codes};
ghost use Rattle.serde_json.specs.View.{view, members_view};
ghost use Rattle.sot_json.specs.Json.{at};
ghost use Rattle.sot_json.specs.Answers.{Gives};
ghost use Rattle.sot_flight.specs.FlightFormat.{hold};

use serde_json::{Map, Value};
use sot_json::{JsonFail, JsonKind, count_of, fault_at, needed, part_of};
use std::alloc::Global;

// The most ticks, or firings, for which an end is held.
const HOLD_LIMIT: u64 = 100_000;

#[tactic(auto, unfolding(crate::specs::FlightFormat::hold))]
fn hold_of(alloc: Global, value: &Value) -> Result<u32, JsonFail>
    ensures { Gives (λ x. x) result (hold (view value.now)) }
{
    let number = count_of(alloc, HOLD_LIMIT, value)?;
    if number == 0 {
        return Err(fault_at(alloc, JsonKind::OutsideRange));
    }
    Ok(number as u32)
}

/// For how many ticks, or firings, an end is held.
#[tactic(auto, unfolding(sot_json::specs::Json::at), using(sot_json::proofs::Parts::found_there, sot_json::proofs::Parts::lacking))]
pub(crate) fn hold_at(alloc: Global, object: &Map<String, Value>) -> Result<u32, JsonFail>
    ensures { Gives (λ x. x) result (at (codes "hold") hold (members_view object.now.entries)) }
{
    let value = needed(alloc, object, "hold")?;
    part_of(alloc, "hold", hold_of(alloc, value))
}
