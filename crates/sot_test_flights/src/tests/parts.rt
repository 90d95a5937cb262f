//! What a flight tells of its parts. The numbers are worked out by hand.
ghost use Rattle.sot_flight.specs.Fits.{FitsFlight};

use super::*;

// What a flight states: where the first plant starts, its counts, its first input, and the
// disturbance of the first tick.
fn stated(rt: &impl Abort, alloc: Global, p: &Typed, flight: &Flight) -> String
    requires { FitsFlight p.now 1 flight.now }
{
    let start = flight.start();
    if start.len() == 0 || start[0].len() == 0 || flight.inputs() == 0 {
        panic!(rt; "no start, or no input");
    }
    let x = start[0].at(0);
    let (events, numbers, inputs) = (flight.events(), flight.numbers(), flight.inputs());
    let given = flight.input(0);
    let (at, topic, value) = (given.at, given.topic, given.value);
    format!(in alloc;
        "start {x} events {events} numbers {numbers} inputs {inputs} at {at} topic {topic} value {value:?}"
    ).expect(rt, "memory")
}

const STATED: &str = "start 3 events 4 numbers 4 inputs 1 at 0 topic 0 value [5]";

#[test]
fn a_flight_states_its_parts(rt: HostRuntime) {
    let alloc = rt.alloc();
    let text = format!(in alloc; "{GUIDED}{ONE_TICK}").expect(&rt, "memory");
    let loaded = loaded(&rt, alloc, text.as_str(), 1);
    let Some(flight) = &loaded.flight else {
        panic!(rt; "no flight");
    };
    let said = stated(&rt, alloc, &loaded.program, flight);
    same(&rt, "parts", said.as_str(), STATED);
}
