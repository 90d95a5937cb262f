//! What is told beside the events of an instant.

ghost use Rattle.sot_guard_lines.specs.Lines.{end_line, state_of, state_name};
ghost use Rattle.sot_guard_lines.specs.Lines.{ends_text, observed_text, outside_line};
ghost use Rattle.sot_lang.specs.Names.{plant_name};

use sot_box::Interval;
use sot_lang::{PlantInfo, Typed};
use sot_text_output::Out;
use sot_trace::{put_count, put_name, put_number, put_time};

// The name of a plant, and nothing where there is none.
fn put_plant<O: Out>(out: &mut O, p: &Typed, plant: u32)
    ensures { O.puts out.old out.new (plant_name p.now plant) }
{
    match p.plants.get(plant as usize) {
        Some(info) => put_name(out, &info.name),
        None => {}
    }
}

fn put_state_of<O: Out>(out: &mut O, plant: &PlantInfo, state: u32)
    ensures { O.puts out.old out.new (state_of plant.now state) }
{
    match plant.states.get(state as usize) {
        Some(info) => put_name(out, &info.name),
        None => {}
    }
}

// The name of a plant's state variable, and nothing where there is none.
fn put_state<O: Out>(out: &mut O, p: &Typed, plant: u32, state: u32)
    ensures { O.puts out.old out.new (state_name p.now plant state) }
{
    match p.plants.get(plant as usize) {
        Some(info) => put_state_of(out, info, state),
        None => {}
    }
}

fn put_ends<O: Out>(out: &mut O, bounds: Interval)
    ensures { O.puts out.old out.new (ends_text bounds) }
{
    out.put_byte(b'[');
    put_number(out, bounds.lo);
    out.put("..");
    put_number(out, bounds.hi);
    out.put_byte(b']')
}

fn put_observed<O: Out>(out: &mut O, bounds: Interval, value: i64)
    ensures { O.puts out.old out.new (observed_text bounds value) }
{
    out.put_byte(b' ');
    put_ends(out, bounds);
    out.put(" observed ");
    put_number(out, value)
}

/// That a state variable of a plant is observed at this value, outside the interval in which the
/// plant's model allows it to be. Times are in ticks, numbers are mantissas.
pub fn put_outside<O: Out>(
    out: &mut O,
    p: &Typed,
    time: u64,
    plant: u32,
    state: u32,
    bounds: Interval,
    value: i64,
)
    ensures { O.puts out.old out.new (outside_line p.now time plant state bounds value) }
{
    put_time(out, time);
    out.put(" outside plant ");
    put_plant(out, p, plant);
    out.put(" state ");
    put_state(out, p, plant, state);
    put_observed(out, bounds, value)
}

/// The last line: the time that was reached, and how many events there were.
pub fn put_end<O: Out>(out: &mut O, time: u64, events: usize)
    ensures { O.puts out.old out.new (end_line time events) }
{
    out.put("end ");
    put_time(out, time);
    out.put(" events ");
    put_count(out, events as u128)
}
