//! The first lines: the header, and where each plant starts.

ghost use Rattle.std.specs.Prelude.{◌≡◌, ◌++◌, ◌∷◌, length, drop};
ghost use Rattle.sot_world.specs.Opens.{AreStarts};
ghost use Rattle.sot_trace.specs.Numbers.{further, numbers};
ghost use Rattle.sot_trace.specs.Lines.{header, start_line, start_lines};
ghost use Rattle.sot_trace.specs.Traces.{text_of};

use crate::name::put_name;
use crate::number::put_number;
use sot_box::Point;
use sot_lang::{PlantInfo, Typed};
use sot_text_output::Out;

// The coordinates after the first, each behind a comma.
fn put_further_coordinates<O: Out>(out: &mut O, point: &Point)
    ensures { O.puts out.old out.new (further (drop 1 point.now)) }
{
    for i in 1..point.len() {
        out.put_byte(b',');
        put_number(out, point.at(i));
    }
}

fn put_point<O: Out>(out: &mut O, point: &Point)
    ensures { O.puts out.old out.new (numbers point.now) }
{
    let _axes = point.len();
    put_number(out, point.at(0));
    put_further_coordinates(out, point)
}

/// Where a plant starts, without a line end.
pub fn put_plant_start<O: Out>(out: &mut O, plant: &PlantInfo, point: &Point)
    ensures { O.puts out.old out.new (start_line plant.now point.now) }
{
    out.put("start ");
    put_name(out, &plant.name);
    out.put_byte(b' ');
    put_point(out, point)
}

// A line for each plant.
fn put_starts<O: Out>(out: &mut O, plants: &[PlantInfo], start: &[Point])
    requires { length start.now ≡ length plants.now }
    ensures { O.puts out.old out.new (text_of (start_lines plants.now start.now)) }
{
    for i in 0..plants.len() {
        put_plant_start(out, &plants[i], &start[i]);
        out.put_byte(b'\n');
    }
}

/// The header, and a line for each plant.
pub fn put_front<O: Out>(out: &mut O, p: &Typed, start: &[Point])
    requires { AreStarts p.now start.now }
    ensures { O.puts out.old out.new
        (header ++ (10 ∷ text_of (start_lines p.now.plants start.now))) }
{
    out.put("soter trace 1\n");
    put_starts(out, &p.plants, start);
}
