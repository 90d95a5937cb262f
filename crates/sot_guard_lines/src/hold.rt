//! The commands in force.

ghost use Rattle.std.specs.Prelude.{◌≡◌, ℕ, ◌<◌, length};
ghost use Rattle.sot_lists.specs.Places.{At};
ghost use Rattle.sot_guard_lines.specs.Lines.{held_text, all_held, hold_line};

use sot_lang::Typed;
use sot_text_output::Out;
use sot_trace::{put_name, put_number, put_scalar_name, put_time};

fn put_held<O: Out>(out: &mut O, p: &Typed, scalar: usize, number: i64)
    requires { scalar < length p.now.scalars }
    ensures { O.puts out.old out.new (held_text p.now scalar number) }
{
    out.put_byte(b' ');
    put_scalar_name(out, p, scalar);
    out.put_byte(b'=');
    put_number(out, number)
}

// Each of these scalars with its number.
fn put_all_held<O: Out>(out: &mut O, p: &Typed, inputs: &[u32], scalars: &[i64])
    requires there { (i k : ℕ) → At inputs.now i k → k < length p.now.scalars }
    requires scalars { length scalars.now ≡ length p.now.scalars }
    ensures { O.puts out.old out.new (all_held p.now inputs.now scalars.now) }
{
    for i in 0..inputs.len() {
        let scalar = inputs[i] as usize;
        put_held(out, p, scalar, scalars[scalar]);
    }
}

/// The commands that hold a plant at a time: each of its inputs by its scalar's name, in the order
/// in which the plant takes them, with the number that the scalar has. Times are in ticks, numbers
/// are mantissas.
pub fn put_hold<O: Out>(out: &mut O, p: &Typed, time: u64, plant: u32, scalars: &[i64])
    requires plant { plant < length p.now.plants }
    requires scalars { length scalars.now ≡ length p.now.scalars }
    ensures { O.puts out.old out.new (hold_line p.now time plant scalars.now) }
{
    let info = &p.plants[plant as usize];
    put_time(out, time);
    out.put(" hold ");
    put_name(out, &info.name);
    put_all_held(out, p, &info.inputs, scalars)
}
