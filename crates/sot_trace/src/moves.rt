//! The plants in the line of a tick.

ghost use Rattle.std.specs.Prelude.{◌≡◌, ◌++◌, codes, length};
ghost use Rattle.sot_world.specs.Events.{noise_count};
ghost use Rattle.sot_trace.specs.Moves.{move_text, moves_text};
ghost use Rattle.sot_board.specs.Counts.{state_count};

use crate::name::put_name;
use crate::number::put_numbers;
use sot_lang::PlantInfo;
use sot_text_output::Out;

// What stands between the disturbances and the states.
fn put_result_sign<O: Out>(out: &mut O)
    ensures { O.puts out.old out.new (codes ")=") }
{
    out.put_byte(b')');
    out.put_byte(b'=')
}

/// One plant in the line of a tick: a blank, its name, its disturbances and its states.
pub fn put_move<O: Out>(out: &mut O, plant: &PlantInfo, noise: &[i64], states: &[i64])
    ensures { O.puts out.old out.new (move_text plant.now noise.now states.now) }
{
    out.put_byte(b' ');
    put_name(out, &plant.name);
    out.put_byte(b'(');
    put_numbers(out, noise);
    put_result_sign(out);
    put_numbers(out, states)
}

/// All plants, each with its disturbances and its states after the tick.
pub fn put_moves<O: Out>(out: &mut O, plants: &[PlantInfo], noise: &[i64], states: &[i64])
    requires noise { length noise.now ≡ noise_count plants.now }
    requires states { length states.now ≡ state_count plants.now }
    ensures { O.puts out.old out.new (moves_text plants.now noise.now states.now) }
{
    let (_, mut noise_left) = noise.split_at(0);
    let (_, mut states_left) = states.split_at(0);
    for plant in plants {
        let (own_noise, more_noise) = noise_left.split_at(plant.noise.len());
        let (own_states, more_states) = states_left.split_at(plant.states.len());
        put_move(out, plant, own_noise, own_states);
        noise_left = more_noise;
        states_left = more_states;
    }
}
