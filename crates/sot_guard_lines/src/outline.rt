//! What is said of a program before the first line of a robot.

ghost use Rattle.std.specs.Prelude.{◌≡◌, ◌<◌, ℕ, length};
ghost use Rattle.sot_lists.specs.Places.{At};
ghost use Rattle.sot_lang.specs.declared.tables.PlantInfo.{PlantInfo as Plant};
ghost use Rattle.sot_lang.specs.declared.tables.NodeInfo.{NodeInfo as Node};
ghost use Rattle.sot_guard_lines.specs.Outline.{says, range_end, state_text, states_text};
ghost use Rattle.sot_guard_lines.specs.Outline.{scalar_text, scalars_text, plant_text, plants_text};
ghost use Rattle.sot_guard_lines.specs.Outline.{topic_text, input_text, inputs_text};
ghost use Rattle.sot_guard_lines.specs.Outline.{external_text, node_text, nodes_text};
ghost use Rattle.sot_guard_lines.specs.Outline.{module_text, modules_text, outline_text};

use sot_lang::{ModuleInfo, NodeInfo, PlantInfo, ScalarInfo, StateInfo, TopicInfo, Typed};
use sot_syntax_tree::Name;
use sot_text_output::Out;
use sot_trace::{put_name, put_number, put_scalar_name, put_time};
use sot_trace_lines::keeps_rules;

fn put_says<O: Out>(out: &mut O, kind: &str, name: &Name)
    ensures { O.puts out.old out.new (says kind.now name.now) }
{
    out.put("says ");
    out.put(kind);
    out.put_byte(b' ');
    put_name(out, name)
}

// How many decimals there are, which mantissas are taken, and the line's end.
fn put_range<O: Out>(out: &mut O, scale: u8, lo: i64, hi: i64)
    ensures { O.puts out.old out.new (range_end scale lo hi) }
{
    out.put(" scale ");
    put_time(out, scale as u64);
    out.put(" range ");
    put_number(out, lo);
    out.put_byte(b' ');
    put_number(out, hi);
    out.put_byte(b'\n')
}

// A state variable. Any number of 64 bits may be observed.
fn put_state<O: Out>(out: &mut O, plant: &Name, state: &StateInfo)
    ensures { O.puts out.old out.new (state_text plant.now state.now) }
{
    put_says(out, "state", plant);
    out.put_byte(b' ');
    put_name(out, &state.name);
    put_range(out, state.scale, i64::MIN, i64::MAX)
}

fn put_states<O: Out>(out: &mut O, plant: &Name, states: &[StateInfo])
    ensures { O.puts out.old out.new (states_text plant.now states.now) }
{
    for i in 0..states.len() {
        put_state(out, plant, &states[i]);
    }
}

fn put_scalar<O: Out>(out: &mut O, kind: &str, name: &Name, p: &Typed, scalar: usize)
    requires { scalar < length p.now.scalars }
    ensures { O.puts out.old out.new (scalar_text kind.now name.now p.now scalar) }
{
    let info = &p.scalars[scalar];
    put_says(out, kind, name);
    out.put_byte(b' ');
    put_scalar_name(out, p, scalar);
    put_range(out, info.scale, info.lo, info.hi)
}

fn put_scalars<O: Out>(out: &mut O, kind: &str, name: &Name, p: &Typed, scalars: &[u32])
    requires { (i k : ℕ) → At scalars.now i k → k < length p.now.scalars }
    ensures { O.puts out.old out.new (scalars_text kind.now name.now p.now scalars.now) }
{
    for i in 0..scalars.len() {
        put_scalar(out, kind, name, p, scalars[i] as usize);
    }
}

// The state variables of a plant, and the commands that it takes.
fn put_plant<O: Out>(out: &mut O, p: &Typed, plant: &PlantInfo)
    requires { (i k : ℕ) → At plant.now.inputs.items i k → k < length p.now.scalars }
    ensures { O.puts out.old out.new (plant_text p.now plant.now) }
{
    put_states(out, &plant.name, &plant.states);
    put_scalars(out, "command", &plant.name, p, &plant.inputs)
}

fn put_plants<O: Out>(out: &mut O, p: &Typed, plants: &[PlantInfo])
    requires { (n : ℕ) (plant : Plant) → At plants.now n plant
        → (i k : ℕ) → At plant.inputs.items i k → k < length p.now.scalars }
    ensures { O.puts out.old out.new (plants_text p.now plants.now) }
{
    for n in 0..plants.len() {
        put_plant(out, p, &plants[n]);
    }
}

// A scalar, where its topic is an environment topic.
fn put_topic_scalar<O: Out>(out: &mut O, p: &Typed, scalar: usize, topic: &TopicInfo)
    requires { scalar < length p.now.scalars }
    ensures { O.puts out.old out.new (topic_text p.now scalar topic.now) }
{
    if topic.outside {
        put_scalar(out, "input", &topic.name, p, scalar)
    }
}

fn put_input<O: Out>(out: &mut O, p: &Typed, scalar: usize, info: &ScalarInfo)
    requires { scalar < length p.now.scalars }
    ensures { O.puts out.old out.new (input_text p.now scalar info.now) }
{
    match p.topics.get(info.topic as usize) {
        Some(topic) => put_topic_scalar(out, p, scalar, topic),
        None => {}
    }
}

// Each scalar of an environment topic.
fn put_inputs<O: Out>(out: &mut O, p: &Typed, scalars: &[ScalarInfo])
    requires { length scalars.now ≡ length p.now.scalars }
    ensures { O.puts out.old out.new (inputs_text p.now 0 scalars.now) }
{
    for k in 0..scalars.len() {
        put_input(out, p, k, &scalars[k]);
    }
}

// An external node, and the scalars that it may draft.
fn put_external<O: Out>(out: &mut O, p: &Typed, node: &NodeInfo)
    requires { (i k : ℕ) → At node.now.writes.items i k → k < length p.now.scalars }
    ensures { O.puts out.old out.new (external_text p.now node.now) }
{
    put_says(out, "external", &node.name);
    out.put_byte(b'\n');
    put_scalars(out, "draft", &node.name, p, &node.writes)
}

fn put_node<O: Out>(out: &mut O, p: &Typed, node: &NodeInfo)
    requires { (i k : ℕ) → At node.now.writes.items i k → k < length p.now.scalars }
    ensures { O.puts out.old out.new (node_text p.now node.now) }
{
    if node.body.is_none() {
        put_external(out, p, node)
    }
}

fn put_nodes<O: Out>(out: &mut O, p: &Typed, nodes: &[NodeInfo])
    requires { (n : ℕ) (node : Node) → At nodes.now n node
        → (i k : ℕ) → At node.writes.items i k → k < length p.now.scalars }
    ensures { O.puts out.old out.new (nodes_text p.now nodes.now) }
{
    for n in 0..nodes.len() {
        put_node(out, p, &nodes[n]);
    }
}

fn put_module<O: Out>(out: &mut O, info: &ModuleInfo)
    ensures { O.puts out.old out.new (module_text info.now) }
{
    put_says(out, "module", &info.name);
    out.put_byte(b'\n')
}

fn put_modules<O: Out>(out: &mut O, modules: &[ModuleInfo])
    ensures { O.puts out.old out.new (modules_text modules.now) }
{
    for m in 0..modules.len() {
        put_module(out, &modules[m]);
    }
}

/// All that a robot has to know of a program, in lines that each have a line end (LF): the state
/// variables of the plants and the commands that they take, the scalars of environment topics, the
/// external nodes and what they may draft, and the modules. Each number comes with its decimals and
/// the mantissas that are taken.
pub fn put_outline<O: Out>(out: &mut O, p: &Typed)
    ensures { O.puts out.old out.new (outline_text p.now) }
{
    keeps_rules(p);
    put_plants(out, p, &p.plants);
    put_inputs(out, p, &p.scalars);
    put_nodes(out, p, &p.nodes);
    put_modules(out, &p.modules);
    out.put("says all\n")
}
