//! Names, each put behind what stands there already.

ghost use Rattle.std.specs.Prelude.{◌<◌, ◌++◌, length};
ghost use Rattle.sot_lang.specs.Names.{topic_name, node_name, module_name};
ghost use Rattle.sot_trace.specs.Names.{field_part};
ghost use Rattle.sot_trace.specs.Names.{scalar_name};

use sot_lang::Typed;
use sot_syntax_tree::Name;
use sot_text_output::Out;

/// A name.
pub fn put_name<O: Out>(out: &mut O, name: &Name)
    ensures { O.puts out.old out.new (name.now) }
{
    out.put(name.as_str())
}

/// The name of a topic, and nothing where there is none.
pub fn put_topic<O: Out>(out: &mut O, p: &Typed, topic: u32)
    ensures { O.puts out.old out.new (topic_name p.now topic) }
{
    match p.topics.get(topic as usize) {
        Some(info) => put_name(out, &info.name),
        None => {}
    }
}

/// The name of a node, and nothing where there is none.
pub fn put_node<O: Out>(out: &mut O, p: &Typed, node: u32)
    ensures { O.puts out.old out.new (node_name p.now node) }
{
    match p.nodes.get(node as usize) {
        Some(info) => put_name(out, &info.name),
        None => {}
    }
}

/// The name of a module, and nothing where there is none.
pub fn put_module<O: Out>(out: &mut O, p: &Typed, module: u32)
    ensures { O.puts out.old out.new (module_name p.now «module») }
{
    match p.modules.get(module as usize) {
        Some(info) => put_name(out, &info.name),
        None => {}
    }
}

fn put_field<O: Out>(out: &mut O, field: &Option<Name>)
    ensures { O.puts out.old out.new (field_part field.now) }
{
    match field {
        None => {}
        Some(name) => {
            out.put_byte(b'.');
            put_name(out, name)
        }
    }
}

/// The name of a scalar: its topic's, and behind a point its field's, if it has one.
pub fn put_scalar_name<O: Out>(out: &mut O, p: &Typed, scalar: usize)
    requires { scalar < length p.now.scalars }
    ensures { O.puts out.old out.new (scalar_name p.now scalar) }
{
    let info = &p.scalars[scalar];
    put_name(out, &p.topics[info.topic as usize].name);
    put_field(out, &info.field)
}
