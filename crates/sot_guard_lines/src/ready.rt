//! That a talk begins and an instant is over, and who drafts then.

ghost use Rattle.std.specs.Prelude.{◌≡◌, ◌<◌, ◌&&◌, is_none, ℕ};
ghost use Rattle.sot_lists.specs.Places.{At};
ghost use Rattle.sot_lang.specs.declared.tables.NodeInfo.{NodeInfo as Node};
ghost use Rattle.sot_guard_lines.specs.Lines.{is_due, due_name, due_names, begins_line};
ghost use Rattle.sot_guard_lines.specs.Lines.{ready_line};

use sot_lang::{NodeInfo, Typed};
use sot_text_output::Out;
use sot_trace::{put_name, put_time};
use sot_trace_lines::keeps_rules;

fn is_due(node: &NodeInfo, time: u128) -> bool
    requires { node.now.offset < node.now.period }
    ensures { result ≡ is_due node.now time }
{
    let first = u128::from(node.offset);
    time >= first && (time - first) % u128::from(node.period) == 0
}

// Whether a node is external, and due at a time.
fn is_asked(node: &NodeInfo, time: u128) -> bool
    requires { node.now.offset < node.now.period }
    ensures { result ≡ (is_none node.now.body && is_due node.now time) }
{
    node.body.is_none() && is_due(node, time)
}

// The name of a node behind a blank, where it is external and due at a time.
fn put_due_name<O: Out>(out: &mut O, node: &NodeInfo, time: u128)
    requires { node.now.offset < node.now.period }
    ensures { O.puts out.old out.new (due_name node.now time) }
{
    if is_asked(node, time) {
        out.put_byte(b' ');
        put_name(out, &node.name)
    }
}

// Each external node that is due at a time.
fn put_due_names<O: Out>(out: &mut O, nodes: &[NodeInfo], time: u128)
    requires { (n : ℕ) (node : Node) → At nodes.now n node → node.offset < node.period }
    ensures { O.puts out.old out.new (due_names nodes.now time) }
{
    for n in 0..nodes.len() {
        put_due_name(out, &nodes[n], time);
    }
}

/// That a talk begins: the external nodes are named that are due at this time, in declared order.
/// Times are in ticks.
pub fn put_begins<O: Out>(out: &mut O, p: &Typed, time: u64)
    ensures { O.puts out.old out.new (begins_line p.now time) }
{
    keeps_rules(p);
    put_time(out, time);
    out.put(" begins");
    put_due_names(out, &p.nodes, u128::from(time))
}

/// That an instant was gone through, and the tick may come: the external nodes are named that are
/// due after it, in declared order. Times are in ticks.
pub fn put_ready<O: Out>(out: &mut O, p: &Typed, time: u64)
    ensures { O.puts out.old out.new (ready_line p.now time) }
{
    keeps_rules(p);
    put_time(out, time);
    out.put(" ready");
    put_due_names(out, &p.nodes, u128::from(time) + 1)
}
