//! Whom a line is about that is not taken.

ghost use Rattle.std.specs.Prelude.{◌≡◌, ◌++◌, codes};
ghost use Rattle.std.specs.Str.{bytes_eq};
ghost use Rattle.sot_lang.specs.declared.tables.TopicInfo.{TopicInfo as Topic};
ghost use Rattle.sot_lang.specs.declared.tables.NodeInfo.{NodeInfo as Node};
ghost use Rattle.sot_lang.specs.Names.{topic_name, node_name};
ghost use Rattle.sot_trace_lines.specs.Readers.{place_of};
ghost use Rattle.sot_guard_protocol.specs.Asides.{node_text, topic_text, about_text};

use crate::aside::Aside;
use sot_lang::{NodeInfo, TopicInfo, Typed};
use sot_text_output::Out;
use sot_trace::put_name;
use sot_trace_lines::{behind, word_at};

fn is_named(name: &[u8], word: &[u8]) -> bool
    ensures { result ≡ bytes_eq name.now word.now }
{
    name == word
}

fn node_among(nodes: &[NodeInfo], word: &[u8]) -> Option<usize>
    ensures { result ≡ place_of (λ (x : Node). x.name) nodes.now word.now }
{
    nodes
        .iter()
        .position(|node| is_named(node.name.as_bytes(), word))
}

fn topic_among(topics: &[TopicInfo], word: &[u8]) -> Option<usize>
    ensures { result ≡ place_of (λ (x : Topic). x.name) topics.now word.now }
{
    topics
        .iter()
        .position(|topic| is_named(topic.name.as_bytes(), word))
}

// The name of a node, and nothing where there is none.
fn put_node_name<O: Out>(out: &mut O, p: &Typed, node: usize)
    ensures { O.puts out.old out.new (node_name p.now node) }
{
    match p.nodes.get(node) {
        Some(info) => put_name(out, &info.name),
        None => {}
    }
}

// The name of a topic, and nothing where there is none.
fn put_topic_name<O: Out>(out: &mut O, p: &Typed, topic: usize)
    ensures { O.puts out.old out.new (topic_name p.now topic) }
{
    match p.topics.get(topic) {
        Some(info) => put_name(out, &info.name),
        None => {}
    }
}

fn put_node_behind<O: Out>(out: &mut O, p: &Typed, node: usize)
    ensures { O.puts out.old out.new (codes " " ++ node_name p.now node) }
{
    out.put_byte(b' ');
    put_node_name(out, p, node)
}

fn put_topic_behind<O: Out>(out: &mut O, p: &Typed, topic: usize)
    ensures { O.puts out.old out.new (codes " " ++ topic_name p.now topic) }
{
    out.put_byte(b' ');
    put_topic_name(out, p, topic)
}

// A blank and this word, where it is the name of a node.
fn put_node<O: Out>(out: &mut O, p: &Typed, word: &[u8])
    ensures { O.puts out.old out.new (node_text p.now word.now) }
{
    match node_among(&p.nodes, word) {
        Some(node) => put_node_behind(out, p, node),
        None => {}
    }
}

// A blank and this word, where it is the name of a topic.
fn put_topic<O: Out>(out: &mut O, p: &Typed, word: &[u8])
    ensures { O.puts out.old out.new (topic_text p.now word.now) }
{
    match topic_among(&p.topics, word) {
        Some(topic) => put_topic_behind(out, p, topic),
        None => {}
    }
}

fn put_drafter<O: Out>(out: &mut O, p: &Typed, line: &[u8])
    ensures { O.puts out.old out.new (about_text p.now Aside.Draft line.now) }
{
    match behind(line, b"draft ") {
        Some(rest) => put_node(out, p, word_at(rest).name),
        None => {}
    }
}

fn put_input_topic<O: Out>(out: &mut O, p: &Typed, line: &[u8])
    ensures { O.puts out.old out.new (about_text p.now Aside.Input line.now) }
{
    match behind(line, b"input ") {
        Some(rest) => put_topic(out, p, word_at(rest).name),
        None => {}
    }
}

/// The name of the node whose draft a line is, or of the topic whose input it is, behind a blank;
/// nothing where the line names none that is declared.
pub(crate) fn put_about<O: Out>(out: &mut O, p: &Typed, aside: Aside, line: &[u8])
    ensures { O.puts out.old out.new (about_text p.now aside line.now) }
{
    match aside {
        Aside::Draft => put_drafter(out, p, line),
        Aside::Input => put_input_topic(out, p, line),
        Aside::Resume => {}
    }
}
