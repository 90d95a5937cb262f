//! Names, found among those of a program.

ghost use Rattle.std.specs.Prelude.{◌≡◌, ◌<◌, ◌≤◌, length, IfSome};
ghost use Rattle.std.specs.List.{prefix_len};
ghost use Rattle.std.specs.Option.{option_map};
ghost use Rattle.std.specs.Str.{bytes_eq};
ghost use Rattle.sot_text.specs.Lexeme.{is_in_word};
ghost use Rattle.sot_lang.specs.TableRules.{MeetsTableRules};
ghost use Rattle.sot_lang.specs.declared.tables.TopicInfo.{TopicInfo as Topic};
ghost use Rattle.sot_lang.specs.declared.tables.NodeInfo.{NodeInfo as Node};
ghost use Rattle.sot_lang.specs.declared.tables.ModuleInfo.{ModuleInfo as Module};
ghost use Rattle.sot_trace_lines.specs.Readers.{word_at, place_of, topic_named, node_named};
ghost use Rattle.sot_trace_lines.specs.Readers.{module_named};

use sot_lang::{ModuleInfo, NodeInfo, TopicInfo, Typed};

/// A word, which may be empty, and the text behind it.
#[derive(Clone, Copy)]
pub struct Word<'a> {
    pub name: &'a [u8],
    pub rest: &'a [u8],
}

fn is_in_word(b: u8) -> bool
    ensures { result ≡ is_in_word b }
{
    (b.is_ascii_alphabetic() || b == b'_') || b.is_ascii_digit()
}

fn word_len(text: &[u8]) -> usize
    ensures len { result ≡ prefix_len is_in_word text.now }
    ensures within { result ≤ length text.now }
{
    text.iter().take_while(|b| is_in_word(**b)).count()
}

/// The word in front of a text.
pub fn word_at<'a>(text: &'a [u8]) -> Word<'a>
    ensures { (result.name.now, result.rest.now) ≡ word_at text.now }
{
    let (name, rest) = text.split_at(word_len(text));
    Word { name, rest }
}

fn is_named(name: &[u8], word: &[u8]) -> bool
    ensures { result ≡ bytes_eq name.now word.now }
{
    name == word
}

/// The tables of every program keep the rules.
pub fn keeps_rules(p: &Typed)
    ensures { MeetsTableRules p.now }
{
    // A look at a field brings what the type keeps.
    let _modules = &p.modules;
}

fn topic_among(topics: &[TopicInfo], name: &[u8]) -> Option<usize>
    ensures { result ≡ place_of (λ (x : Topic). x.name) topics.now name.now }
{
    topics
        .iter()
        .position(|topic| is_named(topic.name.as_bytes(), name))
}

fn topic_place(p: &Typed, from: usize, name: &[u8]) -> Option<usize>
    ensures { result ≡ topic_named p.now name.now }
{
    keeps_rules(p);
    if from < p.topics.len() {
        if let Some(further) = topic_among(&p.topics[from..], name) {
            return Some(from + further);
        }
    }
    topic_among(&p.topics, name)
}

/// The topic of that name, looked for in this place and behind it, and then among all. Where it is
/// there, the next one is looked for behind it.
pub fn topic_named(p: &Typed, name: &[u8], from: &mut usize) -> Option<u32>
    ensures value { result ≡ topic_named p.now name.now }
    ensures there { IfSome result (λ k. k < length p.now.topics) }
{
    let count = p.topics.len();
    match topic_place(p, *from, name) {
        Some(place) if place < count => {
            *from = place + 1;
            Some(place as u32)
        }
        Some(_) => unreachable!(),
        None => None,
    }
}

fn node_among(nodes: &[NodeInfo], name: &[u8]) -> Option<usize>
    ensures { result ≡ place_of (λ (x : Node). x.name) nodes.now name.now }
{
    nodes
        .iter()
        .position(|node| is_named(node.name.as_bytes(), name))
}

fn node_place(p: &Typed, from: usize, name: &[u8]) -> Option<usize>
    ensures { result ≡ node_named p.now name.now }
{
    keeps_rules(p);
    if from < p.nodes.len() {
        if let Some(further) = node_among(&p.nodes[from..], name) {
            return Some(from + further);
        }
    }
    node_among(&p.nodes, name)
}

/// The node of that name, looked for in this place and behind it, and then among all. Where it is
/// there, the next one is looked for behind it.
pub fn node_named(p: &Typed, name: &[u8], from: &mut usize) -> Option<u32>
    ensures value { result ≡ node_named p.now name.now }
    ensures there { IfSome result (λ n. n < length p.now.nodes) }
{
    let count = p.nodes.len();
    match node_place(p, *from, name) {
        Some(place) if place < count => {
            *from = place + 1;
            Some(place as u32)
        }
        Some(_) => unreachable!(),
        None => None,
    }
}

fn module_among(modules: &[ModuleInfo], name: &[u8]) -> Option<usize>
    ensures { result ≡ place_of (λ (x : Module). x.name) modules.now name.now }
{
    modules
        .iter()
        .position(|info| is_named(info.name.as_bytes(), name))
}

fn module_place(p: &Typed, from: usize, name: &[u8]) -> Option<usize>
    ensures { result ≡ module_named p.now name.now }
{
    keeps_rules(p);
    if from < p.modules.len() {
        if let Some(further) = module_among(&p.modules[from..], name) {
            return Some(from + further);
        }
    }
    module_among(&p.modules, name)
}

/// The module of that name, looked for in this place and behind it, and then among all. Where it is
/// there, the next one is looked for behind it.
pub fn module_named(p: &Typed, name: &[u8], from: &mut usize) -> Option<u32>
    ensures { result ≡ module_named p.now name.now }
{
    let count = p.modules.len();
    match module_place(p, *from, name) {
        Some(place) if place < count => {
            *from = place + 1;
            Some(place as u32)
        }
        Some(_) => unreachable!(),
        None => None,
    }
}
