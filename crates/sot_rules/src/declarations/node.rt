//! The faults of a node.
ghost use Rattle.std.specs.Prelude.{◌≡◌, ◌++◌, ◌&&◌, [], map, flat_map, true, false, IfOk, OnOk};
ghost use Rattle.sot_syntax_tree.specs.TreeViews.{local_view, node_view};
ghost use Rattle.sot_syntax_tree.specs.Trees.{Node};
ghost use Rattle.sot_rules.specs.Faults.{least, together, read_faults, write_lists, local_lists};
ghost use Rattle.sot_rules.specs.Faults.{node_lists};
ghost use Rattle.sot_names.specs.NameSets.{keys_in};
ghost use Rattle.sot_names.specs.SeenNames.{HasNames};
ghost use Rattle.sot_rules.specs.Indexes.{program_in, IsIndex};
ghost use Rattle.sot_rules.specs.Groups.{reads_faults, writes_faults, some_writes_faults};
ghost use Rattle.sot_rules.specs.Groups.{locals_faults};
ghost use Rattle.sot_rules.specs.Behind.{names_behind, locals_behind};

use crate::declarations::behind::are_locals_behind;
use crate::declarations::limit::{note_passes, note_past};
use crate::declarations::range::{note_scalar, note_start, note_times};
use crate::fault::{TypeFault, TypeKind, is_past, note, stands_behind};
use crate::names::behind::{FRONT, are_names_behind};
use crate::names::index::Index;
use crate::names::meaning::{is_environment, is_neither, is_topic};
use crate::names::repeats::{note_repeated_names, note_repeats, note_seen};
use crate::statements::body::note_body;
use sot_names::{
    FEW, NameHasher, NameKey, NameSet, add_names, has_name, hasher_beyond_few, no_name,
};
use sot_syntax_tree::{Ident, LocalDecl, NodeDecl};
use sot_text::Span;
use std::alloc::{AllocError, Global};

// A name among those that a node reads. It is not looked up where its fault would not be the first.
fn note_read(index: &Index, name: &Ident, first: &mut Option<TypeFault>)
    requires { IsIndex index.now }
    ensures { first.new ≡ least first.old (read_faults (program_in index.now) name.now) }
{
    if is_past(*first, name.at, TypeKind::Unknown) {
        return;
    }
    let meant = index.meaning(name);
    note(first, is_neither(meant), name.at, TypeKind::Unknown);
}

fn note_read_names(index: &Index, names: &[Ident], first: &mut Option<TypeFault>)
    requires { IsIndex index.now }
    ensures { first.new ≡ least first.old
        (flat_map (read_faults (program_in index.now)) names.now) }
{
    for name in names {
        note_read(index, name, first);
    }
}

// What a node reads, with an empty set that is to have those names.
fn note_reads<'p>(
    index: &Index,
    used: &mut NameSet<'p>,
    names: &'p [Ident],
    first: &mut Option<TypeFault>,
) -> Result<(), AllocError>
    requires indexed { IsIndex index.now }
    requires empty { keys_in used.old ≡ [] }
    ensures noted { OnOk result (first.new
        ≡ least first.old (reads_faults (program_in index.now) names.now)) }
    ensures used { OnOk result (HasNames (keys_in used.new) names.now) }
{
    note_read_names(index, names, first);
    note_seen(used, names, first)?;
    note_passes(index, true, 64, names, first);
    Ok(())
}

// The hasher of the topics and plants that a node uses. What it writes is put beside them only
// where it has locals.
fn used_hasher(n: &NodeDecl) -> NameHasher {
    if n.reads.len().saturating_add(n.writes.len()) <= FEW {
        return NameHasher::of_none();
    }
    let mut key = NameKey::new();
    key.take_all(&n.reads);
    if n.locals.len() > 0 {
        key.take_all(&n.writes);
    }
    key.hasher()
}

// A name among those that a node writes, where a set has those that it reads. It is not looked up
// behind the first fault.
#[tactic(auto, using(crate::proofs::Least::least_append))]
fn note_write(index: &Index, reads: &NameSet, name: &Ident, first: &mut Option<TypeFault>)
    requires { IsIndex index.now }
    ensures { (n : Node) → HasNames (keys_in reads.now) n.reads → first.new
        ≡ least first.old (together (write_lists (program_in index.now) n name.now)) }
{
    if stands_behind(*first, name.at) {
        return;
    }
    let meant = index.meaning(name);
    note(first, !is_topic(meant), name.at, TypeKind::Unknown);
    note(first, is_environment(meant), name.at, TypeKind::KindDiffers);
    let is_read = has_name(reads, name);
    note(
        first,
        is_topic(meant) && is_read,
        name.at,
        TypeKind::ReadsAndWrites,
    );
}

fn note_write_names(index: &Index, reads: &NameSet, names: &[Ident], first: &mut Option<TypeFault>)
    requires { IsIndex index.now }
    ensures { (n : Node) → HasNames (keys_in reads.now) n.reads → first.new
        ≡ least first.old (flat_map
        (λ i. together (write_lists (program_in index.now) n i)) names.now) }
{
    for name in names {
        note_write(index, reads, name, first);
    }
}

// Some of the names that a node writes, where a set has what it reads.
fn note_some_writes(
    alloc: Global,
    index: &Index,
    names: &[Ident],
    reads: &NameSet,
    first: &mut Option<TypeFault>,
) -> Result<(), AllocError>
    requires { IsIndex index.now }
    ensures { OnOk result ((n : Node) → HasNames (keys_in reads.now) n.reads → first.new
        ≡ least first.old (some_writes_faults (program_in index.now) n names.now)) }
{
    note_write_names(index, reads, names, first);
    note_repeated_names(alloc, names, first)?;
    note_passes(index, false, 8, names, first);
    Ok(())
}

// Where a node writes many names: what the first of them show, if the others stand behind their
// first fault.
fn note_front_writes(
    alloc: Global,
    index: &Index,
    names: &[Ident],
    reads: &NameSet,
    first: &mut Option<TypeFault>,
) -> Result<bool, AllocError>
    requires { IsIndex index.now }
    ensures all { IfOk result (λ all. all ≡ true → (n : Node) → HasNames (keys_in reads.now) n.reads
        → first.new ≡ least first.old (some_writes_faults (program_in index.now) n names.now)) }
    ensures none { IfOk result (λ all. all ≡ false → first.new ≡ first.old) }
{
    if names.len() <= FRONT {
        return Ok(false);
    }
    let (front, rest) = names.split_at(FRONT);
    let mut found = *first;
    note_some_writes(alloc, index, front, reads, &mut found)?;
    let Some(fault) = found else {
        return Ok(false);
    };
    let settled = are_names_behind(rest, fault.at);
    if settled {
        *first = found;
    }
    Ok(settled)
}

// What a node writes, where a set has what it reads.
fn note_writes(
    alloc: Global,
    index: &Index,
    n: &NodeDecl,
    reads: &NameSet,
    first: &mut Option<TypeFault>,
) -> Result<(), AllocError>
    requires indexed { IsIndex index.now }
    requires reads { HasNames (keys_in reads.now) (node_view n.now).reads }
    ensures { OnOk result (first.new
        ≡ least first.old (writes_faults (program_in index.now) (node_view n.now))) }
{
    if note_front_writes(alloc, index, &n.writes, reads, first)? {
        return Ok(());
    }
    note_some_writes(alloc, index, &n.writes, reads, first)
}

// A local, where a set has the names of the topics and plants that its node uses.
#[tactic(auto, using(crate::proofs::Least::least_append))]
fn note_local(used: &NameSet, l: &LocalDecl, first: &mut Option<TypeFault>)
    ensures { (n : Node) → HasNames (keys_in used.now) (n.reads ++ n.writes) → first.new
        ≡ least first.old (together (local_lists n (local_view l.now))) }
{
    note(first, has_name(used, &l.name), l.name.at, TypeKind::Twice);
    note_scalar(false, l.scalar, first);
    note_start(l.scalar, l.init, first);
}

fn note_each_local(used: &NameSet, locals: &[LocalDecl], first: &mut Option<TypeFault>)
    ensures { (n : Node) → HasNames (keys_in used.now) (n.reads ++ n.writes) → first.new
        ≡ least first.old (flat_map (λ l. together (local_lists n l)) (map local_view locals.now)) }
{
    for l in locals {
        note_local(used, l, first);
    }
}

// The locals of a node, where a set has what it reads.
#[tactic(auto, using(crate::proofs::Least::least_append))]
fn note_locals<'p>(
    alloc: Global,
    n: &'p NodeDecl,
    used: &mut NameSet<'p>,
    first: &mut Option<TypeFault>,
) -> Result<(), AllocError>
    requires { HasNames (keys_in used.old) (node_view n.now).reads }
    ensures { OnOk result (first.new ≡ least first.old (locals_faults (node_view n.now))) }
{
    if n.locals.len() == 0 {
        return Ok(());
    }
    add_names(used, &n.writes)?;
    note_each_local(used, &n.locals, first);
    note_repeats(alloc, &n.locals, first)?;
    note_past(16, &n.locals, first);
    Ok(())
}

// What a node reads and writes and its locals, with an empty set that is to have the topics and
// plants that it uses.
fn note_uses_beside<'p>(
    alloc: Global,
    index: &Index,
    used: &mut NameSet<'p>,
    n: &'p NodeDecl,
    first: &mut Option<TypeFault>,
) -> Result<(), AllocError>
    requires indexed { IsIndex index.now }
    requires empty { keys_in used.old ≡ [] }
    ensures { OnOk result (first.new
        ≡ least first.old (reads_faults (program_in index.now) (node_view n.now).reads
        ++ (writes_faults (program_in index.now) (node_view n.now)
        ++ locals_faults (node_view n.now)))) }
{
    note_reads(index, used, &n.reads, first)?;
    note_writes(alloc, index, n, used, first)?;
    note_locals(alloc, n, used, first)?;
    Ok(())
}

// Some of the names that a node reads, by themselves.
fn note_some_reads(
    alloc: Global,
    index: &Index,
    names: &[Ident],
    first: &mut Option<TypeFault>,
) -> Result<(), AllocError>
    requires { IsIndex index.now }
    ensures { OnOk result (first.new
        ≡ least first.old (reads_faults (program_in index.now) names.now)) }
{
    let mut used = no_name(alloc, hasher_beyond_few(names));
    let noted = note_reads(index, &mut used, names, first);
    drop(used);
    noted
}

// Whether some of the names that a node reads, what it writes and its locals stand behind a place.
fn are_uses_behind(n: &NodeDecl, reads: &[Ident], from: Span) -> bool
    ensures { result ≡ (names_behind from reads.now && (names_behind from n.now.writes.items
        && locals_behind from (node_view n.now).locals)) }
{
    are_names_behind(reads, from)
        && (are_names_behind(&n.writes, from) && are_locals_behind(&n.locals, from))
}

// Where a node reads many names: what the first of them show, if the other things that it uses
// stand behind their first fault. Then those need not be looked at.
fn note_front(
    alloc: Global,
    index: &Index,
    n: &NodeDecl,
    first: &mut Option<TypeFault>,
) -> Result<bool, AllocError>
    requires { IsIndex index.now }
    ensures all { IfOk result (λ all. all ≡ true → first.new
        ≡ least first.old (reads_faults (program_in index.now) (node_view n.now).reads
        ++ (writes_faults (program_in index.now) (node_view n.now)
        ++ locals_faults (node_view n.now)))) }
    ensures none { IfOk result (λ all. all ≡ false → first.new ≡ first.old) }
{
    if n.reads.len() <= FRONT {
        return Ok(false);
    }
    let (front, rest) = n.reads.split_at(FRONT);
    let mut found = *first;
    note_some_reads(alloc, index, front, &mut found)?;
    let Some(fault) = found else {
        return Ok(false);
    };
    let settled = are_uses_behind(n, rest, fault.at);
    if settled {
        *first = found;
    }
    Ok(settled)
}

// What a node reads and writes, and its locals.
fn note_uses(
    alloc: Global,
    index: &Index,
    n: &NodeDecl,
    first: &mut Option<TypeFault>,
) -> Result<(), AllocError>
    requires { IsIndex index.now }
    ensures { OnOk result (first.new
        ≡ least first.old (reads_faults (program_in index.now) (node_view n.now).reads
        ++ (writes_faults (program_in index.now) (node_view n.now)
        ++ locals_faults (node_view n.now)))) }
{
    if note_front(alloc, index, n, first)? {
        return Ok(());
    }
    let mut used = no_name(alloc, used_hasher(n));
    let noted = note_uses_beside(alloc, index, &mut used, n, first);
    drop(used);
    noted
}

/// A node: its period and offset, what it reads and writes, its locals and its body.
pub fn note_node<'p>(
    alloc: Global,
    index: &Index<'p>,
    n: &'p NodeDecl,
    first: &mut Option<TypeFault>,
) -> Result<(), AllocError>
    requires { IsIndex index.now }
    ensures { OnOk result (first.new
        ≡ least first.old (together (node_lists (program_in index.now) (node_view n.now)))) }
{
    note_times(n.period, n.offset, first);
    note_uses(alloc, index, n, first)?;
    note_body(alloc, index, n, first)?;
    Ok(())
}
