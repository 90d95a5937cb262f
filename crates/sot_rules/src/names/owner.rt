//! The names that a node and a plant may use.
ghost use Rattle.std.specs.Prelude.{◌≡◌, [], IfOk, OnOk, map};
ghost use Rattle.sot_syntax_tree.specs.TreeViews.{node_view, plant_view};
ghost use Rattle.sot_rules.specs.Names.{node_scope, plant_scope};
ghost use Rattle.sot_rules.specs.Scopes.{parts_of, scope_in};
ghost use Rattle.sot_rules.specs.Indexes.{program_in, IsIndex};
ghost use Rattle.sot_rules.specs.Alike.{Adds, ScopesAlike, StandsFor, tables_in};

use crate::names::gather::{NameList, add_locals, add_named, add_noise, add_states};
use crate::names::index::Index;
use crate::names::scope::{Names, Scope, Things};
use crate::names::things::no_things;
use sot_names::{FEW, NameHasher, NameKey, hasher_beyond_few};
use sot_syntax_tree::{NodeDecl, PlantDecl};
use std::alloc::{AllocError, Global};

// The hasher of what a node's expressions name.
fn read_hasher(n: &NodeDecl) -> NameHasher {
    if n.reads.len().saturating_add(n.locals.len()) <= FEW {
        return NameHasher::of_none();
    }
    let mut key = NameKey::new();
    key.take_all(&n.reads);
    key.take_all(&n.locals);
    key.hasher()
}

/// No names, with the tables of an index.
pub fn no_names<'t, 'p>(alloc: Global, index: &'t Index<'p>, hasher: NameHasher) -> Names<'t, 'p>
    ensures tables { map parts_of result.tables.now ≡ tables_in index.now }
    ensures none { StandsFor (tables_in index.now) result.things [] }
{
    Names {
        tables: &index.parts,
        things: no_things(alloc, hasher),
    }
}

// Adds what a node's expressions, its assignments and its publications name.
fn add_scope<'p>(
    read: &mut Things<'p>,
    local: &mut Things<'p>,
    written: &mut Things<'p>,
    index: &Index<'p>,
    n: &'p NodeDecl,
) -> Result<(), AllocError>
    requires { IsIndex index.now }
    ensures read { OnOk result (Adds (tables_in index.now) read.old read.new
        (node_scope (program_in index.now) (node_view n.now)).read) }
    ensures local { OnOk result (Adds (tables_in index.now) local.old local.new
        (node_scope (program_in index.now) (node_view n.now)).local) }
    ensures written { OnOk result (Adds (tables_in index.now) written.old written.new
        (node_scope (program_in index.now) (node_view n.now)).written) }
{
    add_named(read, index, NameList::Both, &n.reads)?;
    add_locals(read, &n.locals)?;
    add_locals(local, &n.locals)?;
    add_named(written, index, NameList::Topics, &n.writes)?;
    Ok(())
}

/// The names that a node's statements use.
pub fn node_scope<'t, 'p>(
    alloc: Global,
    index: &'t Index<'p>,
    n: &'p NodeDecl,
) -> Result<Scope<'t, 'p>, AllocError>
    requires { IsIndex index.now }
    ensures { IfOk result (λ s. ScopesAlike (scope_in s)
        (node_scope (program_in index.now) (node_view n.now))) }
{
    let mut read = no_names(alloc, index, read_hasher(n));
    let mut local = no_names(alloc, index, hasher_beyond_few(&n.locals));
    let mut written = no_names(alloc, index, hasher_beyond_few(&n.writes));
    let added = add_scope(
        &mut read.things,
        &mut local.things,
        &mut written.things,
        index,
        n,
    );
    let scope = Scope {
        read,
        local,
        written,
    };
    match added {
        Ok(()) => Ok(scope),
        Err(e) => {
            drop(scope);
            Err(e)
        }
    }
}

/// The hasher of what a plant's expressions name.
pub fn plant_hasher(q: &PlantDecl) -> NameHasher {
    let taken = q.states.len().saturating_add(q.inputs.len());
    let others = q.sees.len().saturating_add(q.noise.len());
    if taken.saturating_add(others) <= FEW {
        return NameHasher::of_none();
    }
    let mut key = NameKey::new();
    key.take_all(&q.states);
    key.take_all(&q.inputs);
    key.take_all(&q.sees);
    key.take_all(&q.noise);
    key.hasher()
}

/// Adds what a plant's expressions name.
pub fn add_plant<'p>(
    things: &mut Things<'p>,
    index: &Index<'p>,
    q: &'p PlantDecl,
) -> Result<(), AllocError>
    requires { IsIndex index.now }
    ensures { OnOk result (Adds (tables_in index.now) things.old things.new
        (plant_scope (program_in index.now) (plant_view q.now))) }
{
    add_states(things, &q.states)?;
    add_named(things, index, NameList::Topics, &q.inputs)?;
    add_named(things, index, NameList::Plants, &q.sees)?;
    add_noise(things, &q.noise)?;
    Ok(())
}
