//! Lists of places, each once.

ghost use Rattle.std.specs.Prelude.{ℕ, Bool, false, List, ◌≡◌, ◌≤◌, ◌<◌, ◌⊎◌, ◌↔◌, length};
ghost use Rattle.std.specs.Prelude.{slice_index_or, OnOk, IfOk};
ghost use Rattle.sot_lists.specs.Places.{Has};
ghost use Rattle.sot_recover.specs.Sets.{IsSet};

use crate::landing::Landing;
use std::alloc::{AllocError, Global};

/// All places below `size`.
pub(crate) fn all_places(alloc: Global, size: usize) -> Result<Vec<usize>, AllocError>
    ensures { IfOk result (λ v. (i : ℕ) → i < size → Has v.items i) }
{
    let mut places = Vec::with_capacity(alloc, size)?;
    for i in 0..size {
        places.push(i)?;
    }
    Ok(places)
}

/// So many flags, none of them set.
pub(crate) fn no_flags(alloc: Global, size: usize) -> Result<Vec<bool>, AllocError>
    ensures size { IfOk result (λ v. length v.items ≡ size) }
    ensures none { IfOk result (λ v. (i : ℕ) → IsSet v.items i → ⊥) }
{
    let mut flags = Vec::with_capacity(alloc, size)?;
    for _i in 0..size {
        flags.push(false)?;
    }
    Ok(flags)
}

// Puts a place behind the others, if it is not marked yet.
fn add(near: &mut Vec<usize>, marked: &mut [bool], i: usize) -> Result<(), AllocError>
    requires { (k : ℕ) → IsSet marked.old k → Has near.old.items k }
    ensures size { length marked.new ≡ length marked.old }
    ensures more { OnOk result ((k : ℕ) → Has near.old.items k → Has near.new.items k) }
    ensures here { OnOk result (i < length marked.old → Has near.new.items i) }
    ensures marks { OnOk result ((k : ℕ) → IsSet marked.new k → Has near.new.items k) }
{
    if i >= marked.len() || marked[i] {
        return Ok(());
    }
    near.push(i)?;
    marked[i] = true;
    Ok(())
}

// Puts places behind the others, each that is not marked yet.
fn add_all(near: &mut Vec<usize>, marked: &mut [bool], found: &[usize]) -> Result<(), AllocError>
    requires { (k : ℕ) → IsSet marked.old k → Has near.old.items k }
    ensures size { length marked.new ≡ length marked.old }
    ensures more { OnOk result ((k : ℕ) → Has near.old.items k → Has near.new.items k) }
    ensures here { OnOk result ((i : ℕ) → Has found.now i → i < length marked.old
        → Has near.new.items i) }
    ensures marks { OnOk result ((k : ℕ) → IsSet marked.new k → Has near.new.items k) }
{
    for n in 0..found.len() {
        add(near, marked, found[n])?;
    }
    Ok(())
}

// Takes the marks of these places away.
fn unmark(marked: &mut [bool], near: &[usize])
    requires { (k : ℕ) → IsSet marked.old k → Has near.now k }
    ensures size { length marked.new ≡ length marked.old }
    ensures none { (k : ℕ) → IsSet marked.new k → ⊥ }
{
    for n in 0..near.len() {
        clear(marked, near[n]);
    }
}

// Takes one mark away.
fn clear(marked: &mut [bool], i: usize)
    ensures size { length marked.new ≡ length marked.old }
    ensures marks { (k : ℕ) → IsSet marked.new k → IsSet marked.old k × (k ≡ i → ⊥) }
{
    if i < marked.len() {
        marked[i] = false;
    }
}

/// Replaces `near` by the places that may hang on fresh ones, each once. `marked` has a flag for
/// each place, none of them set, and none is set afterwards.
pub(crate) fn put_all_hanging<L: Landing>(
    places: &L,
    fresh: &[usize],
    near: &mut Vec<usize>,
    marked: &mut [bool],
    found: &mut Vec<usize>,
) -> Result<(), AllocError>
    requires { (k : ℕ) → IsSet marked.old k → ⊥ }
    ensures size { length marked.new ≡ length marked.old }
    ensures near { OnOk result ((j i : ℕ) → Has fresh.now j → L.hangs places.now j i
        → i < length marked.old → Has near.new.items i) }
    ensures none { OnOk result ((k : ℕ) → IsSet marked.new k → ⊥) }
{
    near.clear();
    for n in 0..fresh.len() {
        places.put_hanging(fresh[n], found)?;
        add_all(near, marked, found)?;
    }
    unmark(marked, near);
    Ok(())
}
