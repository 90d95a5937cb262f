//! The greatest set of places that keep to themselves.

ghost use Rattle.std.specs.Prelude.{ℕ, Bool, List, [], ◌∷◌, ◌++◌, ◌≡◌, ◌<◌, ◌≤◌, length, OnOk};
ghost use Rattle.sot_lists.specs.Places.{Has};
ghost use Rattle.sot_recover.specs.Sets.{IsSet, with_places, IsMonotone, IsHanging, KeepIn};
ghost use Rattle.sot_recover.specs.Thinned.{weight, IsThinned};

use crate::collecting::{no_flags, put_all_hanging};
use crate::landing::Landing;
use std::alloc::{AllocError, Global};

// Takes a place that does not land in the set out of it.
fn test<L: Landing>(
    places: &L,
    set: &mut [bool],
    leaving: &mut Vec<usize>,
    i: usize,
) -> Result<(), AllocError>
    requires sound { L.is_sound places.now }
    requires more { IsMonotone (L.lands places.now) }
    ensures size { length set.new ≡ length set.old }
    ensures thinned { OnOk result (IsThinned (L.lands places.now) set.old leaving.old.items set.new
        leaving.new.items) }
    ensures here { OnOk result (IsSet set.new i
        → L.lands places.now (with_places set.new leaving.new.items) i) }
{
    if i >= set.len() || !set[i] {
        return Ok(());
    }
    if places.lands(set, i)? {
        return Ok(());
    }
    leaving.push(i)?;
    set[i] = false;
    Ok(())
}

// Tests places, one after another.
fn test_all<L: Landing>(
    places: &L,
    set: &mut [bool],
    leaving: &mut Vec<usize>,
    found: &[usize],
) -> Result<(), AllocError>
    requires sound { L.is_sound places.now }
    requires more { IsMonotone (L.lands places.now) }
    ensures size { length set.new ≡ length set.old }
    ensures thinned { OnOk result (IsThinned (L.lands places.now) set.old leaving.old.items set.new
        leaving.new.items) }
    ensures here { OnOk result ((i : ℕ) → Has found.now i → IsSet set.new i
        → L.lands places.now (with_places set.new leaving.new.items) i) }
{
    for n in 0..found.len() {
        test(places, set, leaving, found[n])?;
    }
    Ok(())
}

// Tests the places that may hang on those which have left, each once. Those that leave with it take
// their places in `leaving`.
fn take<L: Landing>(
    places: &L,
    set: &mut [bool],
    leaving: &mut Vec<usize>,
    near: &mut Vec<usize>,
    marked: &mut [bool],
    found: &mut Vec<usize>,
) -> Result<(), AllocError>
    requires sound { L.is_sound places.now }
    requires more { IsMonotone (L.lands places.now) }
    requires hanging { IsHanging (L.lands places.now) (L.hangs places.now) }
    requires land { (k : ℕ) → IsSet set.old k
        → L.lands places.now (with_places set.old leaving.old.items) k }
    requires marked_size { length marked.old ≡ length set.old }
    requires marks { (k : ℕ) → IsSet marked.old k → ⊥ }
    ensures sizes { (length set.new ≡ length set.old) × (length marked.new ≡ length set.old) }
    ensures none { OnOk result ((k : ℕ) → IsSet marked.new k → ⊥) }
    ensures thinned { OnOk result (IsThinned (L.lands places.now) set.old [] set.new
        leaving.new.items) }
    ensures land { OnOk result ((k : ℕ) → IsSet set.new k
        → L.lands places.now (with_places set.new leaving.new.items) k) }
{
    put_all_hanging(places, leaving, near, marked, found)?;
    leaving.clear();
    test_all(places, set, leaving, near)?;
    Ok(())
}

/// Takes places out of the set until each that is left lands in those that are left. What is left
/// is the greatest part of the set of which this holds. `leaving` has each place outside of the set
/// in which one of the set lands. After an error nothing is said of the set.
///
/// All that leave are taken at once, so a place is tested once for as many as have left since.
pub fn shrink<L: Landing>(
    alloc: Global,
    places: &L,
    set: &mut [bool],
    mut leaving: Vec<usize>,
) -> Result<(), AllocError>
    requires sound { L.is_sound places.now }
    requires more { IsMonotone (L.lands places.now) }
    requires hanging { IsHanging (L.lands places.now) (L.hangs places.now) }
    requires land { (k : ℕ) → IsSet set.old k
        → L.lands places.now (with_places set.old leaving.items) k }
    ensures size { length set.new ≡ length set.old }
    ensures fewer { OnOk result ((k : ℕ) → IsSet set.new k → IsSet set.old k) }
    ensures keeps { OnOk result ((k : ℕ) → IsSet set.new k → L.lands places.now set.new k) }
    ensures greatest { OnOk result ((all : List Bool) → KeepIn (L.lands places.now) all set.old
        → KeepIn (L.lands places.now) all set.new) }
{
    let mut near = Vec::new(alloc);
    let mut found = Vec::new(alloc);
    let mut marked = no_flags(alloc, set.len())?;
    while !leaving.is_empty() {
        take(
            places,
            set,
            &mut leaving,
            &mut near,
            &mut marked,
            &mut found,
        )?;
    }
    Ok(())
}
