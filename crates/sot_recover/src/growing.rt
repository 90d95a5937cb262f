//! Ranks of places.

ghost use Rattle.std.specs.Prelude.{ℕ, Bool, true, false, List, slice_set, ◌≡◌, ◌≤◌, ◌<◌, ◌⊎◌, ◌↔◌};
ghost use Rattle.std.specs.Prelude.{length, slice_index_or, MatchBool, OnOk, IfOk};
ghost use Rattle.sot_lists.specs.Places.{Has};
ghost use Rattle.sot_recover.specs.Sets.{IsSet, IsMonotone, IsHanging, AreRanks};
ghost use Rattle.sot_recover.specs.Thinned.{count};
ghost use Rattle.sot_recover.specs.Entered.{MayEnter, RanksAfter};

use crate::collecting::{all_places, no_flags, put_all_hanging};
use crate::landing::Landing;
use std::alloc::{AllocError, Global};

// Puts a place behind the fresh ones, where it lands in the set from outside.
fn consider<L: Landing>(
    places: &L,
    set: &[bool],
    i: usize,
    fresh: &mut Vec<usize>,
) -> Result<(), AllocError>
    requires { L.is_sound places.now }
    ensures { OnOk result ((k : ℕ) → Has fresh.new.items k
        ↔ (Has fresh.old.items k ⊎ ((k ≡ i) × MayEnter (L.lands places.now) set.now i))) }
{
    if i >= set.len() || set[i] {
        return Ok(());
    }
    if !places.lands(set, i)? {
        return Ok(());
    }
    fresh.push(i)?;
    Ok(())
}

// The near places that land in the set from outside.
fn put_entering<L: Landing>(
    places: &L,
    set: &[bool],
    near: &[usize],
    fresh: &mut Vec<usize>,
) -> Result<(), AllocError>
    requires { L.is_sound places.now }
    ensures { OnOk result ((k : ℕ) → Has fresh.new.items k
        ↔ (Has near.now k × MayEnter (L.lands places.now) set.now k)) }
{
    fresh.clear();
    for n in 0..near.len() {
        consider(places, set, near[n], fresh)?;
    }
    Ok(())
}

// A place enters the set with this rank.
fn enter_one(set: &mut [bool], ranks: &mut [u32], rank: u32, i: usize)
    requires there { i < length set.old }
    requires size { length ranks.old ≡ length set.old }
    ensures set { set.new ≡ slice_set set.old i true }
    ensures ranks { ranks.new ≡ slice_set ranks.old i rank }
{
    set[i] = true;
    ranks[i] = rank;
}

// The fresh places enter the set with this rank; whether there is one.
fn enter(set: &mut [bool], fresh: &[usize], ranks: &mut [u32], rank: u32) -> bool
    requires there { (i : ℕ) → Has fresh.now i → i < length set.old }
    requires ranks_size { length ranks.old ≡ length set.old }
    requires new { (i : ℕ) → Has fresh.now i → IsSet set.old i → ⊥ }
    ensures sizes { (length set.new ≡ length set.old) × (length ranks.new ≡ length set.old) }
    ensures set { (i : ℕ) → IsSet set.new i ↔ (IsSet set.old i ⊎ Has fresh.now i) }
    ensures ranks { (i : ℕ) → RanksAfter fresh.now ranks.old ranks.new rank i }
    ensures grown { count set.old ≤ count set.new }
    ensures some { MatchBool result (count set.old < count set.new)
        ((i : ℕ) → Has fresh.now i → ⊥) }
{
    for n in 0..fresh.len() {
        enter_one(set, ranks, rank, fresh[n]);
    }
    !fresh.is_empty()
}

// The number of a place of the first rank, and of one without a rank.
fn first_rank(flag: bool) -> u32
    ensures { MatchBool flag (result ≡ 0) (result ≡ 4294967295) }
{
    if flag { 0 } else { u32::MAX }
}

// The first ranks.
fn put_first_ranks(set: &[bool], ranks: &mut [u32])
    requires size { length ranks.old ≡ length set.now }
    ensures size { length ranks.new ≡ length set.now }
    ensures ranks { (i : ℕ) → i < length set.now
        → MatchBool (slice_index_or set.now i false) (slice_index_or ranks.new i 0 ≡ 0)
        (slice_index_or ranks.new i 0 ≡ 4294967295) }
{
    for i in 0..set.len() {
        ranks[i] = first_rank(set[i]);
    }
}

// Level after level: what lands in the set enters it with the next rank, until nothing does.
fn climb<L: Landing>(
    alloc: Global,
    places: &L,
    set: &mut [bool],
    ranks: &mut [u32],
    mut near: Vec<usize>,
    marked: &mut [bool],
) -> Result<(), AllocError>
    requires sound { L.is_sound places.now }
    requires few { length set.old ≤ 100000 }
    requires size { length ranks.old ≡ length set.old }
    requires marked_size { length marked.old ≡ length set.old }
    requires first { (i : ℕ) → i < length set.old
        → MatchBool (slice_index_or set.old i false) (slice_index_or ranks.old i 0 ≡ 0)
        (slice_index_or ranks.old i 0 ≡ 4294967295) }
    requires near { (i : ℕ) → i < length set.old → Has near.items i }
    requires marks { (k : ℕ) → IsSet marked.old k → ⊥ }
    requires more { IsMonotone (L.lands places.now) }
    requires hanging { IsHanging (L.lands places.now) (L.hangs places.now) }
    ensures size { length ranks.new ≡ length set.old }
    ensures ranks { OnOk result (AreRanks (L.lands places.now) set.old ranks.new) }
{
    let mut fresh = Vec::new(alloc);
    let mut found = Vec::new(alloc);
    let mut rank = 0;
    let mut more = true;
    while more {
        put_entering(places, set, &near, &mut fresh)?;
        rank += 1;
        more = enter(set, &fresh, ranks, rank);
        put_all_hanging(places, &fresh, &mut near, marked, &mut found)?;
    }
    Ok(())
}

/// The ranks of all places, of which those of rank 0 are flagged; `u32::MAX` where there is none.
/// Each place that gets a rank is flagged too. After an error nothing is said of them.
pub fn grow<L: Landing>(
    alloc: Global,
    places: &L,
    set: &mut [bool],
    ranks: &mut [u32],
) -> Result<(), AllocError>
    requires sound { L.is_sound places.now }
    requires few { length set.old ≤ 100000 }
    requires size { length ranks.old ≡ length set.old }
    requires more { IsMonotone (L.lands places.now) }
    requires hanging { IsHanging (L.lands places.now) (L.hangs places.now) }
    ensures size { length ranks.new ≡ length set.old }
    ensures ranks { OnOk result (AreRanks (L.lands places.now) set.old ranks.new) }
{
    put_first_ranks(set, ranks);
    let near = all_places(alloc, set.len())?;
    let mut marked = no_flags(alloc, set.len())?;
    climb(alloc, places, set, ranks, near, &mut marked)
}
