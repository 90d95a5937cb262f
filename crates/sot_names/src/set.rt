//! Sets of names, which are mostly small.
//!
//! The first few names are looked at one by one, which takes no hash and little memory. Those
//! beyond are in a table.
ghost use Rattle.std.specs.Prelude.{◌≡◌, List, [], ◌∷◌, ◌++◌, map, not, IfOk, OnOk, if◌then◌else◌};
ghost use Rattle.std.specs.List.{list_any};
ghost use Rattle.std.specs.Str.{bytes_eq};
ghost use Rattle.sot_syntax_tree.specs.declared.tree.Ident.{Ident};
ghost use Rattle.sot_names.specs.NameSets.{keys_in};
ghost use Rattle.sot_names.specs.SeenNames.{seen_names, HasNames};

use crate::hasher::{NameHasher, NameKeys};
use crate::named::Named;
use indexmap::IndexSet;
use sot_syntax_tree::Ident;
use std::alloc::{AllocError, Global};

/// How many names of a list are looked at one by one.
pub const FEW: usize = 8;

/// Names, by their bytes.
#[derive(Drop)]
pub struct NameSet<'p> {
    pub few: Vec<&'p [u8]>,
    pub many: NameKeys<'p>,
}

/// No names. Those beyond the first few will be hashed so.
pub fn no_name<'p>(alloc: Global, hasher: NameHasher) -> NameSet<'p>
    ensures empty { keys_in result ≡ [] }
{
    NameSet {
        few: Vec::new(alloc),
        many: IndexSet::with_hasher(alloc, hasher),
    }
}

// Whether a name is one of these.
#[tactic(auto, using(crate::proofs::FewNames::key_from, crate::proofs::FewNames::key_past))]
fn is_one_of(keys: &[&[u8]], name: &[u8]) -> bool
    ensures { result ≡ list_any (λ k. bytes_eq name.now k.now) keys.now }
{
    for key in keys {
        if name == *key {
            return true;
        }
    }
    false
}

/// Whether a name is in a set.
fn contains(set: &NameSet, name: &[u8]) -> bool
    ensures { result ≡ list_any (λ k. bytes_eq name.now k.now) (keys_in set.now) }
{
    if is_one_of(set.few.as_slice(), name) {
        return true;
    }
    if set.many.is_empty() {
        return false;
    }
    set.many.contains(name)
}

/// Puts a name into a set, and tells whether it is new there.
pub fn insert_name<'p>(set: &mut NameSet<'p>, name: &'p [u8]) -> Result<bool, AllocError>
    ensures added { IfOk result
        (λ b. b ≡ not (list_any (λ k. bytes_eq name.now k.now) (keys_in set.old))) }
    ensures keys { OnOk result (keys_in set.new
        ≡ (if list_any (λ k. bytes_eq name.now k.now) (keys_in set.old)
        then keys_in set.old else keys_in set.old ++ name.entry ∷ [])) }
{
    if is_one_of(set.few.as_slice(), name) {
        return Ok(false);
    }
    if set.few.len() < FEW && set.many.is_empty() {
        set.few.push(name)?;
        return Ok(true);
    }
    let (_, added) = set.many.insert_full(name)?;
    Ok(added)
}

/// Adds the names of a list to those of a set.
pub fn add_names<'p, T: Named>(set: &mut NameSet<'p>, items: &'p [T]) -> Result<(), AllocError>
    ensures { OnOk result ((names : List Ident) → HasNames (keys_in set.old) names
        → HasNames (keys_in set.new) (names ++ map T.ident items.now)) }
{
    for item in items {
        insert_name(set, item.ident().name.as_bytes())?;
    }
    Ok(())
}

/// Whether a name is in a set.
pub fn has_name(set: &NameSet, name: &Ident) -> bool
    ensures { result ≡ list_any (bytes_eq name.now.name) (seen_names (keys_in set.now)) }
{
    contains(set, name.name.as_bytes())
}
