//! What an owner's names stand for, in lists that are mostly short.
//!
//! The first few names are looked at one by one, which takes no hash and little memory. Those
//! beyond are in a table.
ghost use Rattle.std.specs.Prelude.{◌≡◌, ℕ, List, [], OnOk};
ghost use Rattle.std.specs.Map.{lookup};
ghost use Rattle.std.specs.Option.{option_or};
ghost use Rattle.std.specs.Str.{bytes_eq};
ghost use Rattle.sot_names.specs.NameTables.{entry};
ghost use Rattle.sot_rules.specs.NameTables.{entries_in, found_in};

use crate::names::scope::{Kept, Things};
use indexmap::IndexMap;
use sot_names::{FEW, NameHasher, add_value};
use std::alloc::{AllocError, Global};

/// No names. Those beyond the first few will be hashed so.
pub fn no_things<'p>(alloc: Global, hasher: NameHasher) -> Things<'p>
    ensures { entries_in result ≡ [] }
{
    Things {
        few: Vec::new(alloc),
        many: IndexMap::with_hasher(alloc, hasher),
    }
}

// What the first entry of a name says.
#[tactic(auto, using(crate::proofs::FewNames::entry_from, crate::proofs::FewNames::entry_past))]
fn first_of(entries: &[(&[u8], Kept)], name: &[u8]) -> Option<Kept>
    ensures { result ≡ lookup (λ k. bytes_eq name.now k.now) entries.now }
{
    for e in entries {
        if name == e.0 {
            return Some(e.1);
        }
    }
    None
}

/// What a name stands for.
pub fn thing_of(things: &Things, name: &[u8]) -> Option<Kept>
    ensures { result ≡ found_in things.now name.now }
{
    match first_of(things.few.as_slice(), name) {
        Some(kept) => Some(kept),
        None => {
            if things.many.is_empty() {
                None
            } else {
                things.many.get(name).copied()
            }
        }
    }
}

/// Puts a name with what it stands for behind the others. A name that is there already keeps what
/// it stands for.
pub fn add<'p>(table: &mut Things<'p>, name: &'p [u8], kept: Kept) -> Result<(), AllocError>
    ensures { OnOk result ((n : List ℕ) → found_in table.new n
        ≡ option_or (found_in table.old n) (entry name.now kept n)) }
{
    if table.few.len() < FEW && table.many.is_empty() {
        table.few.push((name, kept))?;
        return Ok(());
    }
    add_value(&mut table.many, name, kept)?;
    Ok(())
}
