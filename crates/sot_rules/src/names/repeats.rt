//! Names that stand twice in a list.
ghost use Rattle.std.specs.Prelude.{◌≡◌, List, ◌++◌, [], map, true, false, IfOk, OnOk};
ghost use Rattle.std.specs.List.{fold, list_any};
ghost use Rattle.std.specs.Str.{bytes_eq};
ghost use Rattle.sot_syntax_tree.specs.declared.tree.Ident.{Ident};
ghost use Rattle.sot_rules.specs.declared.fault.TypeKind.TheVariants.{Twice};
ghost use Rattle.sot_rules.specs.Faults.{least, when, repeats};
ghost use Rattle.sot_names.specs.NameSets.{keys_in};
ghost use Rattle.sot_names.specs.SeenNames.{seen_names, with_name};

use crate::fault::{TypeFault, TypeKind, note};
use crate::names::behind::{FRONT, are_names_behind};
use sot_names::{NameSet, Named, hasher_beyond_few, insert_name, no_name};
use sot_syntax_tree::Ident;
use std::alloc::{AllocError, Global};

/// One name of a list, where the earlier ones were seen.
pub fn note_repeat<'p>(
    seen: &mut NameSet<'p>,
    name: &'p Ident,
    first: &mut Option<TypeFault>,
) -> Result<(), AllocError>
    ensures noted { OnOk result
        (first.new ≡ least first.old
        (when (list_any (bytes_eq name.now.name) (seen_names (keys_in seen.old)))
        name.now.at Twice)) }
    ensures seen { OnOk result
        (seen_names (keys_in seen.new) ≡ with_name (seen_names (keys_in seen.old)) name.now) }
{
    let added = insert_name(seen, name.name.as_bytes())?;
    note(first, !added, name.at, TypeKind::Twice);
    Ok(())
}

/// The things of a list whose names stand in it before, or were seen. Then all of them were seen.
pub fn note_seen<'p, T: Named>(
    seen: &mut NameSet<'p>,
    items: &'p [T],
    first: &mut Option<TypeFault>,
) -> Result<(), AllocError>
    ensures noted { OnOk result (first.new
        ≡ least first.old (repeats (seen_names (keys_in seen.old)) (map T.ident items.now))) }
    ensures seen { OnOk result (seen_names (keys_in seen.new)
        ≡ fold with_name (seen_names (keys_in seen.old)) (map T.ident items.now)) }
{
    for item in items {
        note_repeat(seen, item.ident(), first)?;
    }
    Ok(())
}

// The things of a list whose names stand in it before.
fn note_all_repeats<T: Named>(
    alloc: Global,
    items: &[T],
    first: &mut Option<TypeFault>,
) -> Result<(), AllocError>
    ensures { OnOk result (first.new ≡ least first.old (repeats [] (map T.ident items.now))) }
{
    let mut seen = no_name(alloc, hasher_beyond_few(items));
    let noted = note_seen(&mut seen, items, first);
    drop(seen);
    noted
}

// Of a long list: what its first things show, if the others stand behind their first fault. Then
// those need not be looked at.
fn note_front_repeats<T: Named>(
    alloc: Global,
    items: &[T],
    first: &mut Option<TypeFault>,
) -> Result<bool, AllocError>
    ensures all { IfOk result (λ all. all ≡ true
        → first.new ≡ least first.old (repeats [] (map T.ident items.now))) }
    ensures none { IfOk result (λ all. all ≡ false → first.new ≡ first.old) }
{
    if items.len() <= FRONT {
        return Ok(false);
    }
    let (front, rest) = items.split_at(FRONT);
    let mut found = *first;
    note_all_repeats(alloc, front, &mut found)?;
    let Some(fault) = found else {
        return Ok(false);
    };
    let settled = are_names_behind(rest, fault.at);
    if settled {
        *first = found;
    }
    Ok(settled)
}

/// The things of a list whose names stand in it before.
pub fn note_repeats<T: Named>(
    alloc: Global,
    items: &[T],
    first: &mut Option<TypeFault>,
) -> Result<(), AllocError>
    ensures { OnOk result (first.new ≡ least first.old (repeats [] (map T.ident items.now))) }
{
    if items.len() < 2 {
        return Ok(());
    }
    if note_front_repeats(alloc, items, first)? {
        return Ok(());
    }
    note_all_repeats(alloc, items, first)
}

/// The names of a list that stand in it before.
pub fn note_repeated_names(
    alloc: Global,
    names: &[Ident],
    first: &mut Option<TypeFault>,
) -> Result<(), AllocError>
    ensures { OnOk result (first.new ≡ least first.old (repeats [] names.now)) }
{
    note_repeats(alloc, names, first)
}
