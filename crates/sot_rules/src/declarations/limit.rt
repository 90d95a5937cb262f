//! Limits on how many items a list has, and on how much its names stand for.
ghost use Rattle.std.specs.Prelude.{◌≡◌, ℕ, map, true};
ghost use Rattle.sot_syntax_tree.specs.TreeViews.{area_view};
ghost use Rattle.sot_syntax_tree.specs.declared.tree.Ident.{Ident};
ghost use Rattle.sot_rules.specs.Names.{meaning};
ghost use Rattle.sot_rules.specs.Lists.{places};
ghost use Rattle.sot_rules.specs.Faults.{least, past, passes};
ghost use Rattle.sot_rules.specs.Indexes.{program_in, IsIndex};
ghost use Rattle.sot_rules.specs.Meanings.{size_of};

use crate::fault::{TypeFault, TypeKind, is_past, note};
use crate::names::index::Index;
use crate::names::meaning::size_of;
use sot_names::Named;
use sot_syntax_tree::{BoxDecl, Ident};

/// The first item of a list past a limit.
pub fn note_past<T: Named>(limit: usize, items: &[T], first: &mut Option<TypeFault>)
    ensures { first.new ≡ least first.old (past limit (places (map T.ident items.now))) }
{
    if limit < items.len() {
        note(first, true, items[limit].ident().at, TypeKind::TooMany);
    }
}

/// The first box of a region past the limit.
pub fn note_past_boxes(boxes: &[BoxDecl], first: &mut Option<TypeFault>)
    ensures { first.new ≡ least first.old (past 256 (map (λ b. b.at) (map area_view boxes.now))) }
{
    if 256 < boxes.len() {
        note(first, true, boxes[256].at, TypeKind::TooMany);
    }
}

// Whether no name of a list would have the first fault, if a sum of sizes passed a limit with it.
fn are_past(names: &[Ident], first: Option<TypeFault>) -> bool
    ensures { result ≡ true → (size : Ident → ℕ) (limit sum : ℕ)
        → least first (passes size limit sum names.now) ≡ first }
{
    for name in names {
        if !is_past(first, name.at, TypeKind::TooMany) {
            return false;
        }
    }
    true
}

/// The name in a list with which the sizes of what the names mean pass a limit in sum. Plants count
/// where they are to. A sum passes a limit once, so that nothing is to be noted of the names that
/// follow.
pub fn note_passes(
    index: &Index,
    plants: bool,
    limit: usize,
    names: &[Ident],
    first: &mut Option<TypeFault>,
)
    requires { IsIndex index.now }
    ensures { first.new ≡ least first.old
        (passes (λ i. size_of plants (meaning (program_in index.now) i)) limit 0 names.now) }
{
    if are_past(names, *first) {
        return;
    }
    let mut room = limit;
    for name in names {
        let size = size_of(plants, index.meaning(name));
        if size > room {
            note(first, true, name.at, TypeKind::TooMany);
            return;
        }
        room -= size;
    }
}
