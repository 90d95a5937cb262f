//! Nodes and plants that two modules share.

ghost use Rattle.std.specs.Prelude.{ℕ, ◌≡◌, true, ◌<◌, ◌≤◌, length, ◌^◌, IsTrue, ◌↔◌, MatchOption};
ghost use Rattle.std.specs.Prelude.{IfSome};
ghost use Rattle.sot_lists.specs.Places.{At};
ghost use Rattle.sot_compose.specs.Parts.{Uses, IsUnused, IsFirstUser, IsOfOneModule};
ghost use Rattle.sot_compose.specs.Parts.{AreFirstUsers};

use crate::clash::Clash;
use sot_lang::ModuleInfo;

/// A sort of thing that belongs to one module at most.
#[derive(Clone, Copy, Debug, PartialEq, Eq)]
pub enum Part {
    Node,
    Plant,
}

// Whether a module uses the part at this place.
fn uses(part: Part, info: &ModuleInfo, place: u32) -> bool
    ensures { IsTrue result ↔ Uses part info.now place }
{
    match part {
        Part::Node => info.ac == place || info.sc == place,
        Part::Plant => info.plant == place,
    }
}

// The first module, from the module `from` on, that uses a part.
fn first_user(part: Part, modules: &[ModuleInfo], place: u32, from: u32) -> Option<u32>
    requires { length modules.now < 2 ^ 32 }
    ensures { MatchOption result
        (IsUnused part modules.now place from (length modules.now))
        (λ m. IsFirstUser part modules.now place from m) }
{
    for module in from..modules.len() as u32 {
        if uses(part, &modules[module as usize], place) {
            return Some(module);
        }
    }
    None
}

// The first two modules that use a part.
fn first_users(part: Part, modules: &[ModuleInfo], place: u32) -> Option<Clash>
    requires { length modules.now < 2 ^ 32 }
    ensures { MatchOption result
        (IsOfOneModule part modules.now place)
        (λ c. (c.what ≡ place) × AreFirstUsers part modules.now place c.a c.b) }
{
    let Some(a) = first_user(part, modules, place, 0) else {
        return None;
    };
    let Some(b) = first_user(part, modules, place, a + 1) else {
        return None;
    };
    Some(Clash { what: place, a, b })
}

// The least and the greatest place of the parts that a module uses.
fn ends(part: Part, info: &ModuleInfo) -> (u32, u32)
    ensures within { (x : ℕ) → Uses part info.now x → (result.0 ≤ x) × (x ≤ result.1) }
    ensures ordered { result.0 ≤ result.1 }
{
    match part {
        Part::Node => {
            if info.ac < info.sc {
                (info.ac, info.sc)
            } else {
                (info.sc, info.ac)
            }
        }
        Part::Plant => (info.plant, info.plant),
    }
}

// Whether each module uses parts behind those of the modules before it. Then no two share one.
fn are_in_order(part: Part, modules: &[ModuleInfo]) -> bool
    ensures { result ≡ true → (x : ℕ) → IsOfOneModule part modules.now x }
{
    let mut next: u64 = 0;
    for info in modules {
        let (low, high) = ends(part, info);
        if (low as u64) < next {
            return false;
        }
        next = high as u64 + 1;
    }
    true
}

/// The first part of a sort that two modules use, of so many.
pub fn first_shared(part: Part, modules: &[ModuleInfo], count: u32) -> Option<Clash>
    requires { length modules.now < 2 ^ 32 }
    ensures first { MatchOption result
        ((x : ℕ) → x < count → IsOfOneModule part modules.now x)
        (λ c. AreFirstUsers part modules.now c.what c.a c.b
        × ((x : ℕ) → x < c.what → IsOfOneModule part modules.now x)) }
    ensures within { IfSome result (λ c. c.what < count) }
{
    if are_in_order(part, modules) {
        return None;
    }
    for place in 0..count {
        if let Some(clash) = first_users(part, modules, place) {
            return Some(clash);
        }
    }
    None
}
