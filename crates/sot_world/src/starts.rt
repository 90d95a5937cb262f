//! The parts of an opening configuration.

ghost use Rattle.std.specs.Prelude.{◌≡◌, ℕ, ◌<◌, ◌≤◌, ◌==◌, length, map, replicate, IfOk};
ghost use Rattle.std.specs.Prelude.{MatchOption};
ghost use Rattle.sot_world.specs.Opens.{AreStarts, StartInside, IsFirstOutside};
ghost use Rattle.sot_world.specs.Configurations.{Sc};
ghost use Rattle.sot_world.specs.Roles.{AreRoles, IsRole};
ghost use Rattle.sot_lists.specs.Places.{At};
ghost use Rattle.sot_lang.specs.declared.tables.NodeInfo.{NodeInfo};

use crate::mode::Mode;
use crate::role::Role;
use sot_box::Point;
use sot_code::Locals;
use sot_lang::{LocalInfo, ModuleInfo, NodeInfo, ScalarInfo, Typed};
use std::alloc::{AllocError, Global};

/// The first module whose plant starts outside the module's safer region.
pub fn first_outside(p: &Typed, start: &[Point]) -> Option<u32>
    requires { AreStarts p.now start.now }
    ensures { MatchOption result
        (StartInside p.now start.now (length p.now.modules))
        (λ m. IsFirstOutside p.now start.now m) }
{
    for m in 0..p.modules.len() {
        let info = &p.modules[m];
        if !info.safer.has(&start[info.plant as usize]) {
            return Some(m as u32);
        }
    }
    None
}

/// The flags of the nodes that are due at 0.
pub fn nodes_left(alloc: Global, nodes: &[NodeInfo]) -> Result<Vec<bool>, AllocError>
    ensures { IfOk result (λ v. v.items ≡ map (λ k. k.offset == 0) nodes.now) }
{
    let mut left = Vec::with_capacity(alloc, nodes.len())?;
    for info in nodes {
        left.push(info.offset == 0)?;
    }
    Ok(left)
}

/// The flags of the modules whose decisions are due at 0.
pub fn decisions_left(alloc: Global, modules: &[ModuleInfo]) -> Result<Vec<bool>, AllocError>
    ensures { IfOk result (λ v. v.items ≡ map (λ k. k.offset == 0) modules.now) }
{
    let mut left = Vec::with_capacity(alloc, modules.len())?;
    for info in modules {
        left.push(info.offset == 0)?;
    }
    Ok(left)
}

/// Mode Sc for each module.
pub fn safe_modes(alloc: Global, modules: &[ModuleInfo]) -> Result<Vec<Mode>, AllocError>
    ensures { IfOk result (λ v. v.items ≡ map (λ m. Sc) modules.now) }
{
    let mut modes = Vec::with_capacity(alloc, modules.len())?;
    for _info in modules {
        modes.push(Mode::Sc)?;
    }
    Ok(modes)
}

/// The initial numbers of the scalars.
pub fn initial_scalars(alloc: Global, infos: &[ScalarInfo]) -> Result<Vec<i64>, AllocError>
    ensures { IfOk result (λ v. v.items ≡ map (λ i. i.init) infos.now) }
{
    let mut scalars = Vec::with_capacity(alloc, infos.len())?;
    for info in infos {
        scalars.push(info.init)?;
    }
    Ok(scalars)
}

/// The initial numbers of a node's locals.
fn initial_locals(infos: &[LocalInfo]) -> Locals
    requires { length infos.now ≤ 16 }
    ensures { result ≡ map (λ l. l.init) infos.now }
{
    let mut at = [0; 16];
    for i in 0..infos.len() {
        at[i] = infos[i].init;
    }
    match Locals::of(&at[..infos.len()]) {
        Some(locals) => locals,
        None => unreachable!(),
    }
}

/// The initial locals of each node.
pub fn all_locals(alloc: Global, nodes: &[NodeInfo]) -> Result<Vec<Locals>, AllocError>
    requires { (n : ℕ) (node : NodeInfo) → At nodes.now n node → length node.locals.items ≤ 16 }
    ensures { IfOk result (λ v. v.items ≡ map (λ n. map (λ l. l.init) n.locals.items) nodes.now) }
{
    let mut all = Vec::with_capacity(alloc, nodes.len())?;
    for node in nodes {
        all.push(initial_locals(&node.locals))?;
    }
    Ok(all)
}

/// The role of each node.
pub fn roles(alloc: Global, p: &Typed) -> Result<Vec<Role>, AllocError>
    ensures { IfOk result (λ v. AreRoles p.now v.items) }
{
    let mut roles = Vec::with_capacity(alloc, p.nodes.len())?;
    for n in 0..p.nodes.len() {
        roles.push(role_of(&p.modules, n as u32))?;
    }
    Ok(roles)
}

/// The first module that uses a node, and as which.
fn role_of(modules: &[ModuleInfo], n: u32) -> Role
    requires { length modules.now ≤ 100 }
    ensures { IsRole modules.now n result }
{
    for m in 0..modules.len() {
        let info = &modules[m];
        if info.ac == n {
            return Role::Advanced(m as u32);
        }
        if info.sc == n {
            return Role::Safe(m as u32);
        }
    }
    Role::Free
}
