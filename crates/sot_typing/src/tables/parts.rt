//! The rows of the parts of plants and nodes: state variables, disturbances and locals.
ghost use Rattle.std.specs.Prelude.{◌≡◌, ◌++◌, map, IfOk, OnOk};
ghost use Rattle.std.specs.List.{All};
ghost use Rattle.sot_syntax_tree.specs.TreeViews.{local_view};
ghost use Rattle.sot_typing.specs.Resolved.{state_info, noise_info, local_info};
ghost use Rattle.sot_typing.specs.Parts.{StateFits, FieldFits, LocalFits};

use crate::tables::range::{const_number, greatest, is_truth, lowest, scalar_scale, state_scale};
use sot_lang::{LocalInfo, NoiseInfo, StateInfo};
use sot_syntax_tree::{Field, LocalDecl, StateDecl};
use std::alloc::{AllocError, Global};

fn state_info(alloc: Global, s: &StateDecl) -> Result<StateInfo, AllocError>
    requires { StateFits s.now }
    ensures { IfOk result (λ i. i ≡ state_info s.now) }
{
    Ok(StateInfo {
        name: s.name.name.copy(alloc)?,
        scale: state_scale(s),
    })
}

/// Puts the rows of the state variables of a plant behind the others, in order.
pub fn put_states(
    alloc: Global,
    states: &[StateDecl],
    infos: &mut Vec<StateInfo>,
) -> Result<(), AllocError>
    requires { All StateFits states.now }
    ensures { OnOk result (infos.new.items
        ≡ infos.old.items ++ map state_info states.now) }
{
    for s in states {
        infos.push(state_info(alloc, s)?)?;
    }
    Ok(())
}

fn noise_info(alloc: Global, f: &Field) -> Result<NoiseInfo, AllocError>
    requires { FieldFits f.now }
    ensures { IfOk result (λ i. i ≡ noise_info f.now) }
{
    Ok(NoiseInfo {
        name: f.name.name.copy(alloc)?,
        scale: scalar_scale(f.scalar),
        lo: lowest(f.scalar),
        hi: greatest(f.scalar),
    })
}

/// Puts the rows of the disturbances of a plant behind the others, in order.
pub fn put_noise(
    alloc: Global,
    noise: &[Field],
    infos: &mut Vec<NoiseInfo>,
) -> Result<(), AllocError>
    requires { All FieldFits noise.now }
    ensures { OnOk result (infos.new.items
        ≡ infos.old.items ++ map noise_info noise.now) }
{
    for f in noise {
        infos.push(noise_info(alloc, f)?)?;
    }
    Ok(())
}

fn local_info(alloc: Global, l: &LocalDecl) -> Result<LocalInfo, AllocError>
    requires { LocalFits (local_view l.now) }
    ensures { IfOk result (λ i. i ≡ local_info (local_view l.now)) }
{
    Ok(LocalInfo {
        name: l.name.name.copy(alloc)?,
        scale: scalar_scale(l.scalar),
        truth: is_truth(l.scalar),
        lo: lowest(l.scalar),
        hi: greatest(l.scalar),
        init: const_number(l.init),
    })
}

/// Puts the rows of the locals of a node behind the others, in order.
pub fn put_locals(
    alloc: Global,
    locals: &[LocalDecl],
    infos: &mut Vec<LocalInfo>,
) -> Result<(), AllocError>
    requires { All (λ l. LocalFits (local_view l)) locals.now }
    ensures { OnOk result (infos.new.items
        ≡ infos.old.items ++ map local_info (map local_view locals.now)) }
{
    for l in locals {
        infos.push(local_info(alloc, l)?)?;
    }
    Ok(())
}
