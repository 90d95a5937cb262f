//! Which bodies run in flat form.

ghost use Rattle.std.specs.Prelude.{◌<◌, IfOk, length};
ghost use Rattle.sot_eval_flat.specs.FlatForm.{IsFormOf};

use crate::flat::Flat;
use crate::unfit::Unfit;
use sot_lang::{Act, Typed};
use std::alloc::{AllocError, Global};

// A body of as many statements runs long, and one that repeats a block.
const LONG: usize = 64;

// Whether a body runs long.
fn runs_long(acts: &[Act]) -> bool {
    for one in acts {
        match one {
            Act::Repeat { .. } => return true,
            Act::If { yes, no, .. } => {
                if runs_long(yes) || runs_long(no) {
                    return true;
                }
            }
            _ => {}
        }
    }
    acts.len() >= LONG
}

/// The flat form of a node's body, where that repeats a block or has 64 statements, and has one.
pub fn form_of(alloc: Global, p: &Typed, node: u32) -> Result<Option<Flat>, AllocError>
    requires { node < length p.now.nodes }
    ensures { IfOk result (IsFormOf p.now node) }
{
    let Some(acts) = &p.nodes[node as usize].body else {
        return Ok(None);
    };
    if !runs_long(acts) {
        return Ok(None);
    }
    match Flat::of(alloc, p, node) {
        Ok(flat) => Ok(Some(flat)),
        Err(Unfit::Wide) => Ok(None),
        Err(Unfit::Memory) => Err(AllocError),
    }
}
