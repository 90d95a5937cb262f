//! Bodies in flat form, for the workers that are to have threads.

ghost use Rattle.std.specs.Prelude.{◌<◌, length, IfOk};
ghost use Rattle.sot_eval_flat.specs.FlatForm.{IsFormOf};
ghost use Rattle.sot_workers.specs.Forms.{AreFormsOf};

use crate::rule::is_noted;
use sot_eval_flat::{Flat, form_of};
use sot_lang::Typed;
use std::alloc::{AllocError, Global};

// The flat form of a node's body, if any, where the start of a thread is tried for it.
fn form_for(alloc: Global, p: &Typed, node: u32, is_tried: bool) -> Result<Option<Flat>, AllocError>
    requires { node < length p.now.nodes }
    ensures { IfOk result (IsFormOf p.now node) }
{
    if is_tried {
        form_of(alloc, p, node)
    } else {
        Ok(None)
    }
}

/// Of each node the flat form of its body, if any, where the start of a thread is tried for it.
pub(crate) fn forms_for(
    alloc: Global,
    p: &Typed,
    tried: &Vec<bool>,
) -> Result<Vec<Option<Flat>>, AllocError>
    ensures { IfOk result (λ forms. AreFormsOf p.now forms.items) }
{
    let mut forms = Vec::with_capacity(alloc, p.nodes.len())?;
    for node in 0..p.nodes.len() {
        let form = form_for(alloc, p, node as u32, is_noted(tried, node))?;
        forms.push_reserved(form);
    }
    Ok(forms)
}
