//! Drafts of an instant in which nothing has been drafted yet.

ghost use Rattle.std.specs.Prelude.{◌≡◌, ℕ, None, false, map, replicate, length, slice_index_or};
ghost use Rattle.std.specs.Prelude.{IfOk};

use sot_lang::{Draft, NodeInfo};
use std::alloc::{AllocError, Global};

/// A blank draft for each node.
pub(crate) fn blank_drafts(alloc: Global, nodes: &[NodeInfo]) -> Result<Vec<Draft>, AllocError>
    ensures { IfOk result (λ v. v.items ≡ map (λ n. replicate 8 None) nodes.now) }
{
    let mut drafts = Vec::with_capacity(alloc, nodes.len())?;
    for _node in nodes {
        drafts.push(Draft::blank())?;
    }
    Ok(drafts)
}

/// A flag for each node, none of them set.
pub(crate) fn no_flags(alloc: Global, nodes: &[NodeInfo]) -> Result<Vec<bool>, AllocError>
    ensures { IfOk result (λ v. v.items ≡ map (λ n. false) nodes.now) }
{
    let mut flags = Vec::with_capacity(alloc, nodes.len())?;
    for _node in nodes {
        flags.push(false)?;
    }
    Ok(flags)
}

/// All drafts are blank again.
pub(crate) fn clear_drafts(drafts: &mut [Draft])
    ensures size { length drafts.new ≡ length drafts.old }
    ensures blank { (n : ℕ) → slice_index_or drafts.new n (replicate 8 None) ≡ replicate 8 None }
{
    for n in 0..drafts.len() {
        drafts[n] = Draft::blank();
    }
}

/// No flag is set any more.
pub(crate) fn clear_flags(flags: &mut [bool])
    ensures size { length flags.new ≡ length flags.old }
    ensures unset { (n : ℕ) → slice_index_or flags.new n false ≡ false }
{
    for n in 0..flags.len() {
        flags[n] = false;
    }
}
