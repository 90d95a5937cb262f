//! The line of a summary.

ghost use Rattle.std.specs.Prelude.{◌≡◌, IfOk};
ghost use Rattle.std.specs.String.{string_bytes};
ghost use Rattle.sot_summary.specs.SummaryText.{sizes_text, counts_text, summary_text};

use crate::summary::Summary;
use std::alloc::{AllocError, Global};

// How large program and flight are.
fn sizes_text(
    alloc: Global,
    modules: usize,
    nodes: usize,
    horizon: u32,
) -> Result<String, AllocError>
    ensures { IfOk result (λ text. string_bytes text ≡ sizes_text modules nodes horizon) }
{
    let text = format!(in alloc; "soak modules {modules} nodes {nodes} horizon {horizon}")?;
    Ok(text)
}

// What was counted of the history.
fn counts_text(
    alloc: Global,
    firings: usize,
    ticks: usize,
    refused: u128,
    outside: usize,
    sum: i128,
) -> Result<String, AllocError>
    ensures { IfOk result (λ text. string_bytes text
        ≡ counts_text firings ticks refused outside sum) }
{
    let text = format!(in alloc;
        " firings {firings} ticks {ticks} refused {refused} outside {outside} sum {sum}\n"
    )?;
    Ok(text)
}

/// `soak modules M nodes N horizon H firings F ticks T refused R outside O sum X`, with a line end.
/// The error is want of memory.
pub fn summary_text(alloc: Global, summary: &Summary) -> Result<String, AllocError>
    ensures { IfOk result (λ text. string_bytes text ≡ summary_text summary.now) }
{
    let mut text = sizes_text(alloc, summary.modules, summary.nodes, summary.horizon)?;
    let counts = counts_text(
        alloc,
        summary.firings,
        summary.ticks,
        summary.refused,
        summary.outside,
        summary.sum,
    )?;
    text.push_str(&counts)?;
    Ok(text)
}
