//! The lines of an accepted mission.

ghost use Rattle.std.specs.Prelude.{◌≡◌, ◌≤◌, length, IfOk};
ghost use Rattle.std.specs.String.{string_bytes};
ghost use Rattle.sot_lang.specs.CertRules.{FitsTables};
ghost use Rattle.sot_report.specs.Counts.{AreFew};
ghost use Rattle.sot_report.specs.AcceptedTexts.{entry_count, cell_count, counts_text};
ghost use Rattle.sot_report.specs.AcceptedTexts.{accepted_text};

use sot_lang::{Cells, Cert, Typed};
use std::alloc::{AllocError, Global};

// The cells of an entry.
fn entry_count(entry: &Option<Cells>) -> u64
    requires { entry_count entry.now ≤ 8192 }
    ensures { result ≡ entry_count entry.now }
{
    match entry {
        Some(cells) => cells.closed.len() as u64 + cells.reach.len() as u64,
        None => 0,
    }
}

// The cells of all entries.
fn cell_count(entries: &[Option<Cells>]) -> u64
    requires few { AreFew entries.now }
    requires entries { length entries.now ≤ 100 }
    ensures { result ≡ cell_count entries.now }
{
    let mut count = 0;
    for entry in entries {
        count += entry_count(entry);
    }
    count
}

// The line of counts, behind `accepted`.
fn counts_text(
    alloc: Global,
    modules: usize,
    nodes: usize,
    cells: u64,
) -> Result<String, AllocError>
    ensures { IfOk result (λ text. string_bytes text ≡ counts_text modules nodes cells) }
{
    let text = format!(in alloc; "accepted\nmodules {modules} nodes {nodes} cells {cells}\n")?;
    Ok(text)
}

/// `accepted`, and a line with the counts of modules, of nodes and of all cells of the certificate.
pub fn accepted_text(alloc: Global, p: &Typed, cert: &Cert) -> Result<String, AllocError>
    requires { FitsTables p.now cert.now }
    ensures { IfOk result (λ text. string_bytes text ≡ accepted_text p.now cert.now) }
{
    let modules = p.modules.len();
    let nodes = p.nodes.len();
    let cells = cell_count(&cert.modules);
    counts_text(alloc, modules, nodes, cells)
}
