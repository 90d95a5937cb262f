//! The mission of a program with regions that were found.

ghost use Rattle.std.specs.Prelude.{◌≡◌, ℕ, ◌<◌, ◌≤◌, ◌+◌, ◌^◌, length, IfOk, OnOk};
ghost use Rattle.sot_sections.specs.declared.mission.Need.TheVariants as needs;
ghost use Rattle.sot_syntax_tree.specs.Trees.{Program as Tree};
ghost use Rattle.sot_syntax_tree.specs.TreeViews.{program_view};
ghost use Rattle.sot_lang.specs.CertRules.{FitsTables};
ghost use Rattle.sot_report.specs.Missions.{Mission, SpellsMission};
ghost use Rattle.sot_certified_text.specs.ReadAgain.{written_with_jitter, IsCertificateFor};
ghost use Rattle.sot_cli.specs.Texts.{input_limit};
ghost use Rattle.sot_regions_program.specs.AsAsked.{IsLate};
ghost use Rattle.sot_regions_program.specs.Answers.{SpellsTyped};
ghost use Rattle.sot_regions_program.specs.Steps.{AreTablesOf, AreFindings, IsWritten};
ghost use Rattle.sot_regions_program.specs.Steps.{AnswersFound};

use crate::search::{Asked, Findings};
use crate::typed::typed_with;
use sot_certified_text::mission_with_jitter;
use sot_cli::{Answer, refused};
use sot_compose::check_all;
use sot_lang::{Cert, Typed};
use sot_ports::Process;
use sot_report::{LoadFail, load};
use sot_sections::Need;
use sot_syntax_tree::Program;
use std::alloc::{AllocError, Global};
use std::thread::Threads;

// Reads a text again that was written of a program with a certificate for it: no such text has a
// fault.
fn read_back(alloc: Global, text: &[u8]) -> Result<(), AllocError>
    requires short { length text.now + 1 < 2 ^ 32 }
    requires written { IsWritten text.now }
    ensures { OnOk result ((m : Mission) × SpellsMission needs.Check 0 text.now m) }
{
    match load(alloc, text, Need::Check, 0, Process::GoesOn) {
        Ok(_loaded) => Ok(()),
        Err(LoadFail::Fault(_)) => unreachable!(),
        Err(LoadFail::Memory) => Err(AllocError),
    }
}

/// Status 0: the text of a program with its certificate, which spells a mission.
pub fn written(
    alloc: Global,
    program: &Program,
    tables: &Typed,
    cert: &Cert,
) -> Result<Answer, AllocError>
    requires { IsCertificateFor (program_view program.now) tables.now cert.now }
    ensures status { IfOk result (λ answer. answer.status ≡ 0) }
    ensures text { IfOk result (λ answer. answer.text.items
        ≡ written_with_jitter (program_view program.now) tables.now cert.now) }
    ensures spelled { IfOk result (λ answer.
        (m : Mission) × SpellsMission needs.Check 0 answer.text.items m) }
{
    let text = mission_with_jitter(alloc, program, tables, cert)?;
    // Places have 32 bits: there is no room for a longer text.
    if text.len() >= u32::MAX as usize {
        return Err(AllocError);
    }
    read_back(alloc, &text)?;
    Ok(Answer { status: 0, text })
}

/// Puts the regions into the program, checks it with its cells, and says it as a mission, or why it
/// is refused.
pub fn mission_of<R: Threads + Sync>(
    rt: &R,
    alloc: Global,
    asked: Asked<'_>,
    findings: Findings,
) -> Result<Answer, AllocError>
    requires short { length asked.text.now ≤ input_limit }
    requires tables { AreTablesOf asked.text.now asked.tables.now }
    requires low { asked.jitter ≤ 999 }
    requires in_time { ¬ (IsLate asked.tables.now asked.jitter) }
    requires found { AreFindings asked.tables.now findings.regions.items findings.cells.items
        (length asked.tables.now.modules) }
    ensures { (p : Tree) → SpellsTyped asked.entry.text.now p asked.entry.tables.now → IfOk result
        (λ answer. AnswersFound p asked.entry.tables.now asked.entry.jitter answer.status
        answer.text.items) }
{
    let typed = typed_with(alloc, asked.text, &findings.regions)?;
    let cert = Cert {
        jitter: asked.jitter,
        modules: findings.cells,
    };
    match check_all(rt, &typed.tables, &cert) {
        Ok(_accepted) => written(alloc, &typed.program, &typed.tables, &cert),
        Err(refusal) => refused(alloc, &typed.tables, &refusal),
    }
}
