//! A module of which no region was found: those before it have regions, which a checker looks at.

ghost use Rattle.std.specs.Prelude.{◌≡◌, ◌≤◌, ◌↔◌, ℕ, length, IfOk, IsTrue};
ghost use Rattle.sot_syntax_tree.specs.Trees.{Program as Tree};
ghost use Rattle.sot_lang.specs.CertRules.{FitsTables};
ghost use Rattle.sot_traps.specs.Verdict.{HaveSafeBoxes};
ghost use Rattle.sot_rta.specs.Refused.{Answers};
ghost use Rattle.sot_regions_program.specs.Lines.{refusal_line};
ghost use Rattle.sot_cli.specs.Texts.{input_limit};
ghost use Rattle.sot_regions_program.specs.AsAsked.{IsSearched};
ghost use Rattle.sot_regions_program.specs.Answers.{SpellsTyped};
ghost use Rattle.sot_regions_program.specs.Shown.{verdict_of_some};
ghost use Rattle.sot_regions_program.specs.Steps.{AreTablesOf, AreFindings, TellsModule};
ghost use Rattle.sot_regions_program.specs.Steps.{ArePadded, AnswersNone};

use crate::lines::refusal_line;
use crate::refusal::RegionsRefusal;
use crate::search::{Asked, Findings};
use crate::typed::typed_with;
use sot_cli::{Answer, refused};
use sot_compose::{check_all_cells, check_codes, check_composition};
use sot_lang::{Cells, Cert, Typed};
use sot_regions_rewrite::ModuleRegions;
use sot_rta::Refusal;
use std::alloc::{AllocError, Global};
use std::thread::Threads;

/// Status 1: a line that speaks of regions.
pub fn no_regions(
    alloc: Global,
    tables: &Typed,
    refusal: &RegionsRefusal,
) -> Result<Answer, AllocError>
    ensures status { IfOk result (λ answer. answer.status ≡ 1) }
    ensures text { IfOk result (λ answer.
        answer.text.items ≡ refusal_line tables.now refusal.now) }
{
    let text = refusal_line(alloc, tables, refusal)?;
    Ok(Answer { status: 1, text })
}

// How many modules a program has.
fn count_of(p: &Typed) -> usize
    ensures { result ≡ length p.now.modules }
{
    p.modules.len()
}

// Whether nothing was found before a module.
fn is_first(before: &[ModuleRegions]) -> bool
    ensures { IsTrue result ↔ (length before.now ≡ 0) }
{
    before.len() == 0
}

// The cells of the first modules, and none for the others.
#[tactic(auto, using(crate::proofs::Padded::none_behind, crate::proofs::Padded::one_behind))]
fn padded(cells: Vec<Option<Cells>>, count: usize) -> Result<Vec<Option<Cells>>, AllocError>
    requires { length cells.items ≤ count }
    ensures { IfOk result (λ all. ArePadded cells.items all.items count) }
{
    let mut all = cells;
    for _none in all.len()..count {
        all.push(None)?;
    }
    Ok(all)
}

// The first condition that fails of a program, where a certificate has cells for some modules.
fn check_some<R: Threads + Sync>(rt: &R, p: &Typed, c: &Cert) -> Result<(), Refusal>
    requires fits { FitsTables p.now c.now }
    requires boxes { HaveSafeBoxes p.now }
    ensures { Answers (verdict_of_some p.now c.now.jitter c.now) result }
{
    // A look at the tables brings their rules, which their type keeps.
    let _modules = p.modules.len();
    if let Err(refusal) = check_composition(p) {
        return Err(refusal);
    }
    if let Err(refusal) = check_codes(p) {
        return Err(refusal);
    }
    check_all_cells(rt, p, c)
}

// The line of a module of which no region was found, behind some of which regions were: a checker
// looks at the program with these first.
fn none_behind<R: Threads + Sync>(
    rt: &R,
    alloc: Global,
    asked: Asked<'_>,
    before: Findings,
    refusal: &RegionsRefusal,
) -> Result<Answer, AllocError>
    requires short { length asked.text.now ≤ input_limit }
    requires tables { AreTablesOf asked.text.now asked.tables.now }
    requires jitter { asked.jitter ≤ 999 }
    requires searched { IsSearched asked.tables.now asked.jitter }
    requires none { (m : ℕ)
        × AreFindings asked.tables.now before.regions.items before.cells.items m
        × TellsModule asked.tables.now asked.jitter m refusal.now }
    ensures { (p : Tree) → SpellsTyped asked.entry.text.now p asked.entry.tables.now → IfOk result
        (λ answer. AnswersNone p asked.entry.tables.now asked.entry.jitter answer.status
        answer.text.items) }
{
    let typed = typed_with(alloc, asked.text, &before.regions)?;
    let cert = Cert {
        jitter: asked.jitter,
        modules: padded(before.cells, count_of(&typed.tables))?,
    };
    match check_some(rt, &typed.tables, &cert) {
        Ok(()) => no_regions(alloc, asked.tables, refusal),
        Err(refusal) => refused(alloc, &typed.tables, &refusal),
    }
}

/// What is said where no region was found of a module: its line, where a checker does not refuse
/// the program with what was found for the modules before it.
pub fn none_of<R: Threads + Sync>(
    rt: &R,
    alloc: Global,
    asked: Asked<'_>,
    before: Findings,
    refusal: &RegionsRefusal,
) -> Result<Answer, AllocError>
    requires short { length asked.text.now ≤ input_limit }
    requires tables { AreTablesOf asked.text.now asked.tables.now }
    requires jitter { asked.jitter ≤ 999 }
    requires searched { IsSearched asked.tables.now asked.jitter }
    requires none { (m : ℕ)
        × AreFindings asked.tables.now before.regions.items before.cells.items m
        × TellsModule asked.tables.now asked.jitter m refusal.now }
    ensures { (p : Tree) → SpellsTyped asked.entry.text.now p asked.entry.tables.now → IfOk result
        (λ answer. AnswersNone p asked.entry.tables.now asked.entry.jitter answer.status
        answer.text.items) }
{
    if is_first(&before.regions) {
        return no_regions(alloc, asked.tables, refusal);
    }
    none_behind(rt, alloc, asked, before, refusal)
}
