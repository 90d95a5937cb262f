//! Regions for all modules of a program.

ghost use Rattle.std.specs.Prelude.{◌≡◌, ◌<◌, ◌≤◌, ℕ, List, Option, length, IfOk, IfErr, IsTrue};
ghost use Rattle.sot_lists.specs.Places.{At};
ghost use Rattle.sot_lang.specs.declared.cert.Cells.{Cells};
ghost use Rattle.sot_lang.specs.declared.tables.ModuleInfo.{ModuleInfo as Info};
ghost use Rattle.sot_lang.specs.Tables.{Tables};
ghost use Rattle.sot_lang.specs.TableRules.{MeetsTableRules};
ghost use Rattle.sot_traps.specs.Verdict.{HaveSafeBoxes};
ghost use Rattle.sot_cli.specs.Texts.{input_limit};
ghost use Rattle.sot_regions_program.specs.declared.search.SearchFail.TheVariants.{Memory};
ghost use Rattle.sot_regions_program.specs.Findings.{IsFinding};
ghost use Rattle.sot_regions.specs.declared.found.RegionsFail.TheVariants.{SafeNone};
ghost use Rattle.sot_regions_program.specs.Steps.{AreTablesOf, AreFindings, IsNone, TellsFail};
ghost use Rattle.sot_regions_program.specs.Steps.{TellsModule, AreSearched};

use crate::alone::is_alone;
use crate::finding::{Finding, finding_of};
use crate::refusal::RegionsRefusal;
use crate::typed::typed_with;
use sot_box::Point;
use sot_lang::{Cells, Typed};
use sot_regions::{FoundRegions, RegionsFail, regions_of};
use sot_regions_rewrite::ModuleRegions;
use sot_rta::module_at;
use std::alloc::{AllocError, AllocFailed, Global};

/// A program for which regions are asked: its text, its tables, and the jitter.
#[derive(Clone, Copy)]
pub struct Asked<'a> {
    pub text: &'a [u8],
    pub tables: &'a Typed,
    pub jitter: u32,
}

/// What was found for the modules of a program, in declared order.
#[derive(Drop)]
pub struct Findings {
    pub regions: Vec<ModuleRegions>,
    pub cells: Vec<Option<Cells>>,
}

/// What the search came to.
#[derive(Drop)]
pub enum Searched {
    /// What was found for all modules.
    All(Findings),
    /// What was found for the modules before one, and why there are no regions of that one.
    First {
        before: Findings,
        refusal: RegionsRefusal,
    },
}

/// Why there are no regions of a module.
#[derive(Drop)]
pub enum SearchFail {
    /// None was found.
    NotFound(RegionsRefusal),
    /// Memory ran out.
    Memory,
}

impl From<AllocError> for SearchFail {
    ghost from_gives = { λ _ e. e ≡ Memory };

    fn from(_error: AllocError) -> SearchFail {
        SearchFail::Memory
    }
}

impl<T: Drop> From<AllocFailed<T>> for SearchFail {
    ghost from_gives = { λ _ e. e ≡ Memory };

    fn from(_error: AllocFailed<T>) -> SearchFail {
        SearchFail::Memory
    }
}

// Searches regions of a module, where those before it have these. A module that no other plant
// concerns does not wait for them to be put into the tables.
fn found_of(
    alloc: Global,
    asked: Asked<'_>,
    before: &[ModuleRegions],
    module: u32,
) -> Result<FoundRegions, RegionsFail>
    requires there { «module» < length asked.tables.now.modules }
    requires short { length asked.text.now ≤ input_limit }
    requires tables { AreTablesOf asked.text.now asked.tables.now }
    requires boxes { HaveSafeBoxes asked.tables.now }
    requires jitter { asked.jitter ≤ 999 }
    requires found { (cells : List (Option Cells))
        × AreFindings asked.tables.now before.now cells «module» }
    ensures { IfErr result (TellsFail asked.entry.tables.now asked.entry.jitter «module») }
{
    if before.len() == 0 || is_alone(asked.tables, module) {
        return regions_of(alloc, asked.tables, module, asked.jitter);
    }
    match typed_with(alloc, asked.text, before) {
        Ok(typed) => regions_of(alloc, &typed.tables, module, asked.jitter),
        Err(_) => Err(RegionsFail::Memory),
    }
}

// That nothing is left of the safe region of a module at a grain.
fn nothing_left(p: &Typed, module: u32, grain: Point) -> RegionsRefusal
    requires there { «module» < length p.now.modules }
    requires rules { MeetsTableRules p.now }
    ensures { (jitter : ℕ) → TellsFail p.now jitter «module» (SafeNone grain)
        → TellsModule p.now jitter «module» result }
{
    if is_alone(p, module) {
        RegionsRefusal::SafeNone { module, grain }
    } else {
        RegionsRefusal::SafeNoneBeside { module, grain }
    }
}

// Why there are none, of this module.
fn named(p: &Typed, module: u32, fail: RegionsFail) -> SearchFail
    requires there { «module» < length p.now.modules }
    requires rules { MeetsTableRules p.now }
    ensures { (jitter : ℕ) → TellsFail p.now jitter «module» fail
        → IsNone p.now jitter «module» result }
{
    match fail {
        RegionsFail::SafeNone { grain } => SearchFail::NotFound(nothing_left(p, module, grain)),
        RegionsFail::TooMany => SearchFail::NotFound(RegionsRefusal::TooMany { module }),
        RegionsFail::SaferNone => SearchFail::NotFound(RegionsRefusal::SaferNone { module }),
        RegionsFail::Memory => SearchFail::Memory,
    }
}

// Regions of a module as lists. Such that are no lists of a program are none.
#[tactic(auto, using(crate::proofs::Forms::tells_module))]
fn search_one(
    alloc: Global,
    asked: Asked<'_>,
    before: &[ModuleRegions],
    module: u32,
) -> Result<Finding, SearchFail>
    requires there { «module» < length asked.tables.now.modules }
    requires short { length asked.text.now ≤ input_limit }
    requires tables { AreTablesOf asked.text.now asked.tables.now }
    requires boxes { HaveSafeBoxes asked.tables.now }
    requires jitter { asked.jitter ≤ 999 }
    requires found { (cells : List (Option Cells))
        × AreFindings asked.tables.now before.now cells «module» }
    ensures ok { IfOk result (λ finding. (a : Info)
        → At asked.entry.tables.now.modules «module» a
        → IsFinding a finding.regions finding.cells) }
    ensures err { IfErr result (IsNone asked.entry.tables.now asked.entry.jitter «module») }
{
    match found_of(alloc, asked, before, module) {
        Err(fail) => Err(named(asked.tables, module, fail)),
        Ok(found) => match finding_of(alloc, module_at(asked.tables, module), &found)? {
            Some(finding) => Ok(finding),
            None => Err(SearchFail::NotFound(RegionsRefusal::TooMany { module })),
        },
    }
}

/// Searches regions for the modules of a program, in declared order, up to the first one of which
/// none are found.
pub fn search(alloc: Global, asked: Asked<'_>) -> Result<Searched, AllocError>
    requires short { length asked.text.now ≤ input_limit }
    requires tables { AreTablesOf asked.text.now asked.tables.now }
    requires boxes { HaveSafeBoxes asked.tables.now }
    requires jitter { asked.jitter ≤ 999 }
    ensures { IfOk result (AreSearched asked.entry.tables.now asked.entry.jitter) }
{
    let mut findings = Findings {
        regions: Vec::new(alloc),
        cells: Vec::new(alloc),
    };
    let tables = asked.tables;
    for module in 0..tables.modules.len() as u32 {
        match search_one(alloc, asked, &findings.regions, module) {
            Ok(one) => {
                findings.regions.push(one.regions)?;
                findings.cells.push(Some(one.cells))?;
            }
            Err(SearchFail::NotFound(refusal)) => {
                return Ok(Searched::First {
                    before: findings,
                    refusal,
                });
            }
            Err(SearchFail::Memory) => return Err(AllocError),
        }
    }
    Ok(Searched::All(findings))
}
