//! All checks, in order.

ghost use Rattle.std.specs.Prelude.{◌≡◌, IfOk};
ghost use Rattle.sot_world.specs.Headline.{EveryRunIsSafe};
ghost use Rattle.sot_lists.specs.Places.{At};
ghost use Rattle.sot_lang.specs.CertRules.{FitsTables};
ghost use Rattle.sot_lang.specs.TableRules.{MeetsTableRules};
ghost use Rattle.sot_traps.specs.Verdict.{HaveSafeBoxes};
ghost use Rattle.sot_tube.specs.Checks.{for_each};
ghost use Rattle.sot_tube.specs.Verdict.{shape, code, cells_of, verdict};
ghost use Rattle.sot_rta.specs.Cells.{MayHaveCells};
ghost use Rattle.sot_tube.specs.Refusals.{CodeMayTrap};
ghost use Rattle.sot_rta.specs.Refused.{Answers, refusal_view};
ghost use Rattle.sot_compose.specs.Accepting.{Accepts};

use crate::composition::check_composition;
use sot_iv::MayTrap;
use sot_lang::{Cert, NodeInfo, Typed};
use sot_rta::{Refusal, check_cells, check_shape, module_at, node_at};
use sot_traps::trap_free;
use sot_tube::Accepted;
use std::thread::Threads;

fn shapes(p: &Typed, c: &Cert) -> Result<(), Refusal>
    requires rules { MeetsTableRules p.now }
    requires fits { FitsTables p.now c.now }
    ensures { Answers (for_each p.now.modules (shape p.now c.now)) result }
{
    for module in 0..p.modules.len() as u32 {
        // The proof speaks of the module that stands there.
        let _info = module_at(p, module);
        if let Err(refusal) = check_shape(p, module, c) {
            return Err(refusal);
        }
    }
    Ok(())
}

// The refusal of a node that may trap.
fn code_refusal(node: u32, trap: MayTrap) -> Refusal
    ensures { refusal_view result ≡ CodeMayTrap node trap.at trap.kind trap.lo trap.hi }
{
    Refusal::CodeMayTrap {
        node,
        at: trap.at,
        kind: trap.kind,
        lo: trap.lo,
        hi: trap.hi,
    }
}

// Whether a node, if it is coded, never traps.
fn code_of(p: &Typed, node: u32, info: &NodeInfo) -> Result<(), Refusal>
    requires is { At p.now.nodes node info.now }
    requires boxes { HaveSafeBoxes p.now }
    ensures { Answers (code p.now node info.now) result }
{
    let Some(_body) = &info.body else {
        return Ok(());
    };
    match trap_free(p, node) {
        Ok(()) => Ok(()),
        Err(trap) => Err(code_refusal(node, trap)),
    }
}

/// Whether each coded node never traps, whatever it meets; else the first that may. Takes no
/// memory.
pub fn check_codes(p: &Typed) -> Result<(), Refusal>
    requires rules { MeetsTableRules p.now }
    requires boxes { HaveSafeBoxes p.now }
    ensures { Answers (for_each p.now.nodes (code p.now)) result }
{
    for node in 0..p.nodes.len() as u32 {
        if let Err(refusal) = code_of(p, node, node_at(p, node)) {
            return Err(refusal);
        }
    }
    Ok(())
}

/// Whether the cells of all modules keep their plants inside, module by module; else why those of
/// the first that do not. Takes no memory.
pub fn check_all_cells<R: Threads + Sync>(rt: &R, p: &Typed, c: &Cert) -> Result<(), Refusal>
    requires rules { MeetsTableRules p.now }
    requires fits { FitsTables p.now c.now }
    requires may { MayHaveCells p.now }
    ensures { Answers (for_each p.now.modules (cells_of p.now c.now.jitter c.now)) result }
{
    for module in 0..p.modules.len() as u32 {
        // The proof speaks of the module that stands there.
        let _info = module_at(p, module);
        if let Err(refusal) = check_cells(rt, p, module, c) {
            return Err(refusal);
        }
    }
    Ok(())
}

fn checked<R: Threads + Sync>(rt: &R, p: &Typed, c: &Cert) -> Result<(), Refusal>
    requires rules { MeetsTableRules p.now }
    requires fits { FitsTables p.now c.now }
    ensures { Answers (verdict p.now c.now.jitter c.now) result }
{
    if let Err(refusal) = check_composition(p) {
        return Err(refusal);
    }
    if let Err(refusal) = shapes(p, c) {
        return Err(refusal);
    }
    if let Err(refusal) = check_codes(p) {
        return Err(refusal);
    }
    check_all_cells(rt, p, c)
}

/// Accepts a program with its certificate exactly where all fifteen conditions hold; else refuses
/// it for the first one that fails, with its evidence. The order is: no shared node, no shared
/// output, no shared plant, no foreign input; then per module an entry, short periods, outputs in
/// common, regions that are not empty; then per coded node no trap; then per module its closed
/// cells and its reach cells. `c` is a certificate of this program. Long lists of cells are checked
/// by threads of `rt`; which condition is the first does not depend on them. Takes no memory.
///
/// Of an accepted program every run from plants in their safer regions is safe, with firings up to
/// the certificate's jitter late: at each tick every module's plant is in the module's safe region,
/// and no coded node traps.
pub fn check_all<'a, R: Threads + Sync>(
    rt: &R,
    p: &'a Typed,
    c: &'a Cert,
) -> Result<Accepted<'a>, Refusal>
    requires { FitsTables p.now c.now }
    ensures answer { Accepts p.now c.now result }
    ensures safe { IfOk result (λ _. EveryRunIsSafe p.now c.now.jitter) }
{
    // A look at the tables brings their rules, which their type keeps.
    let _modules = p.modules.len();
    match checked(rt, p, c) {
        Ok(()) => Ok(Accepted::of(p, c)),
        Err(refusal) => Err(refusal),
    }
}
