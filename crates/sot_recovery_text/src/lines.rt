//! A line for each module: within how many holds it recovers, or that it never does.

ghost use Rattle.std.specs.Prelude.{◌≡◌, [], ◌++◌, ◌<◌, ◌≤◌, codes, length, IfOk, OnOk, MatchBool};
ghost use Rattle.sot_lang.specs.CertRules.{FitsTables};
ghost use Rattle.sot_report.specs.RefusalTexts.{gap_line};
ghost use Rattle.sot_recovery_text.specs.Recovery.{AllRecover, SomeNever};
ghost use Rattle.sot_recovery_text.specs.Lines.{safe_period, recover_line};
ghost use Rattle.sot_recovery_text.specs.Steps.{TellsMore, IsNever};

use sot_box::Point;
use sot_lang::Typed;
use sot_recover::{RecoverFail, recover_within};
use sot_report::{put, put_module, put_point};
use sot_rta::module_at;
use sot_tube::Accepted;
use std::alloc::{AllocError, Global};

// The period of a module's safe node.
fn safe_period(p: &Typed, module: u32) -> u32
    ensures { result ≡ safe_period p.now «module» }
{
    match p.modules.get(module as usize) {
        Some(info) => match p.nodes.get(info.sc as usize) {
            Some(node) => node.period,
            None => 0,
        },
        None => 0,
    }
}

// The line of a module that recovers.
fn put_line(
    alloc: Global,
    text: &mut Vec<u8>,
    p: &Typed,
    jitter: u32,
    module: u32,
    holds: u32,
) -> Result<(), AllocError>
    requires { holds ≤ 4096 }
    ensures { OnOk result (text.new.items
        ≡ text.old.items ++ recover_line p.now jitter «module» holds) }
{
    put(text, "recover ")?;
    put_module(text, p, module)?;
    let ticks = holds as u64 * (safe_period(p, module) as u64 + jitter as u64);
    let piece = format!(in alloc; " holds {holds} ticks {ticks}\n")?;
    text.extend_from_slice(piece.as_bytes())
}

// `refused recover module NAME point (X1, X2)`.
fn never_line(alloc: Global, p: &Typed, module: u32, point: &Point) -> Result<Vec<u8>, AllocError>
    ensures { IfOk result (λ text.
        text.items ≡ gap_line (codes "recover") p.now «module» point.now) }
{
    let mut text = Vec::new(alloc);
    put(&mut text, "refused recover module ")?;
    put_module(&mut text, p, module)?;
    put(&mut text, " point ")?;
    put_point(alloc, &mut text, point)?;
    text.push(b'\n')?;
    Ok(text)
}

// The line of a module that never recovers. Where memory was short there is none, and it is short
// again.
fn fail_line(
    alloc: Global,
    p: &Typed,
    module: u32,
    fail: &RecoverFail,
) -> Result<Vec<u8>, AllocError>
    ensures { IfOk result (λ text. IsNever fail.now (λ s.
        text.items ≡ gap_line (codes "recover") p.now «module» s)) }
{
    match *fail {
        RecoverFail::Never { point } => never_line(alloc, p, module, &point),
        RecoverFail::Memory => Err(AllocError),
    }
}

// Puts the line of a module that never recovers.
fn put_never(
    alloc: Global,
    text: &mut Vec<u8>,
    p: &Typed,
    module: u32,
    fail: &RecoverFail,
) -> Result<(), AllocError>
    ensures { OnOk result (IsNever fail.now (λ s. text.new.items
        ≡ text.old.items ++ gap_line (codes "recover") p.now «module» s)) }
{
    let line = fail_line(alloc, p, module, fail)?;
    text.extend_from_slice(&line)?;
    Ok(())
}

// Finds within how many holds a module recovers, and puts its line: behind `never` where it has no
// rank, and behind `within` where it has one.
fn put_outcome(
    alloc: Global,
    acc: &Accepted<'_>,
    module: u32,
    never: &mut Vec<u8>,
    within: &mut Vec<u8>,
) -> Result<(), AllocError>
    requires module_is { «module» < length acc.now.program.modules }
    requires fits { FitsTables acc.now.program acc.now.cert }
    ensures { OnOk result (TellsMore acc.now.program acc.now.cert «module» never.old.items
        within.old.items never.new.items within.new.items) }
{
    let p = acc.typed();
    // A look at the module brings the rules of the tables.
    let _info = module_at(p, module);
    match recover_within(alloc, acc, module) {
        Ok(holds) => put_line(alloc, within, p, acc.cert().jitter, module, holds),
        Err(fail) => put_never(alloc, never, p, module, &fail),
    }
}

/// Puts a line for each module into an empty text. `refused recover module NAME point (X1, X2)`
/// comes first, for each module that has no rank, in declared order. Behind these stands `recover
/// MODULE holds N ticks T` for each of the others, in declared order: it recovers within N holds of
/// its safe node, which last T ticks at most. True where all modules recover.
pub fn put_recovery(
    alloc: Global,
    text: &mut Vec<u8>,
    acc: &Accepted<'_>,
) -> Result<bool, AllocError>
    requires fits { FitsTables acc.now.program acc.now.cert }
    requires empty { text.old.items ≡ [] }
    ensures { IfOk result (λ all. MatchBool all
        (AllRecover acc.now.program acc.now.cert text.new.items)
        (SomeNever acc.now.program acc.now.cert text.new.items)) }
{
    let mut within = Vec::new(alloc);
    for module in 0..acc.typed().modules.len() as u32 {
        put_outcome(alloc, acc, module, text, &mut within)?;
    }
    let all = text.is_empty();
    text.extend_from_slice(within.as_slice())?;
    Ok(all)
}
