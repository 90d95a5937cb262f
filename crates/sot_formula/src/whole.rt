//! Formulas from texts.

ghost use Rattle.std.specs.Prelude.{◌≡◌, ◌≤◌, false, length, IfOk, IfErr};
ghost use Rattle.sot_formula.specs.Answers.{IsRead, Refuses};
ghost use Rattle.sot_formula.specs.Judging.{is_ended, IsAllRead, RefusesAll, RefusesParts};

use crate::fail::MonitorFail;
use crate::laid::Laid;
use crate::reading::formula;
use crate::what::What;
use sot_expression::{Fail, Tokens};
use sot_lang::Typed;
use sot_text::Lexer;
use std::alloc::Global;

const MOST_BYTES: usize = 16777216;

const LEVELS: u32 = 64;

// The text ends where its tokens do.
fn is_ended(tokens: &Tokens<'_>) -> bool
    ensures { result ≡ is_ended tokens.now }
{
    match tokens.peek() {
        Some(_) => false,
        None => tokens.fault().is_none(),
    }
}

// The parts of the formula that a whole text is.
#[tactic(auto, using(crate::proofs::Texts::all_read, crate::proofs::Texts::not_ended, crate::proofs::Texts::none_read))]
fn all(alloc: Global, p: &Typed, bytes: &[u8]) -> Result<Laid, MonitorFail>
    requires { length bytes.now ≤ 16777216 }
    ensures ok { IfOk result (λ s. IsAllRead p.now bytes.now s) }
    ensures err { IfErr result (λ fail. RefusesAll bytes.now fail) }
{
    let mut tokens = Tokens::new(Lexer::new(bytes));
    match formula(p, &mut tokens, Laid::none(alloc), LEVELS) {
        Ok(laid) => {
            if is_ended(&tokens) {
                Ok(laid)
            } else {
                Err(MonitorFail::Form)
            }
        }
        Err(Fail::Memory) => Err(MonitorFail::Memory),
        Err(Fail::Token) => Err(MonitorFail::Form),
        Err(Fail::Deep) => Err(MonitorFail::Form),
    }
}

// The parts, if each reference names something and no comparison has two scales.
fn judged(laid: Laid) -> Result<Vec<What>, MonitorFail>
    ensures ok { IfOk result (λ v. (laid.unknown ≡ false) × (laid.differs ≡ false)
        × (v.items ≡ laid.whats)) }
    ensures err { IfErr result (λ fail. RefusesParts laid fail) }
{
    if laid.unknown {
        return Err(MonitorFail::Unknown);
    }
    if laid.differs {
        return Err(MonitorFail::ScaleDiffers);
    }
    Ok(laid.whats)
}

/// The parts of the formula that the bytes spell, for a program: each part behind its own parts,
/// the whole last.
///
/// # Errors
///
/// `Form` where the bytes are the text of no formula, else `Unknown` where some reference names
/// nothing, else `ScaleDiffers` where some comparison has two scales; `Memory` where there is none.
pub fn read(alloc: Global, p: &Typed, bytes: &[u8]) -> Result<Vec<What>, MonitorFail>
    ensures ok { IfOk result (λ v. IsRead p.now bytes.now v.items) }
    ensures err { IfErr result (λ fail. Refuses p.now bytes.now fail) }
{
    // A look at a field brings what the type keeps.
    let _modules = &p.modules;
    if bytes.len() > MOST_BYTES {
        return Err(MonitorFail::Form);
    }
    match all(alloc, p, bytes) {
        Ok(laid) => judged(laid),
        Err(fail) => Err(fail),
    }
}
