//! A status with the text that is written with it.

ghost use Rattle.std.specs.Prelude.{◌≡◌, IfOk};
ghost use Rattle.sot_rta.specs.Refused.{refusal_view};
ghost use Rattle.sot_report.specs.FaultTexts.{fault_text};
ghost use Rattle.sot_report.specs.RefusalTexts.{refusal_text};

use sot_lang::Typed;
use sot_report::Fault;
use sot_rta::Refusal;
use std::alloc::{AllocError, Global};

/// A status, and the text that is written with it.
#[derive(Drop)]
pub struct Answer {
    pub status: u8,
    pub text: Vec<u8>,
}

/// A text that is always the same.
pub fn fixed(alloc: Global, status: u8, text: &str) -> Result<Answer, AllocError>
    ensures status { IfOk result (λ answer. answer.status ≡ status) }
    ensures text { IfOk result (λ answer. answer.text.items ≡ text.now) }
{
    Ok(Answer {
        status,
        text: Vec::from_slice(alloc, text.as_bytes())?,
    })
}

/// Status 3: the line of a fault.
pub fn faulty(alloc: Global, fault: &Fault) -> Result<Answer, AllocError>
    ensures status { IfOk result (λ answer. answer.status ≡ 3) }
    ensures text { IfOk result (λ answer. answer.text.items ≡ fault_text fault.now) }
{
    let text = sot_report::fault_text(alloc, fault)?;
    Ok(Answer {
        status: 3,
        text: text.into_bytes(),
    })
}

/// Status 1: the line of a refusal.
pub fn refused(alloc: Global, program: &Typed, refusal: &Refusal) -> Result<Answer, AllocError>
    ensures status { IfOk result (λ answer. answer.status ≡ 1) }
    ensures text { IfOk result (λ answer. answer.text.items
        ≡ refusal_text program.now (refusal_view refusal.now)) }
{
    let text = sot_report::refusal_text(alloc, program, refusal)?;
    Ok(Answer { status: 1, text })
}
