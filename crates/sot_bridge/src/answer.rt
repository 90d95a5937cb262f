//! Answers: a status with the text that is written with it.

ghost use Rattle.std.specs.Prelude.{◌≡◌, ℕ, ◌++◌, List, IfOk};
ghost use Rattle.sot_rta.specs.Refused.{refusal_view};
ghost use Rattle.sot_world.specs.Opens.{IsFirstOutside};
ghost use Rattle.sot_flight.specs.Fits.{FitsFlight};
ghost use Rattle.sot_report.specs.FaultTexts.{fault_text};
ghost use Rattle.sot_report.specs.RefusalTexts.{refusal_text};
ghost use Rattle.sot_bridge.specs.Answers.{word_of, IsOutsideOf};

use sot_cli::{Answer, outside_line};
use sot_flight::Flight;
use sot_lang::Typed;
use sot_report::Fault;
use sot_rta::Refusal;
use std::alloc::{AllocError, Global};

/// Which of the two missions a line is about.
#[derive(Clone, Copy, Debug, PartialEq, Eq)]
pub enum Which {
    A,
    B,
}

fn word_of(which: Which) -> &'static str
    ensures { result.now ≡ word_of which }
{
    match which {
        Which::A => "a ",
        Which::B => "b ",
    }
}

// A line about one of the two.
fn line_of(alloc: Global, which: Which, line: &[u8]) -> Result<Vec<u8>, AllocError>
    ensures { IfOk result (λ text. text.items ≡ word_of which ++ line.now) }
{
    let mut text = Vec::from_slice(alloc, word_of(which).as_bytes())?;
    text.extend_from_slice(line)?;
    Ok(text)
}

/// Status 3: the line of a fault.
pub fn faulty(alloc: Global, which: Which, fault: &Fault) -> Result<Answer, AllocError>
    ensures status { IfOk result (λ answer. answer.status ≡ 3) }
    ensures text { IfOk result (λ answer.
        answer.text.items ≡ word_of which ++ fault_text fault.now) }
{
    let line = sot_report::fault_text(alloc, fault)?;
    let text = line_of(alloc, which, line.as_bytes())?;
    Ok(Answer { status: 3, text })
}

/// Status 1: the line of a refusal.
pub fn refused(
    alloc: Global,
    which: Which,
    program: &Typed,
    refusal: &Refusal,
) -> Result<Answer, AllocError>
    ensures status { IfOk result (λ answer. answer.status ≡ 1) }
    ensures text { IfOk result (λ answer. answer.text.items
        ≡ word_of which ++ refusal_text program.now (refusal_view refusal.now)) }
{
    let line = sot_report::refusal_text(alloc, program, refusal)?;
    let text = line_of(alloc, which, &line)?;
    Ok(Answer { status: 1, text })
}

/// Status 1: the line of a flight whose start is refused, since the plant of this module starts
/// outside the module's safer region.
pub fn outside(
    alloc: Global,
    which: Which,
    program: &Typed,
    flight: &Flight,
    module: u32,
) -> Result<Answer, AllocError>
    requires fits { (guests : ℕ) × FitsFlight program.now guests flight.now }
    requires first { IsFirstOutside program.now flight.now.start «module» }
    ensures status { IfOk result (λ answer. answer.status ≡ 1) }
    ensures text { IfOk result (λ answer. (line : List ℕ) × IsOutsideOf program.now flight.now line
        × (answer.text.items ≡ word_of which ++ line)) }
{
    let line = outside_line(alloc, program, flight.start(), module)?;
    let text = line_of(alloc, which, &line)?;
    Ok(Answer { status: 1, text })
}
