//! Answers: a status with the text that is written with it.

ghost use Rattle.std.specs.Prelude.{◌≡◌, ◌≢◌, ℕ, IfOk};
ghost use Rattle.sot_syntax_tree.specs.TreeViews.{program_view};
ghost use Rattle.sot_lang.specs.CertRules.{FitsTables};
ghost use Rattle.sot_print.specs.Canonical.{canonical};
ghost use Rattle.sot_world.specs.Opens.{IsFirstOutside};
ghost use Rattle.sot_flight.specs.Fits.{FitsFlight};
ghost use Rattle.sot_commands.specs.ReplayTexts.{legal_text, kind_word, refused_line_text};
ghost use Rattle.sot_commands.specs.Answers.{IsOutsideOf};
ghost use Rattle.sot_commands.specs.WatchTexts.{formula_text};
ghost use Rattle.sot_commands.specs.Words.{AreAsked};
ghost use Rattle.sot_maker.specs.Missions.{mission_text as made_text};
ghost use Rattle.sot_report.specs.AcceptedTexts.{accepted_text};
ghost use Rattle.sot_certified_text.specs.FailTexts.{fail_text};

use sot_certify::CertifyFail;
use sot_cli::{Answer, fixed};
use sot_flight::Flight;
use sot_formula::MonitorFail;
use sot_lang::{Cert, Typed};
use sot_maker::make;
use sot_print::print;
use sot_replay::LineKind;
use sot_syntax_tree::Program;
use std::alloc::{AllocError, Global};

/// Status 0: the canonical text of a program.
pub fn canonical(alloc: Global, program: &Program) -> Result<Answer, AllocError>
    ensures status { IfOk result (λ answer. answer.status ≡ 0) }
    ensures text { IfOk result (λ answer.
        answer.text.items ≡ canonical (program_view program.now)) }
{
    let text = print(alloc, program)?;
    Ok(Answer {
        status: 0,
        text: text.into_bytes(),
    })
}

/// Status 0: the mission that is made from two numbers.
pub fn made(alloc: Global, n: u32, seed: u64) -> Result<Answer, AllocError>
    requires { AreAsked n seed }
    ensures status { IfOk result (λ answer. answer.status ≡ 0) }
    ensures text { IfOk result (λ answer. answer.text.items ≡ made_text n seed) }
{
    let text = make(alloc, n, seed)?;
    Ok(Answer {
        status: 0,
        text: text.into_bytes(),
    })
}

/// Status 0: `accepted`, and a line of counts.
pub fn accepted(alloc: Global, program: &Typed, cert: &Cert) -> Result<Answer, AllocError>
    requires { FitsTables program.now cert.now }
    ensures status { IfOk result (λ answer. answer.status ≡ 0) }
    ensures text { IfOk result (λ answer. answer.text.items ≡ accepted_text program.now cert.now) }
{
    let text = sot_report::accepted_text(alloc, program, cert)?;
    Ok(Answer {
        status: 0,
        text: text.into_bytes(),
    })
}

fn formula_word(fail: MonitorFail) -> &'static str
    ensures { result.now ≡ formula_text fail }
{
    match fail {
        MonitorFail::Form => "fault formula Form\n",
        MonitorFail::Unknown => "fault formula Unknown\n",
        MonitorFail::ScaleDiffers => "fault formula ScaleDiffers\n",
        MonitorFail::Memory => "",
    }
}

/// Status 3: the line of a formula's fault; no answer where memory ran out.
pub fn faulty_formula(alloc: Global, fail: MonitorFail) -> Result<Answer, AllocError>
    ensures status { IfOk result (λ answer. answer.status ≡ 3) }
    ensures text { IfOk result (λ answer.
        (fail ≢ MonitorFail.Memory) × (answer.text.items ≡ formula_text fail)) }
{
    match fail {
        MonitorFail::Memory => Err(AllocError),
        MonitorFail::Form | MonitorFail::Unknown | MonitorFail::ScaleDiffers => {
            fixed(alloc, 3, formula_word(fail))
        }
    }
}

/// Status 1: the line of a flight whose start is refused, since the plant of this module starts
/// outside the module's safer region.
pub fn outside(
    alloc: Global,
    program: &Typed,
    flight: &Flight,
    module: u32,
) -> Result<Answer, AllocError>
    requires fits { (guests : ℕ) × FitsFlight program.now guests flight.now }
    requires first { IsFirstOutside program.now flight.now.start «module» }
    ensures status { IfOk result (λ answer. answer.status ≡ 1) }
    ensures text { IfOk result (λ answer. IsOutsideOf program.now flight.now answer.text.items) }
{
    sot_cli::outside(alloc, program, flight.start(), module)
}

/// Status 0: `legal events E`.
pub fn legal(alloc: Global, events: u32) -> Result<Answer, AllocError>
    ensures status { IfOk result (λ answer. answer.status ≡ 0) }
    ensures text { IfOk result (λ answer. answer.text.items ≡ legal_text events) }
{
    let text = format!(in alloc; "legal events {events}\n")?;
    Ok(Answer {
        status: 0,
        text: text.into_bytes(),
    })
}

fn kind_word(kind: LineKind) -> &'static str
    ensures { result.now ≡ kind_word kind }
{
    match kind {
        LineKind::NotALine => "NotALine",
        LineKind::WrongTime => "WrongTime",
        LineKind::NotDue => "NotDue",
        LineKind::AlreadyFired => "AlreadyFired",
        LineKind::NodesLeft => "NodesLeft",
        LineKind::OutsideType => "OutsideType",
        LineKind::InputsLeft => "InputsLeft",
        LineKind::TooFar => "TooFar",
        LineKind::Differs => "Differs",
        LineKind::Ended => "Ended",
        LineKind::Missing => "Missing",
    }
}

/// Status 1: the line of a trace that is refused at a line.
pub fn refused_line(alloc: Global, line: u32, kind: LineKind) -> Result<Answer, AllocError>
    ensures status { IfOk result (λ answer. answer.status ≡ 1) }
    ensures text { IfOk result (λ answer. answer.text.items ≡ refused_line_text line kind) }
{
    let word = kind_word(kind);
    let text = format!(in alloc; "refused replay line {line} {word}\n")?;
    Ok(Answer {
        status: 1,
        text: text.into_bytes(),
    })
}

/// Status 1: the line that says why there is no certificate.
pub fn uncertified(alloc: Global, tables: &Typed, fail: &CertifyFail) -> Result<Answer, AllocError>
    ensures status { IfOk result (λ answer. answer.status ≡ 1) }
    ensures text { IfOk result (λ answer. answer.text.items ≡ fail_text tables.now fail.now) }
{
    let text = sot_certified_text::fail_text(alloc, tables, fail)?;
    Ok(Answer { status: 1, text })
}
