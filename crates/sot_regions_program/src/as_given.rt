//! The mission of a program with the regions that it was given.

ghost use Rattle.std.specs.Prelude.{◌≡◌, ◌≤◌, Ok, length, IfOk};
ghost use Rattle.sot_syntax_tree.specs.Trees.{Program as Tree};
ghost use Rattle.sot_lang.specs.CertRules.{FitsTables};
ghost use Rattle.sot_certify.specs.Certifying.{Certifies};
ghost use Rattle.sot_cli.specs.Texts.{input_limit};
ghost use Rattle.sot_regions_program.specs.Answers.{SpellsTyped, IsMissionAsGiven};
ghost use Rattle.sot_regions_program.specs.Steps.{AreTablesOf, AnswersSearched, AnswersAtLast};

use crate::mission::written;
use crate::search::Asked;
use crate::typed::spelled;
use sot_certify::{CertifyFail, certify};
use sot_cli::Answer;
use sot_lang::Cert;
use std::alloc::{AllocError, Global};

// Status 0: the mission of a program as it was given, with a certificate that is made for it.
fn as_given(alloc: Global, asked: Asked<'_>, cert: &Cert) -> Result<Answer, AllocError>
    requires short { length asked.text.now ≤ input_limit }
    requires tables { AreTablesOf asked.text.now asked.tables.now }
    requires on_time { asked.jitter ≡ 0 }
    requires made { Certifies asked.tables.now (Ok cert.now) }
    requires fits { FitsTables asked.tables.now cert.now }
    ensures { (p : Tree) → SpellsTyped asked.entry.text.now p asked.entry.tables.now → IfOk result
        (λ answer. (answer.status ≡ 0)
        × IsMissionAsGiven p asked.entry.tables.now asked.entry.jitter answer.text.items) }
{
    let program = spelled(alloc, asked.text)?;
    written(alloc, &program, asked.tables, cert)
}

/// What is said of a program whose regions were searched. Where there is no mission, and firings
/// are on time, it is the mission of the program as it was given, if halving makes its certificate.
pub fn or_as_given(alloc: Global, asked: Asked<'_>, found: Answer) -> Result<Answer, AllocError>
    requires short { length asked.text.now ≤ input_limit }
    requires tables { AreTablesOf asked.text.now asked.tables.now }
    requires found { (p : Tree) → SpellsTyped asked.text.now p asked.tables.now
        → AnswersSearched p asked.tables.now asked.jitter found.status found.text.items }
    ensures { (p : Tree) → SpellsTyped asked.entry.text.now p asked.entry.tables.now → IfOk result
        (λ answer. AnswersAtLast p asked.entry.tables.now asked.entry.jitter answer.status
        answer.text.items) }
{
    if asked.jitter > 0 || found.status == 0 {
        return Ok(found);
    }
    match certify(alloc, asked.tables) {
        Ok(cert) => as_given(alloc, asked, &cert),
        Err(fail) => match fail {
            CertifyFail::Memory => Err(AllocError),
            _ => Ok(found),
        },
    }
}
