//! The whole text of a certified program.

ghost use Rattle.std.specs.Prelude.{◌≡◌, length, Some, IfOk};
ghost use Rattle.sot_syntax_tree.specs.TreeViews.{program_view};
ghost use Rattle.sot_print.specs.Canonical.{canonical};
ghost use Rattle.sot_json.specs.Json.{json_of};
ghost use Rattle.sot_certified_text.specs.Missions.{mission_text};
ghost use Rattle.sot_certified_text.specs.CertText.{certificate_data, certificate_line};
ghost use Rattle.sot_certified_text.specs.CertText.{data_with_jitter, line_with_jitter};

use crate::line::certificate_line;
use sot_lang::{Cert, Typed};
use sot_print::print;
use sot_syntax_tree::Program;
use std::alloc::{AllocError, Global};

/// The canonical text of a program, the line `%certificate`, and the line of its certificate with
/// its jitter, which reads back as its value. The certificate has an entry, or none, for each
/// module of the program.
pub fn mission_with_jitter(
    alloc: Global,
    program: &Program,
    p: &Typed,
    cert: &Cert,
) -> Result<Vec<u8>, AllocError>
    requires entries { length cert.now.modules.items ≡ length p.now.modules }
    ensures text { IfOk result (λ text. text.items
        ≡ mission_text (canonical (program_view program.now)) (line_with_jitter p.now cert.now)) }
    ensures reads_back { IfOk result (λ text. json_of (line_with_jitter p.now cert.now)
        ≡ Some (data_with_jitter p.now cert.now)) }
{
    let front = print(alloc, program)?;
    let line = certificate_line(alloc, p, cert)?;
    let mut text = Vec::new(alloc);
    text.extend_from_slice(front.as_bytes())?;
    text.extend_from_slice(b"%certificate\n")?;
    text.extend_from_slice(&line)?;
    Ok(text)
}

/// The canonical text of a program, the line `%certificate`, and the line of its certificate,
/// which has no jitter and reads back as its value. The certificate has an entry, or none, for
/// each module of the program.
pub fn mission_text(
    alloc: Global,
    program: &Program,
    p: &Typed,
    cert: &Cert,
) -> Result<Vec<u8>, AllocError>
    requires entries { length cert.now.modules.items ≡ length p.now.modules }
    requires no_jitter { cert.now.jitter ≡ 0 }
    ensures text { IfOk result (λ text. text.items
        ≡ mission_text (canonical (program_view program.now)) (certificate_line p.now cert.now)) }
    ensures reads_back { IfOk result (λ text. json_of (certificate_line p.now cert.now)
        ≡ Some (certificate_data p.now cert.now)) }
{
    mission_with_jitter(alloc, program, p, cert)
}
